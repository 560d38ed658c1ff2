//! The verdict on a certificate.

use tune_problem::{Answer, Ranking};

/// Why a certificate is rejected.
#[derive(Clone, Copy, Debug, PartialEq, Eq)]
pub enum Reason {
    /// A record is malformed for its position, or record 0 or 1 is missing.
    Malformed,
    /// The certificate does not have a row for each setting of the template or part, or claims
    /// another count.
    RowCount,
    /// The row of the best setting does not list every fight in order, or its points, each times
    /// the weight of the fight, do not add up to the total. In a check with a demand also: the
    /// certificate states another floor than the one that is asked for.
    BestRow,
    /// A cap row names a setting that does not assemble, a fight that does not exist, or points
    /// other than the fight's.
    WrongPoints,
    /// A cap row lists a fight twice, or its fights are not in order.
    RepeatedFight,
    /// The cap of a row beats the best setting, so the row does not show that its setting is not
    /// better. In a check with a demand also: the cap reaches the floor that no setting is said to
    /// reach, or some fights are not listed and the cap contends for a place in the ranking.
    CapTooHigh,
    /// A row refers to itself, to a setting that does not exist, to a row that is not a cap row of
    /// rising fights that exist; or the two settings do not assemble to equal warriors.
    NotSame,
    /// The row says refused, but the setting assembles.
    NotRefused,
    /// The certificate is of version 1, and a fight has a weight other than 1.
    Version,
}

/// What `check` says of a certificate.
#[derive(Clone, Copy, Debug, PartialEq, Eq)]
pub enum Verdict {
    /// The certificate is valid, and its best setting is the optimum.
    Accepted {
        /// The index of the certificate's best setting, from 0.
        best: u32,
        /// The total of that setting.
        total: u32,
    },
    /// The certificate is not valid.
    Rejected {
        /// The record, from 0: 0 is the count, 1 the best setting, v + 2 the row of setting v.
        row: u64,
        /// What is wrong with that record.
        reason: Reason,
    },
}

/// What a check with a demand says of a certificate, or of a share of its rows.
#[derive(Debug, Drop)]
pub enum Judgement {
    /// All that was looked at is right. In a check of all rows the certificate then meets the
    /// demand.
    Accepted {
        /// What the certificate says of all settings.
        answer: Answer,
        /// The first `keep` of the ranking; empty without `keep`, and if no setting reaches the
        /// floor.
        ranking: Ranking,
    },
    /// The certificate does not meet the demand.
    Rejected {
        /// The record, from 0: 0 is the count, 1 the answer, v + 2 the row of setting v.
        row: u64,
        /// What is wrong with that record.
        reason: Reason,
    },
}
