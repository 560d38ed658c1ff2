//! Checks certificates.
ghost use Rattle.std.specs.Prelude.{◌≡◌, IfOk};
ghost use Rattle.tables.specs.Records.{records_of};
ghost use Rattle.tune_problem.specs.Parts.{whole};
ghost use Rattle.tune_problem.specs.Problem.{problem_of};
ghost use Rattle.tune_cert.specs.Checks.{is_version_of, has_row_count};
ghost use Rattle.tune_cert.specs.Verdict.{IsVerdictOf};
ghost use Rattle.tune_cert.specs.Judgement.{is_answered, judgement_on, judgement_of, judged, IsOfSettings};
ghost use Rattle.tune_cert.specs.declared.verdict.Verdict.{Verdict as VerdictView};
ghost use Rattle.tune_cert.specs.Shares.{share_part};

use crate::claim::Claim;
use crate::demand::Demand;
use crate::fault::{CheckFault, ReadFault};
use crate::ranking::ranking_for;
use crate::read::read_statement;
use crate::row_checks::is_best_row;
use crate::share::Share;
use crate::share_rows::check_rows;
use crate::verdict::{Judgement, Reason, Verdict};
use mars_core::{Arena, PackedCells};
use std::alloc::Global;
use tune_problem::{Answer, Inputs, Silent, Statement, Watcher, cert_version};

/// Checks the bytes of a certificate against the inputs of a tuning.
///
/// Accepts them exactly if they spell a valid certificate; its best setting is then the optimum.
/// Else the verdict names the first record at which a check fails, and why. The checks run in this
/// order:
///
/// 1. the form of each record (`Malformed`),
/// 2. the version (`Version`),
/// 3. the number of rows (`RowCount`),
/// 4. the row of the best setting (`BestRow`),
/// 5. the refused and the cap rows in order (`NotRefused`; `RepeatedFight`, then `WrongPoints`,
///    then `CapTooHigh`),
/// 6. the rows that refer to other settings in order (`NotSame`, then `CapTooHigh`).
///
/// Plays each fight that a cap row lists at most once, and none after the first row that is wrong.
/// Assembles each setting at most twice. Reserves nothing for what the certificate merely claims.
///
/// # Errors
///
/// `OutOfMemory` if an allocation failed.
pub fn check(alloc: Global, inputs: &Inputs, bytes: &[u8]) -> Result<Verdict, CheckFault>
    // The verdict is that on the certificate that the bytes spell, or Malformed. `laws` has what it
    // promises: what it says holds, every check before the one that fails holds, an accepted
    // certificate names the optimum and its total, and a valid one is accepted.
    ensures verdict { IfOk result (IsVerdictOf (problem_of inputs.now) whole (records_of bytes.now)) }
{
    let demand = Demand::none();
    let judgement = check_for(alloc, inputs, demand, Share::whole(), bytes, &mut Silent)?;
    Ok(verdict_of(&judgement))
}

/// Checks the rows of the share's settings as `check` does, and whether the certificate meets a
/// demand. Tells `watcher` how far it is after each fight and each row that is right.
///
/// With `floor` a certificate may also say that no setting reaches a floor. This floor must be the
/// one that is asked for (else `BestRow`), and no cap may reach it (else `CapTooHigh`). All other
/// checks are the same.
///
/// With `keep` a certificate that names a best setting has to show the first K of the ranking too.
/// The settings of which every fight is listed, by their own rows or by those to which they refer,
/// are ranked by their listed totals. The cap of any other setting that assembles must not contend
/// with the first `keep` of these (else `CapTooHigh`, as the last reason of its row). So a
/// certificate with a best setting that `check` rejects is rejected at the same record, or at one
/// that is checked before it.
///
/// The row to which another one refers may be of another share, and is taken as listed: its fights
/// must exist and rise, and its cap by the listed points must not beat the best. All shares accept
/// a certificate exactly if the whole does, each with the same answer and ranking. Reads the whole
/// certificate.
///
/// `check` is this check of all rows without a demand. Takes no more memory than `check` and the
/// ranking.
///
/// # Errors
///
/// `OutOfMemory` if an allocation failed.
pub fn check_for<T: Watcher>(
    alloc: Global,
    inputs: &Inputs,
    demand: Demand,
    share: Share,
    bytes: &[u8],
    watcher: &mut T,
) -> Result<Judgement, CheckFault>
    // The judgement is that of the share on the statement that the bytes spell, or Malformed.
    ensures judgement { IfOk result (λ j. j ≡ judgement_of (problem_of inputs.now) demand (share_part share) (records_of bytes.now)) }
    ensures settings { IfOk result (IsOfSettings (problem_of inputs.now).count) }
{
    match read_statement(alloc, demand.floor.is_some(), bytes) {
        Ok(statement) => check_statement(alloc, inputs, demand, share, statement, watcher),
        Err(ReadFault::Malformed { row }) => Ok(rejected(row, Reason::Malformed)),
        Err(ReadFault::OutOfMemory) => Err(CheckFault::OutOfMemory),
    }
}

// Returns a judgement as a verdict. One without a demand names no floor.
fn verdict_of(judgement: &Judgement) -> Verdict
    ensures { (v : VerdictView) → judgement.now ≡ judged v → result ≡ v }
{
    match judgement {
        Judgement::Accepted { answer, .. } => match answer {
            Answer::Best(best) => Verdict::Accepted {
                best: best.vector,
                total: best.total,
            },
            Answer::NoneFrom(_) => Verdict::Rejected {
                row: 1,
                reason: Reason::BestRow,
            },
        },
        Judgement::Rejected { row, reason } => Verdict::Rejected {
            row: *row,
            reason: *reason,
        },
    }
}

// Checks a statement whose records have the right form.
fn check_statement<T: Watcher>(
    alloc: Global,
    inputs: &Inputs,
    demand: Demand,
    share: Share,
    statement: Statement,
    watcher: &mut T,
) -> Result<Judgement, CheckFault>
    ensures judgement { IfOk result (λ j. j ≡ judgement_on (problem_of inputs.now) demand (share_part share) statement) }
    ensures settings { IfOk result (IsOfSettings (problem_of inputs.now).count) }
{
    let answer = statement.answer;
    let aim = demand.aim_for(answer);
    if !is_version_of(inputs, &statement) {
        return Ok(rejected(0, Reason::Version));
    }
    if !has_row_count(inputs, &statement) {
        return Ok(rejected(0, Reason::RowCount));
    }
    if !is_answered(inputs, demand, &statement) {
        return Ok(rejected(1, Reason::BestRow));
    }
    let ranking = ranking_for(alloc, inputs, &statement.rows, aim)?;
    let claim = Claim {
        inputs,
        statement: &statement,
        aim,
        ranking: &ranking,
    };
    let mut arena = Arena::<PackedCells>::try_new(alloc, inputs.rules())?;
    match check_rows(alloc, &mut arena, &claim, share, watcher)? {
        Some((index, reason)) => Ok(rejected(index, reason)),
        None => Ok(Judgement::Accepted { answer, ranking }),
    }
}

// Returns whether the record of the answer is right: a best setting has its row, and a floor is the
// one that is asked for.
fn is_answered(inputs: &Inputs, demand: Demand, statement: &Statement) -> bool
    ensures { result ≡ is_answered (problem_of inputs.now) demand statement.now.rows statement.now.answer }
{
    match statement.answer {
        Answer::Best(best) => is_best_row(inputs, &statement.rows, best),
        Answer::NoneFrom(floor) => match demand.floor {
            Some(asked) => floor == asked,
            None => false,
        },
    }
}

// Returns whether the version is one for the schedule: version 1 is for schedules in which every
// fight counts once.
fn is_version_of(inputs: &Inputs, statement: &Statement) -> bool
    ensures { result ≡ is_version_of (problem_of inputs.now) statement.now.version }
{
    if statement.version == 1 {
        return cert_version(inputs) == 1;
    }
    true
}

// Returns whether there is a row for each setting, and this count is claimed.
fn has_row_count(inputs: &Inputs, statement: &Statement) -> bool
    ensures { result ≡ has_row_count (problem_of inputs.now) statement.now }
{
    let count = inputs.count();
    statement.count == count && statement.rows.as_slice().len() == count as usize
}

fn rejected(index: u64, reason: Reason) -> Judgement
    ensures { result ≡ Judgement.Rejected index reason }
{
    Judgement::Rejected { row: index, reason }
}
