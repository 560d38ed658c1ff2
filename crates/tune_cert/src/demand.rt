//! The demand of a check.
ghost use Rattle.std.specs.Prelude.{◌≡◌, ◌<◌, ◌^◌, IfSome};
ghost use Rattle.tune_cert.specs.Judgement.{no_demand, aim_for};

use tune_problem::{Aim, Answer};

/// What a check is asked for, beside the optimum. With neither `keep` nor `floor` that is the
/// optimum alone, as by `check`.
#[derive(Clone, Copy, Debug, PartialEq, Eq)]
pub struct Demand {
    /// The rows have to show this many settings, from the first of the ranking on. With `floor`,
    /// only settings that total it or more are ranked. It is not checked. If it is 1 to 1000, the
    /// ranking is that of all settings, by the laws.
    pub keep: Option<u32>,
    /// The floor that a certificate may say no setting reaches. Without `floor`, a certificate has
    /// to name a best setting.
    pub floor: Option<u32>,
}

impl Demand {
    /// Returns the demand of `check`: the optimum alone.
    pub fn none() -> Demand
        ensures { result ≡ no_demand }
    {
        Demand {
            keep: None,
            floor: None,
        }
    }

    // Returns the aim for which the rows have to be exact, if a ranking is asked for and `answer`
    // names a best setting.
    pub(crate) fn aim_for(self, answer: Answer) -> Option<Aim>
        ensures aim { result ≡ aim_for self answer }
        ensures few { IfSome result (λ aim. aim.keep < 2 ^ 32) }
    {
        let Answer::Best(_) = answer else {
            return None;
        };
        let Some(keep) = self.keep else {
            return None;
        };
        Some(Aim {
            keep,
            floor: self.floor.unwrap_or(0),
        })
    }
}
