//! What runs are given: texts, and rules that are not yet checked.
ghost use Rattle.std.specs.Prelude.{◌≡◌, IfOk};
ghost use Rattle.rc_instr.specs.Checks.{rules_of};
ghost use Rattle.tune_runs.specs.Given.{rules_given};

use mars_core::Side;
use rc_instr::{RawRules, Rules, RulesError};
use tune_problem::Part;

/// Two Redcode texts, the rules of their fight, and how it begins.
#[derive(Clone, Copy)]
pub struct DuelTexts<'a> {
    /// The text of the candidate, which is loaded at address 0.
    pub candidate: &'a [u8],
    /// The text of the opponent.
    pub opponent: &'a [u8],
    /// The rules of the fight.
    pub rules: &'a Rules,
    /// The address at which the opponent is loaded.
    pub position: u32,
    /// Who moves first.
    pub first: Side,
}

/// The texts of a tuning, its rules, and the part of the template's settings that it searches.
#[derive(Clone, Copy)]
pub struct TuneTexts<'a> {
    /// A Redcode text with `;@tune` lines.
    pub template: &'a [u8],
    /// The Redcode texts of the opponents, at most 64.
    pub opponents: &'a [Vec<u8>],
    /// A table of fights.
    pub schedule: &'a [u8],
    /// The rules of all fights.
    pub rules: &'a Rules,
    /// The part of the settings that is searched.
    pub part: Part,
}

/// Checks raw rules.
///
/// # Errors
///
/// The first that applies: `Core` unless the core size is 8 to 65535, `Cycles` unless they are 1 to
/// 1000000, `Tasks` unless they are 1 to 8000, `Length` unless it is 1 to 200, `Distance` unless it
/// is from the length to half the core size.
#[tactic(auto, using(rc_instr::proofs::CheckSteps::rules_kept))]
pub fn rules_of(raw: RawRules) -> Result<Rules, RulesError>
    ensures result { result ≡ rules_of (rules_given raw) }
    ensures rules { IfOk result (λ r. r ≡ rules_given raw) }
{
    Rules::try_new(raw.core, raw.cycles, raw.tasks, raw.length, raw.distance)
}
