//! Reads the texts of a tuning into its inputs.
ghost use Rattle.std.specs.Prelude.{◌≡◌, ◌≤◌, [], length, map, All, IfOk};
ghost use Rattle.rc_instr.specs.Results.{with_fault};
ghost use Rattle.rc_instr.specs.Warrior.{Fits};
ghost use Rattle.rc_asm.specs.Assembly.{outcome_of};
ghost use Rattle.tune_template.specs.Instances.{template_of};
ghost use Rattle.tune_problem.specs.Limits.{MOST_OPPONENTS};
ghost use Rattle.tune_runs.specs.Runs.{opponent_fault, template_fault, Returns};
ghost use Rattle.tune_runs.specs.TuneRun.{opponents_from, meaning_of};
ghost use Rattle.tune_runs.specs.Given.{texts_given};

use crate::asm::assembled;
use crate::fault::{RunFault, opponent_fault};
use crate::given::TuneTexts;
use mars_fight::Schedule;
use rc_instr::{Rules, Warrior};
use std::alloc::Global;
use tune_problem::{Inputs, limits};
use tune_template::Template;

/// Reads the inputs of a tuning of one part of a template's settings.
///
/// # Errors
///
/// The first that applies: `TooManyOpponents` for more than 64, `Template` with the fault of its
/// text, `Opponent` with the index of the first that does not assemble and its fault, `Schedule`
/// with the fault of its text, `Part` if there is no such part. `OutOfMemory` if an allocation
/// failed.
#[tactic(auto, unfolding(crate::specs::TuneRun::meaning_of))]
pub fn inputs_of(alloc: Global, given: &TuneTexts<'_>) -> Result<Inputs, RunFault>
    ensures { Returns (λ i. i) result (meaning_of (texts_given given.now)) }
{
    if given.opponents.len() > limits::MOST_OPPONENTS {
        return Err(RunFault::TooManyOpponents);
    }
    let template = template_of(alloc, given.template)?;
    let warriors = opponents_of(alloc, given.opponents, given.rules)?;
    let count = given.opponents.len() as u32;
    let schedule = Schedule::read(alloc, given.schedule, count, given.rules)?;
    match Inputs::new(template, warriors, schedule, *given.rules).part(given.part) {
        Some(inputs) => Ok(inputs),
        None => Err(RunFault::Part),
    }
}

/// Reads a template.
///
/// # Errors
///
/// `Template` with the fault of the text. `OutOfMemory` if an allocation failed.
pub fn template_of(alloc: Global, text: &[u8]) -> Result<Template, RunFault>
    ensures { Returns (λ t. t) result (with_fault template_fault (template_of text.now)) }
{
    Ok(Template::read(alloc, text)?)
}

// Assembles the opponent at `index`.
pub(crate) fn opponent_of(
    alloc: Global,
    text: &[u8],
    index: u32,
    rules: &Rules,
) -> Result<Warrior, RunFault>
    ensures warrior { Returns (λ w. w) result (with_fault (opponent_fault index) (outcome_of text.now [] rules.now)) }
    ensures fits { IfOk result (Fits rules.now) }
{
    match assembled(alloc, text, rules) {
        Ok(warrior) => Ok(warrior),
        Err(fault) => Err(opponent_fault(index, fault)),
    }
}

// Assembles the opponents, at most `MOST_OPPONENTS`. Stops at the first that does not assemble.
fn opponents_of(alloc: Global, sources: &[Vec<u8>], rules: &Rules) -> Result<Vec<Warrior>, RunFault>
    requires few { length sources.now ≤ MOST_OPPONENTS }
    ensures warriors { Returns (λ ws. ws.items) result (opponents_from rules.now 0 (map (λ s. s.items) sources.now)) }
    ensures count { IfOk result (λ ws. length ws.items ≡ length sources.now) }
    ensures fit { IfOk result (λ ws. All (Fits rules.now) ws.items) }
{
    let mut warriors = Vec::new(alloc);
    let mut rest = sources;
    while let Some((source, after)) = rest.split_first() {
        let index = warriors.len() as u32;
        let warrior = opponent_of(alloc, source.as_slice(), index, rules)?;
        warriors.push(warrior)?;
        rest = after;
    }
    Ok(warriors)
}
