//! Settings that assemble.
ghost use Rattle.std.specs.Prelude.{◌≡◌, ◌<◌, None, IfOk, IfSome, IfNone};
ghost use Rattle.tune_problem.specs.Problem.{problem_of};
ghost use Rattle.tune_search.specs.State.{IsCandidateAt};

use rc_instr::{OutOfMemory, Warrior, write_loadfile};
use std::alloc::Global;
use tune_problem::{Inputs, setting_warrior};

// A setting that assembles, its warrior, and the warrior's load file.
#[derive(Drop)]
pub(crate) struct Candidate {
    pub(crate) vector: u32,
    pub(crate) warrior: Warrior,
    pub(crate) text: Vec<u8>,
}

// Assembles setting `vector`. Returns `None` if it does not assemble.
pub(crate) fn candidate_at(
    alloc: Global,
    inputs: &Inputs,
    vector: u32,
) -> Result<Option<Candidate>, OutOfMemory>
    requires inside { vector < (problem_of inputs.now).count }
    ensures some { IfOk result (λ o. IfSome o (IsCandidateAt inputs.now vector)) }
    ensures none { IfOk result (λ o. IfNone o ((problem_of inputs.now).warrior vector ≡ None)) }
{
    let Some(warrior) = setting_warrior(alloc, inputs, vector)? else {
        return Ok(None);
    };
    prove!(0 < inputs.rules().core());
    let mut text = Vec::new(alloc);
    write_loadfile(alloc, &warrior, inputs.rules(), &mut text)?;
    Ok(Some(Candidate {
        vector,
        warrior,
        text,
    }))
}
