//! The warriors of settings to which rows refer, kept so that each is assembled once, and whether
//! two of them are equal.
ghost use Rattle.std.specs.Prelude.{◌≡◌, ◌↔◌, ◌<◌, None, Some, slice_get, replicate, IfOk, OnOk, IsTrue};
ghost use Rattle.tune_problem.specs.Problem.{problem_of};
ghost use Rattle.tune_cert.specs.Checks.{share_warrior};
ghost use Rattle.tune_cert.specs.Steps.{AreAssembled};

use rc_instr::{Instruction, OutOfMemory, Warrior};
use std::alloc::{AllocError, Global};
use tune_problem::{Inputs, setting_warrior};

// Makes a list of `count` times `None`: no warrior is made yet.
pub(crate) fn no_warriors(alloc: Global, count: u32) -> Result<Vec<Option<Warrior>>, AllocError>
    ensures { IfOk result (λ ws. ws.items ≡ replicate count None) }
{
    let mut warriors = Vec::with_capacity(alloc, count as usize)?;
    for _setting in 0..count {
        warriors.push(None)?;
    }
    Ok(warriors)
}

// Returns whether settings `vector` and `other` assemble to equal warriors. Keeps the warrior of
// `other`.
pub(crate) fn share_warrior(
    alloc: Global,
    inputs: &Inputs,
    warriors: &mut Vec<Option<Warrior>>,
    vector: u32,
    other: u32,
) -> Result<bool, OutOfMemory>
    requires vector { vector < (problem_of inputs.now).count }
    requires other { other < (problem_of inputs.now).count }
    requires assembled { AreAssembled (problem_of inputs.now) warriors.old.items }
    ensures shared { IfOk result (λ b. b ≡ share_warrior ((problem_of inputs.now).warrior vector) ((problem_of inputs.now).warrior other)) }
    ensures assembled { AreAssembled (problem_of inputs.now) warriors.new.items }
{
    let Some(own) = setting_warrior(alloc, inputs, vector)? else {
        return Ok(false);
    };
    assemble_once(alloc, inputs, warriors, other)?;
    match &warriors[other as usize] {
        Some(theirs) => Ok(is_same_warrior(&own, theirs)),
        None => Ok(false),
    }
}

// Makes the warrior of setting `vector`, unless `warriors` has it already.
fn assemble_once(
    alloc: Global,
    inputs: &Inputs,
    warriors: &mut Vec<Option<Warrior>>,
    vector: u32,
) -> Result<(), OutOfMemory>
    requires inside { vector < (problem_of inputs.now).count }
    requires assembled { AreAssembled (problem_of inputs.now) warriors.old.items }
    ensures assembled { AreAssembled (problem_of inputs.now) warriors.new.items }
    ensures warrior { OnOk result (slice_get warriors.new.items vector ≡ Some ((problem_of inputs.now).warrior vector)) }
{
    if warriors[vector as usize].is_none() {
        warriors[vector as usize] = setting_warrior(alloc, inputs, vector)?;
    }
    Ok(())
}

fn is_same_warrior(one: &Warrior, other: &Warrior) -> bool
    ensures { IsTrue result ↔ (one.now ≡ other.now) }
{
    one.start() == other.start() && is_same_code(one.code(), other.code())
}

fn is_same_code(one: &[Instruction], other: &[Instruction]) -> bool
    ensures { IsTrue result ↔ (one.now ≡ other.now) }
{
    let mut rest = other;
    for mine in one {
        let Some((theirs, after)) = rest.split_first() else {
            return false;
        };
        if !mine.is_same(theirs) {
            return false;
        }
        rest = after;
    }
    rest.is_empty()
}
