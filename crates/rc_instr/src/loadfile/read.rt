//! Reading load files.
ghost use Rattle.std.specs.Prelude.{◌<◌, IfOk};
ghost use Rattle.rc_instr.specs.Warrior.{Fits};
ghost use Rattle.rc_instr.specs.Results.{Returns};
ghost use Rattle.rc_instr.specs.LoadMeaning.{IsOutOfMemory, code_of, load_meaning};

use crate::instruction::Instruction;
use crate::loadfile::fault::LoadFault;
use crate::loadfile::line::{line_at, start_at};
use crate::rules::Rules;
use crate::warrior::Warrior;
use std::alloc::Global;

/// Reads a load file as a warrior under the rules.
///
/// Only the one spelling is read, and nothing may follow the last line.
///
/// # Errors
///
/// - `Malformed`: the first line that is not of the form, from 1. An empty text is malformed at
///   line 1.
/// - `Warrior`: every line is well formed, but the warrior breaks the rules.
/// - `OutOfMemory`: an allocation failed.
#[tactic(auto, using(crate::proofs::CheckSteps::warrior_passes), unfolding(crate::specs::LoadMeaning::load_meaning))]
pub fn read_loadfile(alloc: Global, bytes: &[u8], rules: &Rules) -> Result<Warrior, LoadFault>
    ensures meaning { Returns IsOutOfMemory (λ w. w) result (load_meaning rules.now bytes.now) }
    ensures fits { IfOk result (Fits rules.now) }
{
    let (start, lines) = match start_at(bytes) {
        Some(found) => found,
        None => return Err(LoadFault::Malformed { line: 1 }),
    };
    let code = read_code(alloc, rules.core() as u16, lines)?;
    match Warrior::try_new(code, u32::from(start), rules) {
        Ok(warrior) => Ok(warrior),
        Err(refused) => Err(LoadFault::Warrior(refused.error)),
    }
}

// Reads the lines of code. They begin with line 2, after the line of the start.
#[tactic(auto, unfolding(crate::specs::LoadMeaning::code_of))]
fn read_code(alloc: Global, core: u16, bytes: &[u8]) -> Result<Vec<Instruction>, LoadFault>
    requires { 0 < core }
    ensures { Returns IsOutOfMemory (λ v. v.items) result (code_of core bytes.now) }
{
    let mut code = Vec::new(alloc);
    let mut rest = bytes;
    let mut line = 2u64;
    while !rest.is_empty() {
        match line_at(core, rest) {
            Some((instruction, others)) => {
                code.push(instruction)?;
                rest = others;
                line += 1;
            }
            None => return Err(LoadFault::Malformed { line }),
        }
    }
    Ok(code)
}
