//! An assembly: from a Redcode text to a load file.
ghost use Rattle.std.specs.Prelude.{◌≡◌, [], false, IfOk};
ghost use Rattle.rc_instr.specs.Warrior.{Fits};
ghost use Rattle.rc_instr.specs.LoadText.{load_text};
ghost use Rattle.rc_asm.specs.Faults.{Returns as Assembled};
ghost use Rattle.rc_asm.specs.Assembly.{outcome_of};
ghost use Rattle.tune_runs.specs.AsmRun.{warrior_of, asm_output};
ghost use Rattle.tune_runs.specs.Runs.{Returns, IsRun};

use crate::fault::RunFault;
use rc_asm::{AsmFault, assemble};
use rc_expand::Constants;
use rc_instr::{OutOfMemory, Outlet, Rules, Warrior, write_loadfile};
use std::alloc::Global;
use std::io::Write;

/// Assembles a Redcode text under `rules`, and writes the load file of its warrior.
///
/// The outlet must not have failed.
///
/// # Errors
///
/// `Asm` if the text does not assemble, with the first fault and its line, from 1, or 0 if the
/// fault has no line. Nothing is written then. `Write` if the writer failed: an unknown part of the
/// load file may be out. `OutOfMemory` if an allocation failed: nothing is written.
pub fn asm_run<W: Write>(
    alloc: Global,
    source: &[u8],
    rules: &Rules,
    out: &mut Outlet<W>,
) -> Result<(), RunFault>
    requires { out.old.failed ≡ false }

    ensures run { IsRun (asm_output source.now rules.now) result out.old out.new }
{
    let text = asm_text(alloc, source, rules)?;
    out.write_all(text.as_slice())?;
    Ok(())
}

#[tactic(auto, unfolding(crate::specs::AsmRun::asm_output))]
fn asm_text(alloc: Global, source: &[u8], rules: &Rules) -> Result<Vec<u8>, RunFault>
    ensures { Returns (λ file. (tt, file.items)) result (asm_output source.now rules.now) }
{
    let warrior = warrior_of(alloc, source, rules)?;
    Ok(loadfile_of(alloc, &warrior, rules)?)
}

/// Assembles a text that has no open constants.
///
/// # Errors
///
/// `Asm` if the text does not assemble, with the first fault and its line, from 1, or 0 if the
/// fault has no line. `OutOfMemory` if an allocation failed.
pub fn warrior_of(alloc: Global, source: &[u8], rules: &Rules) -> Result<Warrior, RunFault>
    ensures warrior { Returns (λ w. w) result (warrior_of source.now rules.now) }
    ensures fits { IfOk result (Fits rules.now) }
{
    Ok(assembled(alloc, source, rules)?)
}

// Does what `warrior_of` does, and returns the assembler's own fault.
pub(crate) fn assembled(alloc: Global, source: &[u8], rules: &Rules) -> Result<Warrior, AsmFault>
    ensures warrior { Assembled (λ w. w) result (outcome_of source.now [] rules.now) }
    ensures fits { IfOk result (Fits rules.now) }
{
    let names: [Vec<u8>; 0] = [];
    let values: [i64; 0] = [];
    let constants = Constants {
        names: &names,
        values: &values,
    };
    assemble(alloc, source, &constants, rules)
}

pub(crate) fn loadfile_of(
    alloc: Global,
    warrior: &Warrior,
    rules: &Rules,
) -> Result<Vec<u8>, OutOfMemory>
    requires { Fits rules.now warrior.now }
    ensures { IfOk result (λ file. file.items ≡ load_text rules.now.core warrior.now) }
{
    let mut file = Vec::new(alloc);
    write_loadfile(alloc, warrior, rules, &mut file)?;
    Ok(file)
}
