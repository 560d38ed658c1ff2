//! Readers for the lines of a load file. Each returns what it read and the rest of the bytes.
ghost use Rattle.std.specs.Prelude.{◌≡◌, Some, None, MatchOption};
ghost use Rattle.rc_instr.specs.LoadReaders.{head_at, comma_at, operand_at, line_at, start_at};

use crate::bytes::after;
use crate::instruction::{Instruction, Mode, Modifier, Opcode};
use crate::loadfile::front::{mode_at, modifier_at, opcode_at};
use crate::loadfile::number::{number_at, short_number_at};

// Reads one line of code.
#[tactic(auto, unfolding(crate::specs::LoadReaders::line_at))]
pub(crate) fn line_at(core: u16, bytes: &[u8]) -> Option<(Instruction, &[u8])>
    ensures { MatchOption result (line_at core bytes.now ≡ None) (λ x. line_at core bytes.now ≡ Some (x.0, x.1.now)) }
{
    let (opcode, modifier, bytes) = head_at(bytes)?;
    let (a_mode, a_number, bytes) = operand_at(core, bytes)?;
    let bytes = comma_at(bytes)?;
    let (b_mode, b_number, bytes) = operand_at(core, bytes)?;
    let bytes = after(b'\n', bytes)?;
    let instruction = Instruction {
        opcode,
        modifier,
        a_mode,
        a_number,
        b_mode,
        b_number,
    };
    Some((instruction, bytes))
}

// Reads the first line, `ORG n` with `n` up to 65535.
#[tactic(auto, unfolding(crate::specs::LoadReaders::start_at))]
pub(crate) fn start_at(bytes: &[u8]) -> Option<(u16, &[u8])>
    ensures { MatchOption result (start_at bytes.now ≡ None) (λ x. start_at bytes.now ≡ Some (x.0, x.1.now)) }
{
    let bytes = after(b'O', bytes)?;
    let bytes = after(b'R', bytes)?;
    let bytes = after(b'G', bytes)?;
    let bytes = after(b' ', bytes)?;
    let (start, bytes) = short_number_at(bytes)?;
    let bytes = after(b'\n', bytes)?;
    Some((start, bytes))
}

// Reads the opcode, dot, modifier and space.
#[tactic(auto, unfolding(crate::specs::LoadReaders::head_at))]
fn head_at(bytes: &[u8]) -> Option<(Opcode, Modifier, &[u8])>
    ensures { MatchOption result (head_at bytes.now ≡ None) (λ x. head_at bytes.now ≡ Some ((x.0, x.1), x.2.now)) }
{
    let (opcode, bytes) = opcode_at(bytes)?;
    let bytes = after(b'.', bytes)?;
    let (modifier, bytes) = modifier_at(bytes)?;
    Some((opcode, modifier, bytes))
}

// Reads the comma and space between operands.
#[tactic(auto, unfolding(crate::specs::LoadReaders::comma_at))]
fn comma_at(bytes: &[u8]) -> Option<&[u8]>
    ensures { MatchOption result (comma_at bytes.now ≡ None) (λ rest. comma_at bytes.now ≡ Some (tt, rest.now)) }
{
    let bytes = after(b',', bytes)?;
    let bytes = after(b' ', bytes)?;
    Some(bytes)
}

#[tactic(auto, unfolding(crate::specs::LoadReaders::operand_at))]
fn operand_at(core: u16, bytes: &[u8]) -> Option<(Mode, u16, &[u8])>
    ensures { MatchOption result (operand_at core bytes.now ≡ None) (λ x. operand_at core bytes.now ≡ Some ((x.0, x.1), x.2.now)) }
{
    let (mode, bytes) = mode_at(bytes)?;
    let (number, bytes) = number_at(core, bytes)?;
    Some((mode, number, bytes))
}
