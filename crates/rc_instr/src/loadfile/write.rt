//! Writing load files.
ghost use Rattle.std.specs.Prelude.{◌≡◌, ◌<◌, ◌++◌, OnOk, OnErr, All, codes, flat_map};
ghost use Rattle.std.specs.Fmt.{decimal};
ghost use Rattle.rc_instr.specs.Warrior.{IsBelow, Fits};
ghost use Rattle.rc_instr.specs.Words.{opcode_text, modifier_text};
ghost use Rattle.rc_instr.specs.LoadText.{mode_text, number_text, operand_text, line_text, start_text, load_text};
ghost use Rattle.rc_instr.specs.Appending.{AppendsText};

use crate::instruction::{Instruction, Mode, Modifier, Opcode};
use crate::memory::OutOfMemory;
use crate::rules::Rules;
use crate::warrior::Warrior;
use crate::words::{modifier_word, opcode_word};
use itoa::Buffer;
use std::alloc::Global;

/// Appends the load file of `warrior`, which must fit the rules, to `out`.
///
/// Fails only if out of memory, and then leaves `out` as it was.
#[tactic(auto, using(crate::proofs::Appends::cut_back))]
pub fn write_loadfile(
    alloc: Global,
    warrior: &Warrior,
    rules: &Rules,
    out: &mut Vec<u8>,
) -> Result<(), OutOfMemory>
    requires { Fits rules.now warrior.now }
    ensures ok { OnOk result (out.new.items ≡ out.old.items ++ load_text rules.now.core warrior.now) }
    ensures err { OnErr result (out.new.items ≡ out.old.items) }
{
    // `out` grows by its own allocator. `alloc` says in the signature that this call allocates.
    let _ = alloc;
    let length = out.len();
    let written = append_warrior(out, rules.core(), warrior);
    if written.is_err() {
        out.truncate(length);
    }
    written
}

fn mode_sign(mode: Mode) -> &'static [u8]
    ensures { result.now ≡ mode_text mode }
{
    match mode {
        Mode::Immediate => b"#",
        Mode::Direct => b"$",
        Mode::AIndirect => b"*",
        Mode::BIndirect => b"@",
        Mode::APredecrement => b"{",
        Mode::BPredecrement => b"<",
        Mode::APostincrement => b"}",
        Mode::BPostincrement => b">",
    }
}

#[tactic(auto, using(crate::proofs::Appends::appends))]
fn append(out: &mut Vec<u8>, bytes: &[u8]) -> Result<(), OutOfMemory>
    ensures { AppendsText result out.old.items out.new.items bytes.now }
{
    out.extend_from_slice(bytes)?;
    Ok(())
}

fn append_decimal(out: &mut Vec<u8>, number: u32) -> Result<(), OutOfMemory>
    ensures { AppendsText result out.old.items out.new.items (decimal number) }
{
    append(out, Buffer::new().format(number).as_bytes())
}

// Appends an A-number or B-number, with its sign.
#[tactic(auto, using(crate::proofs::Appends::appends), unfolding(crate::specs::LoadText::number_text))]
fn append_number(out: &mut Vec<u8>, core: u32, number: u16) -> Result<(), OutOfMemory>
    requires { number < core }
    ensures { AppendsText result out.old.items out.new.items (number_text core number) }
{
    let number = u32::from(number);
    if 2 * number <= core {
        return append_decimal(out, number);
    }
    append(out, b"-")?;
    append_decimal(out, core - number)
}

#[tactic(auto, using(crate::proofs::Appends::appends), unfolding(crate::specs::LoadText::operand_text))]
fn append_operand(out: &mut Vec<u8>, core: u32, mode: Mode, number: u16) -> Result<(), OutOfMemory>
    requires { number < core }
    ensures { AppendsText result out.old.items out.new.items (operand_text core mode number) }
{
    append(out, mode_sign(mode))?;
    append_number(out, core, number)
}

// Appends the opcode, dot, modifier and space.
#[tactic(auto, using(crate::proofs::Appends::appends))]
fn append_head(out: &mut Vec<u8>, opcode: Opcode, modifier: Modifier) -> Result<(), OutOfMemory>
    ensures { AppendsText result out.old.items out.new.items (opcode_text opcode ++ codes "." ++ modifier_text modifier ++ codes " ") }
{
    append(out, opcode_word(opcode))?;
    append(out, b".")?;
    append(out, modifier_word(modifier))?;
    append(out, b" ")
}

#[tactic(auto, using(crate::proofs::Appends::appends), unfolding(crate::specs::LoadText::line_text))]
fn append_line(out: &mut Vec<u8>, core: u32, instruction: &Instruction) -> Result<(), OutOfMemory>
    requires { IsBelow core instruction.now }
    ensures { AppendsText result out.old.items out.new.items (line_text core instruction.now) }
{
    append_head(out, instruction.opcode, instruction.modifier)?;
    append_operand(out, core, instruction.a_mode, instruction.a_number)?;
    append(out, b", ")?;
    append_operand(out, core, instruction.b_mode, instruction.b_number)?;
    append(out, b"\n")
}

#[tactic(auto, using(crate::proofs::Appends::appends), unfolding(crate::specs::LoadText::start_text))]
fn append_start(out: &mut Vec<u8>, start: u32) -> Result<(), OutOfMemory>
    ensures { AppendsText result out.old.items out.new.items (start_text start) }
{
    append(out, b"ORG ")?;
    append_decimal(out, start)?;
    append(out, b"\n")
}

#[tactic(auto, using(crate::proofs::Appends::appends))]
fn append_lines(out: &mut Vec<u8>, core: u32, code: &[Instruction]) -> Result<(), OutOfMemory>
    requires { All (IsBelow core) code.now }
    ensures { AppendsText result out.old.items out.new.items (flat_map (line_text core) code.now) }
{
    for instruction in code {
        append_line(out, core, instruction)?;
    }
    Ok(())
}

#[tactic(auto, using(crate::proofs::Appends::appends), unfolding(crate::specs::LoadText::load_text))]
fn append_warrior(out: &mut Vec<u8>, core: u32, warrior: &Warrior) -> Result<(), OutOfMemory>
    requires { All (IsBelow core) warrior.now.code }
    ensures { AppendsText result out.old.items out.new.items (load_text core warrior.now) }
{
    append_start(out, warrior.start())?;
    append_lines(out, core, warrior.code())
}
