//! The assembler: expansion, the values of the lines, their forms if that fails, and the warrior.
ghost use Rattle.std.specs.Prelude.{IfOk, ◌≡◌, ◌↔◌, ℕ, pos, ◌<◌, ◌-◌, ◌^◌};
ghost use Rattle.rc_expand.specs.Names.{table_in};
ghost use Rattle.rc_instr.specs.Warrior.{Fits};
ghost use Rattle.rc_asm.specs.Faults.{Returns};
ghost use Rattle.rc_asm.specs.Lines.{start_value};
ghost use Rattle.rc_asm.specs.Names.{names_of};
ghost use Rattle.rc_asm.specs.Assembly.{warrior_of_reading, warrior_of_lines, outcome_of_lines, outcome_of};
ghost use Rattle.rc_asm.specs.Seen.{seen_names, seen_reading};

use crate::fault::{AsmFault, AsmKind, at_line, of_expansion, of_warrior};
use crate::forms::check_forms;
use crate::labels::Labels;
use crate::limits;
use crate::reading::{Reading, read_lines};
use crate::scope::Context;
use crate::starts::Starts;
use rc_expand::{Constants, GivenNames, Line, expand};
use rc_instr::{Rules, Warrior};
use std::alloc::Global;

/// Assembles a Redcode text to a warrior under `rules`, with `constants` as further names.
///
/// The text is expanded first (`rc_expand::expand`). Then each line of code is an instruction: an
/// opcode, a modifier after a dot or the default one (`rc_instr::default_modifier`), and operands
/// separated by a comma. DAT and NOP may have no operand; a single operand is the B-operand of DAT,
/// and the A-operand of JMP, SPL and NOP; a missing operand is `$0`. An operand is a mode (`$` if
/// none is written) and an expression, whose value modulo the core size is the number.
///
/// The address of a line is the number of lines of code before it. CURLINE stands for the address
/// of its line, and a label in an operand for its own address minus that of the line.
///
/// The start is the value of the last ORG (1994 draft); without ORG, the value after END (pMARS);
/// without either, 0. Every `;assert` must have a value other than 0 (pMARS). In these expressions
/// a label stands for its address.
///
/// # Errors
///
/// The first of these that applies; among lines, that of the first line:
///
/// - `TextTooLong`, at line 0: more than 65536 bytes.
/// - `Expand`: the text has no expansion.
/// - `UnknownOpcode`: a line of code without an opcode, or a dot without a modifier. `ExtraText`:
///   two commas. `MissingOperand`: too few operands, an empty one beside a comma, or ORG without an
///   expression.
/// - `Value`: an expression without a value. `AssertFailed`: a `;assert` with the value 0.
/// - `Warrior`, at line 0: no instruction, more than the rules allow, or a start outside the code.
///
/// `OutOfMemory`, at line 0, can come at any point.
#[tactic(auto, unfolding(crate::specs::Assembly::outcome_of))]
pub fn assemble(
    alloc: Global,
    source: &[u8],
    constants: &Constants,
    rules: &Rules,
) -> Result<Warrior, AsmFault>
    ensures outcome { Returns (λ w. w) result (outcome_of source.now (table_in constants.now) rules.now) }
    ensures fits { IfOk result (Fits rules.now) }
{
    if source.len() > limits::MOST_BYTES {
        return Err(at_line(0, AsmKind::TextTooLong));
    }
    match expand(alloc, source, constants, rules) {
        Ok(expanded) => assemble_lines(alloc, source, constants, rules, expanded.lines.as_slice()),
        Err(fault) => Err(of_expansion(fault)),
    }
}

// Assembles the expanded lines. Checks forms only after a fault: a malformed line always gives one,
// so each line of a text without faults is parsed once.
fn assemble_lines(
    alloc: Global,
    source: &[u8],
    constants: &Constants,
    rules: &Rules,
    lines: &[Line],
) -> Result<Warrior, AsmFault>
    ensures outcome { Returns (λ w. w) result (outcome_of_lines source.now (names_of source.now (table_in constants.now) rules.now lines.now) lines.now) }
    ensures fits { IfOk result (Fits rules.now) }
{
    let labels = Labels::of_lines(alloc, source, lines)?;
    let given = GivenNames { constants, rules };
    let context = Context {
        given: &given,
        labels: &labels,
    };
    match warrior_of_lines(alloc, source, &context, lines) {
        Ok(warrior) => Ok(warrior),
        Err(found) => match check_forms(source, lines) {
            Ok(()) => Err(found),
            Err(malformed) => Err(malformed),
        },
    }
}

// Makes the warrior of lines. Returns the fault of the first line that has one, else that of the
// warrior. It may be the fault of a malformed line: the caller looks for the first such line.
fn warrior_of_lines(
    alloc: Global,
    source: &[u8],
    context: &Context,
    lines: &[Line],
) -> Result<Warrior, AsmFault>
    ensures outcome { Returns (λ w. w) result (warrior_of_lines source.now (seen_names context.now) lines.now) }
    ensures fits { IfOk result (Fits context.now.given.now.rules.now) }
{
    let reading = read_lines(alloc, source, context, lines)?;
    warrior_of_reading(reading, context.given.rules)
}

// Makes the warrior of what was read.
fn warrior_of_reading(reading: Reading, rules: &Rules) -> Result<Warrior, AsmFault>
    ensures outcome { Returns (λ w. w) result (warrior_of_reading rules.now (seen_reading reading)) }
    ensures fits { IfOk result (Fits rules.now) }
{
    prove!(0 < rules.length());
    let Reading { code, starts } = reading;
    match Warrior::try_new(code, start_number(&starts), rules) {
        Ok(warrior) => Ok(warrior),
        Err(refused) => Err(of_warrior(refused.error)),
    }
}

// A start below 0 or above u32 becomes u32::MAX: no code is that long, so `try_new` says BadStart.
fn start_number(starts: &Starts) -> u32
    ensures { (k : ℕ) → k < 2 ^ 32 - 1 → (start_value starts.now ≡ pos k) ↔ (result ≡ k) }
{
    match u32::try_from(starts.value()) {
        Ok(start) => start,
        Err(_) => u32::MAX,
    }
}
