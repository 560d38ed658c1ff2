//! From the tokens of a line of code to its instruction.
ghost use Rattle.std.specs.Prelude.{◌≡◌};
ghost use Rattle.rc_asm.specs.Instructions.{instruction_of_parts, instruction_of_form, instruction_at};
ghost use Rattle.rc_asm.specs.Seen.{seen_names, seen_form};

use crate::fault::AsmKind;
use crate::form::{Form, form_of};
use crate::labels::LineAddress;
use crate::operand::{Operand, operand_at};
use crate::scope::Context;
use rc_instr::{Instruction, default_modifier};
use rc_text::{EvalFault, Token};

// Reads the instruction that `tokens` spell, at `address`.
#[tactic(auto, unfolding(crate::specs::Instructions::instruction_at))]
pub(crate) fn instruction_at(
    source: &[u8],
    context: &Context,
    address: LineAddress,
    tokens: &[Token],
) -> Result<Instruction, AsmKind>
    ensures { result ≡ instruction_at source.now (seen_names context.now) address.number tokens.now }
{
    let form = form_of(source, tokens)?;
    let instruction = instruction_of_form(source, context, address, &form)?;
    Ok(instruction)
}

#[tactic(auto, unfolding(crate::specs::Instructions::instruction_of_parts))]
fn instruction_of_parts(form: &Form, a: Operand, b: Operand) -> Instruction
    ensures { result ≡ instruction_of_parts (seen_form form.now) a b }
{
    Instruction {
        opcode: form.opcode,
        modifier: match form.modifier {
            Some(modifier) => modifier,
            None => default_modifier(form.opcode, a.mode, b.mode),
        },
        a_mode: a.mode,
        a_number: a.number,
        b_mode: b.mode,
        b_number: b.number,
    }
}

// Evaluates the A-operand first: its fault comes before the B-operand's.
#[tactic(auto, unfolding(crate::specs::Instructions::instruction_of_form))]
fn instruction_of_form(
    source: &[u8],
    context: &Context,
    address: LineAddress,
    form: &Form,
) -> Result<Instruction, EvalFault>
    ensures { result ≡ instruction_of_form source.now (seen_names context.now) address.number (seen_form form.now) }
{
    let a = operand_at(source, context, address, form.operands.a)?;
    let b = operand_at(source, context, address, form.operands.b)?;
    Ok(instruction_of_parts(form, a, b))
}
