//! Operands: a mode and an expression become a mode and a number.
ghost use Rattle.std.specs.Prelude.{◌≡◌, option_map};
ghost use Rattle.rc_instr.specs.Rules.{IsCoreSize};
ghost use Rattle.rc_instr.specs.Results.{mapped};
ghost use Rattle.rc_asm.specs.declared.scope.LabelsAs.TheVariants.{Distances};
ghost use Rattle.rc_asm.specs.Names.{value_at};
ghost use Rattle.rc_asm.specs.Instructions.{core_number, operand, operand_at};
ghost use Rattle.rc_asm.specs.Seen.{seen_names};

use crate::labels::LineAddress;
use crate::scope::{Context, LabelsAs, value_at};
use crate::word::mode_in;
use rc_instr::Mode;
use rc_text::{EvalFault, Token};

// An operand as an instruction keeps it. Its number is below the core size.
#[derive(Clone, Copy)]
pub(crate) struct Operand {
    pub(crate) mode: Mode,
    pub(crate) number: u16,
}

// Reads the operand that `part` spells, at `address`. `None` gives `$0`.
#[inline(always)]
#[tactic(auto, unfolding(crate::specs::Instructions::operand_at))]
pub(crate) fn operand_at(
    source: &[u8],
    context: &Context,
    address: LineAddress,
    part: Option<&[Token]>,
) -> Result<Operand, EvalFault>
    ensures { result ≡ operand_at source.now (seen_names context.now) address.number (option_map (λ p. p.now) part.entry) }
{
    match part {
        None => Ok(Operand {
            mode: Mode::Direct,
            number: 0,
        }),
        Some(tokens) => match tokens {
            [] => Err(EvalFault::Syntax),
            [first, rest @ ..] => match mode_in(first) {
                Some(mode) => with_value(source, context, address, mode, rest),
                None => with_value(source, context, address, Mode::Direct, tokens),
            },
        },
    }
}

// Reduces a value modulo the core size.
#[tactic(auto, unfolding(crate::specs::Instructions::core_number))]
fn core_number(value: i64, core: u32) -> u16
    requires { IsCoreSize core }
    ensures { result ≡ core_number core value }
{
    value.rem_euclid(i64::from(core)) as u16
}

// Evaluates `tokens` as the number of an operand.
#[inline(always)]
fn with_value(
    source: &[u8],
    context: &Context,
    address: LineAddress,
    mode: Mode,
    tokens: &[Token],
) -> Result<Operand, EvalFault>
    ensures { result ≡ mapped (operand context.now.given.now.rules.now.core mode) (value_at source.now (seen_names context.now) address.number Distances tokens.now) }
{
    let value = value_at(source, context, address, LabelsAs::Distances, tokens)?;
    Ok(Operand {
        mode,
        number: core_number(value, context.given.rules.core()),
    })
}
