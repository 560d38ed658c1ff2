//! The modifier of an instruction that is written without one.
ghost use Rattle.std.specs.Prelude.{◌≡◌};
ghost use Rattle.rc_instr.specs.DefaultModifier.{ab_or, b_or, default_modifier_of};

use crate::instruction::{Mode, Modifier, Opcode};

/// Returns the modifier of an instruction that is written without one (1994 draft).
///
/// The draft does not know NOP and SNE: here they go with DAT and SEQ.
///
/// | Opcodes | A-operand immediate | else B-operand immediate | else |
/// |---|---|---|---|
/// | DAT, NOP | F | F | F |
/// | MOV, SEQ, SNE | AB | B | I |
/// | ADD, SUB, MUL, DIV, MOD | AB | B | F |
/// | SLT | AB | B | B |
/// | JMP, JMZ, JMN, DJN, SPL | B | B | B |
#[tactic(auto, unfolding(crate::specs::DefaultModifier::default_modifier_of))]
pub fn default_modifier(opcode: Opcode, a_mode: Mode, b_mode: Mode) -> Modifier
    ensures { result ≡ default_modifier_of opcode a_mode b_mode }
{
    match opcode {
        Opcode::Dat | Opcode::Nop => Modifier::F,
        Opcode::Mov | Opcode::Seq | Opcode::Sne => ab_or(b_or(Modifier::I, b_mode), a_mode),
        Opcode::Add | Opcode::Sub | Opcode::Mul | Opcode::Div | Opcode::Mod => {
            ab_or(b_or(Modifier::F, b_mode), a_mode)
        }
        Opcode::Slt => ab_or(Modifier::B, a_mode),
        Opcode::Jmp | Opcode::Jmz | Opcode::Jmn | Opcode::Djn | Opcode::Spl => Modifier::B,
    }
}

// Returns AB if the A-operand is immediate, else `otherwise`.
fn ab_or(otherwise: Modifier, a_mode: Mode) -> Modifier
    ensures { result ≡ ab_or otherwise a_mode }
{
    match a_mode {
        Mode::Immediate => Modifier::AB,
        _ => otherwise,
    }
}

// Returns B if the B-operand is immediate, else `otherwise`.
fn b_or(otherwise: Modifier, b_mode: Mode) -> Modifier
    ensures { result ≡ b_or otherwise b_mode }
{
    match b_mode {
        Mode::Immediate => Modifier::B,
        _ => otherwise,
    }
}
