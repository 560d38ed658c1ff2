//! Opcodes, modifiers and modes by number, in the order of their declaration.
ghost use Rattle.std.specs.Prelude.{◌≡◌, ◌<◌};
ghost use Rattle.rc_instr.specs.Instruction.{opcode_number, modifier_number, mode_number};
ghost use Rattle.mars_core.specs.Codes.{opcode_of, modifier_of, mode_of};

use rc_instr::{Mode, Modifier, Opcode};

// A code is 8 times the number of an opcode, plus the number of a modifier.
pub(crate) const CODE_COUNT: u64 = 128;

#[inline]
pub(crate) fn opcode_from(number: u64) -> Opcode
    requires { number < 16 }
    ensures { result ≡ opcode_of number }
{
    match number {
        0 => Opcode::Dat,
        1 => Opcode::Mov,
        2 => Opcode::Add,
        3 => Opcode::Sub,
        4 => Opcode::Mul,
        5 => Opcode::Div,
        6 => Opcode::Mod,
        7 => Opcode::Jmp,
        8 => Opcode::Jmz,
        9 => Opcode::Jmn,
        10 => Opcode::Djn,
        11 => Opcode::Seq,
        12 => Opcode::Sne,
        13 => Opcode::Slt,
        14 => Opcode::Spl,
        _ => Opcode::Nop,
    }
}

#[inline]
pub(crate) fn modifier_from(number: u64) -> Modifier
    requires { number < 8 }
    ensures { result ≡ modifier_of number }
{
    match number {
        0 => Modifier::A,
        1 => Modifier::B,
        2 => Modifier::AB,
        3 => Modifier::BA,
        4 => Modifier::F,
        5 => Modifier::X,
        _ => Modifier::I,
    }
}

#[inline]
pub(crate) fn mode_from(number: u64) -> Mode
    requires { number < 8 }
    ensures { result ≡ mode_of number }
{
    match number {
        0 => Mode::Immediate,
        1 => Mode::Direct,
        2 => Mode::AIndirect,
        3 => Mode::BIndirect,
        4 => Mode::APredecrement,
        5 => Mode::BPredecrement,
        6 => Mode::APostincrement,
        _ => Mode::BPostincrement,
    }
}

#[inline]
pub(crate) fn opcode_code(opcode: Opcode) -> u64
    ensures value { result ≡ opcode_number opcode }
    ensures small { result < 16 }
{
    opcode as u64
}

#[inline]
pub(crate) fn modifier_code(modifier: Modifier) -> u64
    ensures value { result ≡ modifier_number modifier }
    ensures small { result < 7 }
{
    modifier as u64
}

#[inline]
pub(crate) fn mode_code(mode: Mode) -> u64
    ensures value { result ≡ mode_number mode }
    ensures small { result < 8 }
{
    mode as u64
}
