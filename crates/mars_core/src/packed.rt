//! An instruction in one word.
ghost use Rattle.std.specs.Prelude.{◌≡◌, ◌<◌, ◌%◌};
ghost use Rattle.rc_instr.specs.declared.instruction.Instruction.{Instruction};
ghost use Rattle.mars_core.specs.Classes.{key_of, canonical};
ghost use Rattle.mars_core.specs.Packed.{IsClassed, packed, unpacked, is_marked, marked, empty_word};

use crate::cell::Cell;
use crate::classes::{CLASS_RANGE, class_of_key};
use crate::codes::{
    CODE_COUNT, mode_code, mode_from, modifier_code, modifier_from, opcode_code, opcode_from,
};
use crate::number::Field;
use rc_instr::{Instruction, Modifier, Opcode};

// What the parts of a word are multiplied by: the mark by 2^15, the A-number by 2^16, the key by
// 2^32 and the B-number by 2^48. specs/Packed.antt has the table.
const MARK: u64 = 32768;

const A_NUMBER: u64 = 65536;

const KEY: u64 = 4294967296;

const B_NUMBER: u64 = 281474976710656;

/// A cell in one word: its instruction, its class, and the mark of a cell that was written.
#[derive(Clone, Copy, Drop)]
pub struct PackedCell {
    pub(crate) word: u64,
    ghost classed: { IsClassed word },
}

fn key_of(instruction: Instruction) -> u64
    ensures value { result ≡ key_of instruction }
    ensures small { result < 16384 }
{
    let code = modifier_code(instruction.modifier) + 8 * opcode_code(instruction.opcode);
    let modes = mode_code(instruction.a_mode) + 8 * mode_code(instruction.b_mode);
    code + 256 * modes
}

// Returns the instruction with its canonical modifier, with which it does the same.
fn canonical(instruction: Instruction) -> Instruction
    ensures { result ≡ canonical instruction }
{
    let modifier = match instruction.opcode {
        Opcode::Mov | Opcode::Seq | Opcode::Sne => instruction.modifier,
        Opcode::Dat => Modifier::F,
        Opcode::Jmp | Opcode::Spl | Opcode::Nop => Modifier::B,
        _ => match instruction.modifier {
            Modifier::I => Modifier::F,
            modifier => modifier,
        },
    };
    Instruction {
        modifier,
        ..instruction
    }
}

// Packs an instruction, without a mark.
#[tactic(auto, unfolding(crate::specs::Packed::packed))]
fn pack(instruction: Instruction) -> u64
    ensures { result ≡ packed instruction }
{
    let a = u64::from(instruction.a_number);
    let b = u64::from(instruction.b_number);
    let class = class_of_key(key_of(canonical(instruction)));
    class + A_NUMBER * a + KEY * key_of(instruction) + B_NUMBER * b
}

impl PackedCell {
    // Returns the empty cell, without a mark.
    #[tactic(auto, unfolding(crate::specs::Packed::empty_word))]
    #[inline]
    pub(crate) fn empty() -> PackedCell
        ensures { result.word ≡ empty_word }
    {
        PackedCell {
            word: pack(Instruction::empty()),
        }
    }

    // Returns the cell with a mark.
    #[tactic(auto, unfolding(crate::specs::Packed::mark_of, crate::specs::Packed::marked))]
    #[inline]
    pub(crate) fn marked(self) -> PackedCell
        ensures { result.word ≡ marked self.word }
    {
        let mark = self.word / MARK % 2;
        PackedCell {
            word: self.word + MARK * (1 - mark),
        }
    }

    // Returns whether the cell has a mark.
    #[tactic(auto, unfolding(crate::specs::Packed::mark_of))]
    #[inline]
    pub(crate) fn is_marked(self) -> bool
        ensures { result ≡ is_marked self.word }
    {
        self.word / MARK % 2 == 1
    }
}

impl Cell for PackedCell {
    ghost held = { λ c. unpacked c.word };

    #[tactic(auto, using(crate::proofs::Packing::unpacked_packed))]
    #[inline]
    fn of(instruction: Instruction) -> PackedCell {
        PackedCell {
            word: pack(instruction),
        }
    }

    #[tactic(auto, unfolding(crate::specs::Packed::unpacked))]
    #[inline]
    fn instruction(self) -> Instruction {
        Instruction {
            opcode: opcode_from(self.word / (8 * KEY) % 16),
            modifier: modifier_from(self.word / KEY % 8),
            a_mode: mode_from(self.word / (256 * KEY) % 8),
            a_number: (self.word / A_NUMBER % 65536) as u16,
            b_mode: mode_from(self.word / (2048 * KEY) % 8),
            b_number: (self.word / B_NUMBER) as u16,
        }
    }

    #[inline]
    fn class(self) -> u64 {
        self.word % CLASS_RANGE
    }

    #[tactic(auto, using(crate::proofs::Packing::code), unfolding(crate::specs::Packed::unpacked))]
    #[inline]
    fn code(self) -> u64 {
        self.word / KEY % CODE_COUNT
    }

    #[tactic(auto, unfolding(crate::specs::Packed::unpacked))]
    #[inline]
    fn a_number(self) -> u32 {
        (self.word / A_NUMBER % 65536) as u32
    }

    #[tactic(auto, unfolding(crate::specs::Packed::unpacked))]
    #[inline]
    fn b_number(self) -> u32 {
        (self.word / B_NUMBER) as u32
    }

    // Adds the difference: a mask of the other bits would take a register from the loop.
    #[inline]
    fn with_number(self, field: Field, number: u32) -> PackedCell {
        let change = u64::from(number).wrapping_sub(u64::from(self.number(field)));
        let unit = match field {
            Field::ANumber => A_NUMBER,
            Field::BNumber => B_NUMBER,
        };
        PackedCell {
            word: self.word.wrapping_add(unit.wrapping_mul(change)),
        }
    }

    // Compares the key and the numbers, which are the whole instruction: class and mark are below.
    #[tactic(auto, using(crate::proofs::Packing::same_words))]
    #[inline]
    fn is_same(self, other: PackedCell) -> bool {
        self.word / A_NUMBER == other.word / A_NUMBER
    }

    // Compares the marks and the classes too: one word with another.
    #[inline]
    fn is_identical(self, other: PackedCell) -> bool {
        self.word == other.word
    }
}
