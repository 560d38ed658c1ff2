//! One cell as a turn works on it, in the form in which its store keeps it.
ghost use Rattle.std.specs.Prelude.{◌≡◌, ◌<◌, ◌/◌, ◌%◌, true};
ghost use Rattle.rc_instr.specs.Instruction.{same_instruction};
ghost use Rattle.rc_instr.specs.declared.instruction.Instruction.{Instruction};
ghost use Rattle.mars_core.specs.Core.{field_of, with_field};
ghost use Rattle.mars_core.specs.Classes.{IsClassOf};
ghost use Rattle.mars_core.specs.Codes.{code_count, opcode_of, modifier_of};

use crate::classes::FIRST_OF_MODES;
use crate::codes::{mode_code, modifier_code, opcode_code};
use crate::number::Field;
use rc_instr::Instruction;

/// A cell in the form in which a store keeps it.
pub trait Cell: Copy {
    /// The instruction in the cell.
    ghost held: { Self → Instruction };

    /// Returns the cell that holds `instruction`.
    fn of(instruction: Instruction) -> Self
        ensures { held result ≡ instruction };

    /// Returns the instruction in the cell.
    fn instruction(self) -> Instruction
        ensures { result ≡ held self };

    /// Returns a class of the instruction: the one that a packed cell keeps, or the one that gives
    /// its modes alone.
    fn class(self) -> u64
        ensures { IsClassOf (held self) result };

    /// Returns 8 times the number of the opcode, plus the number of the modifier.
    fn code(self) -> u64
        ensures small { result < code_count }
        ensures opcode { opcode_of (result / 8) ≡ (held self).opcode }
        ensures modifier { modifier_of (result % 8) ≡ (held self).modifier };

    fn a_number(self) -> u32
        ensures { result ≡ (held self).a_number };

    fn b_number(self) -> u32
        ensures { result ≡ (held self).b_number };

    /// Returns one of the two numbers.
    #[inline]
    fn number(self, field: Field) -> u32
        ensures { result ≡ field_of field (held self) }
    {
        match field {
            Field::ANumber => self.a_number(),
            Field::BNumber => self.b_number(),
        }
    }

    /// Returns the cell with `number` in place of one of its numbers.
    fn with_number(self, field: Field, number: u32) -> Self
        requires { number < 65536 }
        ensures { held result ≡ with_field field number (held self) };

    /// Returns whether both cells hold the same instruction.
    fn is_same(self, other: Self) -> bool
        ensures { result ≡ same_instruction (held self) (held other) };

    /// Compares how the cells are stored, if packed with mark and class. `true` promises that they
    /// hold the same instruction; `false` promises nothing.
    fn is_identical(self, other: Self) -> bool
        ensures { result ≡ true → held self ≡ held other };
}

impl Cell for Instruction {
    ghost held = { λ i. i };

    #[inline]
    fn of(instruction: Instruction) -> Instruction {
        instruction
    }

    #[inline]
    fn instruction(self) -> Instruction {
        self
    }

    #[tactic(auto, using(crate::proofs::Packing::modes_class))]
    #[inline]
    fn class(self) -> u64 {
        FIRST_OF_MODES + mode_code(self.a_mode) + 8 * mode_code(self.b_mode)
    }

    #[tactic(auto, using(crate::proofs::Packing::code))]
    #[inline]
    fn code(self) -> u64 {
        modifier_code(self.modifier) + 8 * opcode_code(self.opcode)
    }

    #[inline]
    fn a_number(self) -> u32 {
        u32::from(self.a_number)
    }

    #[inline]
    fn b_number(self) -> u32 {
        u32::from(self.b_number)
    }

    #[inline]
    fn with_number(mut self, field: Field, number: u32) -> Instruction {
        match field {
            Field::ANumber => self.a_number = number as u16,
            Field::BNumber => self.b_number = number as u16,
        }
        self
    }

    #[inline]
    fn is_same(self, other: Instruction) -> bool {
        Instruction::is_same(&self, &other)
    }

    #[inline]
    fn is_identical(self, other: Instruction) -> bool {
        Instruction::is_same(&self, &other)
    }
}
