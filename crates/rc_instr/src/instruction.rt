//! Instructions: an opcode, a modifier, and two operands, each a mode and a number.
ghost use Rattle.std.specs.Prelude.{◌≡◌, ◌↔◌, IsTrue};

/// What an instruction does: the opcodes of the 1994 draft, with CMP under its later name SEQ, and
/// SNE and NOP (pMARS). A and B stand for what the modifier picks of the cells to which the
/// A-operand and the B-operand point. These cells are copied when the operands are evaluated.
#[derive(Clone, Copy, Debug, PartialEq, Eq)]
pub enum Opcode {
    /// Ends the task that runs it.
    Dat,
    /// Copies A to B.
    Mov,
    /// Adds A to B.
    Add,
    /// Subtracts A from B.
    Sub,
    /// Multiplies B by A.
    Mul,
    /// Divides B by A. A zero in A ends the task.
    Div,
    /// Puts the remainder of B divided by A into B. A zero in A ends the task.
    Mod,
    /// Jumps to the A-operand.
    Jmp,
    /// Jumps to the A-operand if B is zero.
    Jmz,
    /// Jumps to the A-operand if B is not zero.
    Jmn,
    /// Subtracts 1 from B, then jumps to the A-operand unless the copy of B was 1.
    Djn,
    /// Skips the next instruction if A equals B. The 1994 draft calls it CMP.
    Seq,
    /// Skips the next instruction if A differs from B.
    Sne,
    /// Skips the next instruction if A is less than B.
    Slt,
    /// Starts one more task, at the A-operand.
    Spl,
    /// Does nothing.
    Nop,
}

/// Which numbers an instruction reads and writes: from the A-instruction to the B-instruction.
#[derive(Clone, Copy, Debug, PartialEq, Eq)]
pub enum Modifier {
    /// A-number to A-number.
    A,
    /// B-number to B-number.
    B,
    /// A-number to B-number.
    AB,
    /// B-number to A-number.
    BA,
    /// Both numbers: A to A and B to B.
    F,
    /// Both numbers, crossed: A to B and B to A.
    X,
    /// The whole instruction, if the opcode works on whole instructions; else like `F`.
    I,
}

/// How an operand finds its cell, from the operand's number.
#[derive(Clone, Copy, Debug, PartialEq, Eq)]
pub enum Mode {
    /// `#`: the instruction's own cell.
    Immediate,
    /// `$`: the cell at the instruction's own address plus the operand's number.
    Direct,
    /// `*`: through the A-number of that cell.
    AIndirect,
    /// `@`: through the B-number of that cell.
    BIndirect,
    /// `{`: through the A-number of that cell, after lowering it by 1.
    APredecrement,
    /// `<`: through the B-number of that cell, after lowering it by 1.
    BPredecrement,
    /// `}`: through the A-number of that cell, which is raised by 1 afterwards.
    APostincrement,
    /// `>`: through the B-number of that cell, which is raised by 1 afterwards.
    BPostincrement,
}

/// One cell of the core. In a core of M cells both numbers are below M.
#[derive(Clone, Copy, Debug, PartialEq, Eq)]
pub struct Instruction {
    /// What it does.
    pub opcode: Opcode,
    /// Which numbers it reads and writes.
    pub modifier: Modifier,
    /// How the A-operand is found.
    pub a_mode: Mode,
    /// The A-number.
    pub a_number: u16,
    /// How the B-operand is found.
    pub b_mode: Mode,
    /// The B-number.
    pub b_number: u16,
}

impl Instruction {
    ghost use Rattle.rc_instr.specs.Instruction.{empty_cell, same_instruction};

    /// Returns `DAT.F $0, $0`, which fills the core before a fight (pMARS).
    pub fn empty() -> Instruction
        ensures { result ≡ empty_cell }
    {
        Instruction {
            opcode: Opcode::Dat,
            modifier: Modifier::F,
            a_mode: Mode::Direct,
            a_number: 0,
            b_mode: Mode::Direct,
            b_number: 0,
        }
    }

    /// Compares all six parts, as SEQ and SNE do with modifier I.
    #[inline(always)]
    pub fn is_same(&self, other: &Instruction) -> bool
        ensures value { result ≡ same_instruction self.now other.now }
        ensures equal { IsTrue result ↔ (self.now ≡ other.now) }
    {
        *self == *other
    }
}
