//! Warriors: code, and the instruction where execution starts.
ghost use Rattle.std.specs.Prelude.{◌≡◌, ◌↔◌, Err, IfOk, IfErr, IsTrue};
ghost use Rattle.std.specs.List.{list_all};
ghost use Rattle.rc_instr.specs.Warrior.{warrior_view, IsWarrior, Fits};
ghost use Rattle.rc_instr.specs.Checks.{is_below};

use crate::instruction::Instruction;
use crate::rules::Rules;
use std::marker::Model;
use thiserror::Error;

/// Instructions without a start, as [`Refused`] hands them back. Contracts see the list.
#[derive(Debug, Drop)]
pub struct Code {
    instructions: Vec<Instruction>,
}

impl Model for Code {
    ghost use Rattle.std.specs.Prelude.{List};
    ghost use Rattle.rc_instr.specs.declared.instruction.Instruction.{Instruction};

    ghost Value = { List Instruction };

    ghost view = { λ c. c.instructions.items };
}

impl Code {
    /// Wraps a list of instructions.
    pub fn from_vec(instructions: Vec<Instruction>) -> Code
        ensures { result ≡ instructions.items }
    {
        Code { instructions }
    }

    /// Returns the instructions, in order.
    pub fn as_slice(&self) -> &[Instruction]
        ensures { result.now ≡ self.now }
    {
        self.instructions.as_slice()
    }

    /// Returns the instructions as a `Vec`.
    pub fn into_vec(self) -> Vec<Instruction>
        ensures { result.items ≡ self }
    {
        let Code { instructions } = self;
        instructions
    }
}

/// A warrior: 1 to 200 instructions, and the index of the one that its first task executes first.
#[derive(Debug, Drop)]
pub struct Warrior {
    code: Vec<Instruction>,
    start: u32,
}

impl Model for Warrior {
    ghost use Rattle.rc_instr.specs.Warrior.{WarriorView, IsWarrior, warrior_view};

    ghost Value = { WarriorView };

    ghost view = { λ w. warrior_view w.code.items w.start };

    ghost invariant = { λ w. IsWarrior (warrior_view w.code.items w.start) };
}

/// Why code is not a warrior under the rules: the first fault in this order.
#[derive(Clone, Copy, Debug, PartialEq, Eq, Error)]
pub enum WarriorError {
    /// The code has no instruction.
    #[error("no instructions")]
    Empty,
    /// The code has more instructions than the rules allow.
    #[error("more instructions than the rules allow")]
    TooLong,
    /// The start is not the index of an instruction.
    #[error("start outside the code")]
    BadStart,
    /// An A-number or B-number is not below the core size.
    #[error("instruction number not below the core size")]
    NumberTooLarge,
}

/// The code that was refused, handed back, and its fault.
#[derive(Debug, Drop, Error)]
#[error("{error}")]
pub struct Refused {
    /// The code as it was given.
    pub code: Code,
    /// The first fault.
    pub error: WarriorError,
}

impl Warrior {
    ghost use Rattle.std.specs.Result.{result_err};
    ghost use Rattle.rc_instr.specs.Checks.{warrior_of};

    /// Makes a warrior of `code` that starts at index `start`.
    ///
    /// # Errors
    ///
    /// The first of these that applies, together with the code:
    ///
    /// - `Empty`: `code` is empty.
    /// - `TooLong`: `code` has more instructions than the rules allow.
    /// - `BadStart`: `start` is not below the number of instructions.
    /// - `NumberTooLarge`: an A-number or B-number is not below the core size.
    pub fn try_new(code: Vec<Instruction>, start: u32, rules: &Rules) -> Result<Warrior, Refused>
        ensures ok { IfOk result (λ w. (w ≡ warrior_view code.items start) × IsWarrior w × Fits rules.now w) }
        ensures refused { IfErr result (λ e. (e.code ≡ code.items) × (warrior_of rules.now (warrior_view code.items start) ≡ Err e.error)) }
    {
        prove!(0 < rules.length());
        match Warrior::refusal_of(code.as_slice(), start, rules) {
            Some(error) => Err(Refused {
                code: Code::from_vec(code),
                error,
            }),
            None => Ok(Warrior { code, start }),
        }
    }

    /// Returns whether the warrior fits `rules`: it is not longer than they allow, and its numbers
    /// are below the core size.
    #[tactic(auto, using(crate::proofs::CheckSteps::all_below, crate::proofs::CheckSteps::below_all))]
    pub fn fits(&self, rules: &Rules) -> bool
        ensures { IsTrue result ↔ Fits rules.now self.now }
    {
        self.code.len() <= rules.length() as usize && are_below(self.code.as_slice(), rules.core())
    }

    /// Returns the instructions, in order: 1 to 200.
    pub fn code(&self) -> &[Instruction]
        ensures code { result.now ≡ self.now.code }
        ensures warrior { IsWarrior self.now }
    {
        self.code.as_slice()
    }

    /// Returns the index of the instruction where the first task starts.
    pub fn start(&self) -> u32
        ensures start { result ≡ self.now.start }
        ensures warrior { IsWarrior self.now }
    {
        self.start
    }

    // Returns why `code` and `start` do not make a warrior, if so: the first fault in the order of
    // `WarriorError`.
    #[tactic(auto, unfolding(crate::specs::Checks::warrior_of))]
    fn refusal_of(code: &[Instruction], start: u32, rules: &Rules) -> Option<WarriorError>
        ensures { result ≡ result_err (warrior_of rules.now (warrior_view code.now start)) }
    {
        if code.is_empty() {
            Some(WarriorError::Empty)
        } else if code.len() > rules.length() as usize {
            Some(WarriorError::TooLong)
        } else if start as usize >= code.len() {
            Some(WarriorError::BadStart)
        } else if !are_below(code, rules.core()) {
            Some(WarriorError::NumberTooLarge)
        } else {
            None
        }
    }
}

// Returns whether every A-number and B-number is below `core`.
fn are_below(code: &[Instruction], core: u32) -> bool
    ensures { result ≡ list_all (is_below core) code.now }
{
    code.iter().all(|i| u32::from(i.a_number) < core && u32::from(i.b_number) < core)
}
