//! The rules of a fight: five numbers within their limits.
ghost use Rattle.std.specs.Prelude.{◌≡◌};
ghost use Rattle.rc_instr.specs.Rules.{rules_view, IsRules};

use crate::limits;
use std::alloc::AllocError;
use std::marker::Model;
use thiserror::Error;

/// The rules of a fight, checked: the numbers are within the limits of [`Rules::try_new`].
#[derive(Debug, PartialEq, Eq)]
pub struct Rules {
    core: u32,
    cycles: u32,
    tasks: u32,
    length: u32,
    distance: u32,
}

/// The five numbers of rules, not yet checked.
#[derive(Clone, Copy)]
pub struct RawRules {
    /// The size of the core in cells.
    pub core: u32,
    /// The cycles until a tie.
    pub cycles: u32,
    /// The most tasks of a warrior.
    pub tasks: u32,
    /// The most instructions of a warrior.
    pub length: u32,
    /// The least distance between two warriors in cells.
    pub distance: u32,
}

/// Which number is out of its limits: the first in this order.
#[derive(Clone, Copy, Debug, PartialEq, Eq, Error)]
pub enum RulesError {
    /// The core size is not 8 to 65535.
    #[error("core size must be 8 to 65535")]
    Core,
    /// The cycles are not 1 to 1000000.
    #[error("cycles must be 1 to 1000000")]
    Cycles,
    /// The most tasks of a warrior are not 1 to 8000.
    #[error("tasks must be 1 to 8000")]
    Tasks,
    /// The most instructions of a warrior are not 1 to 200.
    #[error("warrior length must be 1 to 200")]
    Length,
    /// The distance is below the length, or above half the core size.
    #[error("distance must be from the warrior length to half the core size")]
    Distance,
}

impl Model for Rules {
    ghost use Rattle.rc_instr.specs.Rules.{RulesView, rules_view, IsRules};

    ghost Value = { RulesView };

    ghost view = { λ r. rules_view r.core r.cycles r.tasks r.length r.distance };

    ghost invariant = { λ r. IsRules (rules_view r.core r.cycles r.tasks r.length r.distance) };

    ghost inverse = { λ v. record { core = v.core; cycles = v.cycles; tasks = v.tasks; length = v.length; distance = v.distance } };
}

impl Clone for Rules {
    ghost is_clone = { λ rules copy. copy ≡ rules };

    fn clone(&self) -> Result<Rules, AllocError> {
        Ok(*self)
    }
}

impl Copy for Rules {}

impl Rules {
    ghost use Rattle.rc_instr.specs.Checks.{rules_of};

    /// Checks five numbers and makes rules of them:
    ///
    /// - `core`: the size of the core, 8 to 65535 cells.
    /// - `cycles`: after how many cycles a fight is a tie, 1 to 1000000.
    /// - `tasks`: the most tasks of a warrior, 1 to 8000.
    /// - `length`: the most instructions of a warrior, 1 to 200.
    /// - `distance`: the least distance between the first cells of two warriors, either way round
    ///   the core, `length` to half of `core`.
    ///
    /// # Errors
    ///
    /// Names the first number, in this order, that is out of its limits.
    #[tactic(auto, unfolding(crate::specs::Checks::rules_of))]
    pub fn try_new(
        core: u32,
        cycles: u32,
        tasks: u32,
        length: u32,
        distance: u32,
    ) -> Result<Rules, RulesError>
        ensures { result ≡ rules_of (rules_view core cycles tasks length distance) }
    {
        if core < limits::LEAST_CORE || core > limits::MOST_CORE {
            return Err(RulesError::Core);
        }
        if cycles < 1 || cycles > limits::MOST_CYCLES {
            return Err(RulesError::Cycles);
        }
        if tasks < 1 || tasks > limits::MOST_TASKS {
            return Err(RulesError::Tasks);
        }
        if length < 1 || length > limits::MOST_LENGTH {
            return Err(RulesError::Length);
        }
        if distance < length || distance > core / 2 {
            return Err(RulesError::Distance);
        }
        Ok(Rules {
            core,
            cycles,
            tasks,
            length,
            distance,
        })
    }

    /// Returns the default rules of pMARS: 8000 cells, 80000 cycles, 8000 tasks, length 100,
    /// distance 100.
    pub fn standard() -> Rules
        ensures rules { result ≡ rules_view 8000 80000 8000 100 100 }
        ensures valid { IsRules result }
    {
        Rules {
            core: 8000,
            cycles: 80000,
            tasks: 8000,
            length: 100,
            distance: 100,
        }
    }

    /// Returns the number of cells of the core, 8 to 65535.
    #[inline(always)]
    pub fn core(&self) -> u32
        ensures core { result ≡ self.now.core }
        ensures rules { IsRules self.now }
    {
        self.core
    }

    /// Returns the number of cycles after which a fight is a tie, 1 to 1000000. Each warrior has
    /// one turn in each cycle.
    #[inline(always)]
    pub fn cycles(&self) -> u32
        ensures cycles { result ≡ self.now.cycles }
        ensures rules { IsRules self.now }
    {
        self.cycles
    }

    /// Returns the most tasks that a warrior may have, 1 to 8000.
    #[inline(always)]
    pub fn tasks(&self) -> u32
        ensures tasks { result ≡ self.now.tasks }
        ensures rules { IsRules self.now }
    {
        self.tasks
    }

    /// Returns the most instructions that a warrior may have, 1 to 200.
    #[inline(always)]
    pub fn length(&self) -> u32
        ensures length { result ≡ self.now.length }
        ensures rules { IsRules self.now }
    {
        self.length
    }

    /// Returns the least distance between the first cells of two warriors, either way round the
    /// core: `length` to half the core size.
    #[inline(always)]
    pub fn distance(&self) -> u32
        ensures distance { result ≡ self.now.distance }
        ensures rules { IsRules self.now }
    {
        self.distance
    }
}
