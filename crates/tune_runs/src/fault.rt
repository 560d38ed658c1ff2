//! Why a run fails.
ghost use Rattle.std.specs.Prelude.{◌≡◌};
ghost use Rattle.tune_runs.specs.declared.fault.RunFault.TheVariants.{Write as WriteFault, OutOfMemory as MemoryFault};
ghost use Rattle.tune_runs.specs.TuneRun.{fault_of};
ghost use Rattle.tune_runs.specs.Runs.{asm_fault, opponent_fault, template_fault, schedule_fault, load_fault};

use mars_core::Side;
use mars_fight::{ScheduleFault, ScheduleFaultKind};
use rc_asm::{AsmFault, AsmKind};
use rc_instr::{LoadFault, OutOfMemory as MemoryRefused, RulesError, WriteFailed};
use std::alloc::{AllocError, AllocFailed};
use thiserror::Error;
use tune_cert::CheckFault;
use tune_search::SearchFault;
use tune_template::{TemplateFault, TemplateKind};

/// Why a run fails. If several faults apply, the first in the run's `# Errors` is returned.
///
/// | Run | Its faults in their order, before `Write` and `OutOfMemory` |
/// |---|---|
/// | `fight_run` | `FightText`, `Rules`, `Load`, `Position` |
/// | `duel_run` | `Asm` of the candidate's text, `Opponent` with index 0, `Position` |
/// | `asm_run` | `Asm` |
/// | `settings_run` | `Template` |
/// | `setting_run` | `Template`, `NoSuchSetting`, `Asm` |
/// | a tuning | `TooManyOpponents`, `Template`, `Opponent`, `Schedule`, `Part`, `NoCandidate` |
/// | a check | `TooManyOpponents`, `Template`, `Opponent`, `Schedule`, `Part` |
///
/// Out of memory is always `RunFault::OutOfMemory`, and never a fault within another.
#[derive(Clone, Copy, Debug, PartialEq, Eq, Error)]
pub enum RunFault {
    /// The fight text is malformed at this line, from 1.
    #[error("line {line} of the fight text is malformed")]
    FightText { line: u64 },
    /// A number of the rules is out of range.
    #[error("{0}")]
    Rules(RulesError),
    /// A load file is malformed, or its warrior breaks the rules. `fault` counts lines from 1
    /// within the load file.
    #[error("{fault}")]
    Load { side: Side, fault: LoadFault },
    /// The position is nearer to address 0 than the distance of the rules.
    #[error("the warriors are nearer to each other than the distance of the rules")]
    Position,
    /// The text does not assemble.
    #[error("{0}")]
    Asm(AsmFault),
    /// There are more than 64 opponents.
    #[error("more than 64 opponents")]
    TooManyOpponents,
    /// The template has a bad `;@tune` line, or is too long.
    #[error("template: {0}")]
    Template(TemplateFault),
    /// The opponent at this index, from 0, does not assemble.
    #[error("opponent {index}: {fault}")]
    Opponent { index: u32, fault: AsmFault },
    /// The schedule has a bad record.
    #[error("schedule: {0}")]
    Schedule(ScheduleFault),
    /// No setting of the template, or of the part that is tuned, assembles.
    #[error("no setting assembles")]
    NoCandidate,
    /// A writer failed.
    #[error("cannot write the output")]
    Write,
    /// An allocation failed.
    #[error("out of memory")]
    OutOfMemory,
    /// The template has no such part: the part's number is not 1 to the number of parts, or there
    /// are more parts than settings.
    #[error("no such part of the settings")]
    Part,
    /// The template has no setting at this index, from 0.
    #[error("the template has no setting {index}")]
    NoSuchSetting { index: u32 },
}

impl From<MemoryRefused> for RunFault {
    ghost from_gives = { λ _ e. e ≡ MemoryFault };

    fn from(_refused: MemoryRefused) -> RunFault {
        RunFault::OutOfMemory
    }
}

impl From<AllocError> for RunFault {
    ghost from_gives = { λ _ e. e ≡ MemoryFault };

    fn from(_refused: AllocError) -> RunFault {
        RunFault::OutOfMemory
    }
}

impl<T: Drop> From<AllocFailed<T>> for RunFault {
    ghost from_gives = { λ _ e. e ≡ MemoryFault };

    fn from(_refused: AllocFailed<T>) -> RunFault {
        RunFault::OutOfMemory
    }
}

impl From<WriteFailed> for RunFault {
    ghost from_gives = { λ _ e. e ≡ WriteFault };

    fn from(_failed: WriteFailed) -> RunFault {
        RunFault::Write
    }
}

impl From<AsmFault> for RunFault {
    ghost from_gives = { λ f e. e ≡ asm_fault f };

    fn from(fault: AsmFault) -> RunFault {
        match fault.kind {
            AsmKind::OutOfMemory => RunFault::OutOfMemory,
            _ => RunFault::Asm(fault),
        }
    }
}

impl From<TemplateFault> for RunFault {
    ghost from_gives = { λ f e. e ≡ template_fault f };

    fn from(fault: TemplateFault) -> RunFault {
        match fault.kind {
            TemplateKind::OutOfMemory => RunFault::OutOfMemory,
            _ => RunFault::Template(fault),
        }
    }
}

impl From<ScheduleFault> for RunFault {
    ghost from_gives = { λ f e. e ≡ schedule_fault f };

    fn from(fault: ScheduleFault) -> RunFault {
        match fault.kind {
            ScheduleFaultKind::OutOfMemory => RunFault::OutOfMemory,
            _ => RunFault::Schedule(fault),
        }
    }
}

impl From<SearchFault> for RunFault {
    ghost from_gives = { λ s e. e ≡ fault_of s };

    fn from(fault: SearchFault) -> RunFault {
        match fault {
            SearchFault::NoCandidate => RunFault::NoCandidate,
            SearchFault::OutOfMemory => RunFault::OutOfMemory,
        }
    }
}

impl From<CheckFault> for RunFault {
    ghost from_gives = { λ _ e. e ≡ MemoryFault };

    fn from(fault: CheckFault) -> RunFault {
        match fault {
            CheckFault::OutOfMemory => RunFault::OutOfMemory,
        }
    }
}

// Wraps the fault of the opponent at this index.
pub(crate) fn opponent_fault(index: u32, fault: AsmFault) -> RunFault
    ensures { result ≡ opponent_fault index fault }
{
    match fault.kind {
        AsmKind::OutOfMemory => RunFault::OutOfMemory,
        _ => RunFault::Opponent { index, fault },
    }
}

// Wraps the fault of a load file.
pub(crate) fn load_fault(side: Side, fault: LoadFault) -> RunFault
    ensures { result ≡ load_fault side fault }
{
    match fault {
        LoadFault::OutOfMemory => RunFault::OutOfMemory,
        _ => RunFault::Load { side, fault },
    }
}
