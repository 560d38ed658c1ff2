//! What faults print. A run prints at most the words of their kinds.
use mars_core::Side;
use mars_fight::{ScheduleFault, ScheduleFaultKind};
use rc_asm::{AsmFault, AsmKind};
use rc_instr::{LoadFault, RulesError};
use std::alloc::{AllocError, Global};
use std::error::Error;
use std::test::Fail;
use tune_cert::{CertFault, CheckFault, ReadFault};
use tune_runs::RunFault;
use tune_search::SearchFault;
use tune_template::{TemplateFault, TemplateKind};

fn error_text<E: Error>(alloc: Global, error: &E) -> Result<String, AllocError> {
    format!(in alloc; "{error}")
}

const TEMPLATE_TEXTS: [(TemplateKind, &str); 9] = [
    (TemplateKind::BadLine, "malformed range line"),
    (TemplateKind::DuplicateName, "duplicate constant"),
    (TemplateKind::ReservedName, "reserved or predefined name"),
    (TemplateKind::EmptyRange, "LOW is above HIGH"),
    (TemplateKind::StartOutside, "START is not one of the values"),
    (TemplateKind::TooManyConstants, "more than 8 constants"),
    (TemplateKind::TooManyVectors, "more than 1000000 settings"),
    (TemplateKind::TextTooLong, "text longer than 65536 bytes"),
    (TemplateKind::OutOfMemory, "out of memory"),
];

#[test]
fn texts_of_templates(rt: HostRuntime) -> Result<(), Fail> {
    for &(kind, want) in &TEMPLATE_TEXTS {
        assert_eq!(rt; error_text(rt.alloc(), &kind)?.as_str(), want);
    }
    Ok(())
}

#[test]
fn texts_of_certificates(rt: HostRuntime) -> Result<(), Fail> {
    let text = error_text(rt.alloc(), &CertFault::Write)?;
    assert_eq!(rt; text.as_str(), "cannot write the certificate");
    let text = error_text(rt.alloc(), &ReadFault::Malformed { row: 3 })?;
    assert_eq!(rt; text.as_str(), "record 3 of the certificate is malformed");
    let text = error_text(rt.alloc(), &CertFault::OutOfMemory)?;
    assert_eq!(rt; text.as_str(), "out of memory");
    let text = error_text(rt.alloc(), &ReadFault::OutOfMemory)?;
    assert_eq!(rt; text.as_str(), "out of memory");
    let text = error_text(rt.alloc(), &CheckFault::OutOfMemory)?;
    assert_eq!(rt; text.as_str(), "out of memory");
    Ok(())
}

#[test]
fn texts_of_searches(rt: HostRuntime) -> Result<(), Fail> {
    for &(fault, want) in &[
        (SearchFault::NoCandidate, "no setting assembles"),
        (SearchFault::OutOfMemory, "out of memory"),
    ] {
        assert_eq!(rt; error_text(rt.alloc(), &fault)?.as_str(), want);
    }
    Ok(())
}

const RUN_TEXTS: [(RunFault, &str); 14] = [
    (
        RunFault::FightText { line: 2 },
        "line 2 of the fight text is malformed",
    ),
    (
        RunFault::Rules(RulesError::Core),
        "core size must be 8 to 65535",
    ),
    (
        RunFault::Load {
            side: Side::Opponent,
            fault: LoadFault::Malformed { line: 3 },
        },
        "malformed line 3",
    ),
    (
        RunFault::Position,
        "the warriors are nearer to each other than the distance of the rules",
    ),
    (
        RunFault::Asm(AsmFault {
            line: 4,
            kind: AsmKind::AssertFailed,
        }),
        "line 4: assertion failed",
    ),
    (RunFault::TooManyOpponents, "more than 64 opponents"),
    (
        RunFault::Template(TemplateFault {
            line: 5,
            kind: TemplateKind::EmptyRange,
        }),
        "template: line 5: LOW is above HIGH",
    ),
    (
        RunFault::Opponent {
            index: 6,
            fault: AsmFault {
                line: 7,
                kind: AsmKind::MissingOperand,
            },
        },
        "opponent 6: line 7: missing operand",
    ),
    (
        RunFault::Schedule(ScheduleFault {
            row: 8,
            kind: ScheduleFaultKind::NoSuchOpponent,
        }),
        "schedule: record 8: no such opponent",
    ),
    (RunFault::NoCandidate, "no setting assembles"),
    (RunFault::Write, "cannot write the output"),
    (RunFault::OutOfMemory, "out of memory"),
    (RunFault::Part, "no such part of the settings"),
    (
        RunFault::NoSuchSetting { index: 9 },
        "the template has no setting 9",
    ),
];

#[test]
fn texts_of_runs(rt: HostRuntime) -> Result<(), Fail> {
    for &(fault, want) in &RUN_TEXTS {
        assert_eq!(rt; error_text(rt.alloc(), &fault)?.as_str(), want);
    }
    Ok(())
}
