//! What faults print.
use rc_asm::{AsmFault, AsmKind};
use rc_expand::{ExpandFault, ExpandKind};
use rc_instr::{Code, LoadFault, OutOfMemory, Refused, RulesError, WarriorError, WriteFailed};
use rc_text::{EvalFault, LexFault};
use std::alloc::{AllocError, Global};
use std::error::Error;
use std::test::Fail;

fn error_text<E: Error>(alloc: Global, error: &E) -> Result<String, AllocError> {
    format!(in alloc; "{error}")
}

#[test]
fn texts_of_rules(rt: HostRuntime) -> Result<(), Fail> {
    for &(error, want) in &[
        (RulesError::Core, "core size must be 8 to 65535"),
        (RulesError::Cycles, "cycles must be 1 to 1000000"),
        (RulesError::Tasks, "tasks must be 1 to 8000"),
        (RulesError::Length, "warrior length must be 1 to 200"),
        (
            RulesError::Distance,
            "distance must be from the warrior length to half the core size",
        ),
    ] {
        assert_eq!(rt; error_text(rt.alloc(), &error)?.as_str(), want);
    }
    Ok(())
}

#[test]
fn texts_of_warriors(rt: HostRuntime) -> Result<(), Fail> {
    for &(error, want) in &[
        (WarriorError::Empty, "no instructions"),
        (
            WarriorError::TooLong,
            "more instructions than the rules allow",
        ),
        (WarriorError::BadStart, "start outside the code"),
        (
            WarriorError::NumberTooLarge,
            "instruction number not below the core size",
        ),
    ] {
        assert_eq!(rt; error_text(rt.alloc(), &error)?.as_str(), want);
        let code = Code::from_vec(Vec::new(rt.alloc()));
        assert_eq!(rt;
            error_text(rt.alloc(), &Refused { code, error })?.as_str(),
            want
        );
        assert_eq!(rt;
            error_text(rt.alloc(), &LoadFault::Warrior(error))?.as_str(),
            want
        );
    }
    Ok(())
}

#[test]
fn texts_of_bytes_and_memory(rt: HostRuntime) -> Result<(), Fail> {
    let malformed = LoadFault::Malformed { line: 12 };
    let text = error_text(rt.alloc(), &malformed)?;
    assert_eq!(rt; text.as_str(), "malformed line 12");
    let text = error_text(rt.alloc(), &LoadFault::OutOfMemory)?;
    assert_eq!(rt; text.as_str(), "out of memory");
    let text = error_text(rt.alloc(), &OutOfMemory::from(AllocError))?;
    assert_eq!(rt; text.as_str(), "out of memory");
    let text = error_text(rt.alloc(), &WriteFailed)?;
    assert_eq!(rt; text.as_str(), "write failed");
    Ok(())
}

#[test]
fn texts_of_tokens(rt: HostRuntime) -> Result<(), Fail> {
    for &(fault, want) in &[
        (LexFault::BadByte, "unexpected byte"),
        (LexFault::NumberTooLarge, "number above 4294967295"),
    ] {
        assert_eq!(rt; error_text(rt.alloc(), &fault)?.as_str(), want);
    }
    Ok(())
}

#[test]
fn texts_of_values(rt: HostRuntime) -> Result<(), Fail> {
    for &(fault, want) in &[
        (EvalFault::Syntax, "invalid expression"),
        (EvalFault::UnknownName, "unknown name"),
        (EvalFault::DivisionByZero, "division by zero"),
        (EvalFault::Overflow, "result does not fit into 64 bits"),
        (EvalFault::TooDeep, "more than 64 open parentheses"),
    ] {
        assert_eq!(rt; error_text(rt.alloc(), &fault)?.as_str(), want);
    }
    Ok(())
}

// Each kind of fault of an expansion, and its text at line 3.
const EXPANSION_TEXTS: [(ExpandKind, &str); 11] = [
    (
        ExpandKind::Text(LexFault::BadByte),
        "line 3: unexpected byte",
    ),
    (ExpandKind::DuplicateName, "line 3: name already defined"),
    (ExpandKind::ForWithoutRof, "line 3: FOR without ROF"),
    (ExpandKind::RofWithoutFor, "line 3: ROF without FOR"),
    (
        ExpandKind::ForTooDeep,
        "line 3: more than 8 nested FOR blocks",
    ),
    (
        ExpandKind::EquTooDeep,
        "line 3: EQU names nested more than 16 deep",
    ),
    (
        ExpandKind::CountRefused,
        "line 3: FOR count has no value, or is above 4096",
    ),
    (
        ExpandKind::TooManyLines,
        "line 3: more than 4096 lines and copies in the expansion",
    ),
    (ExpandKind::OutOfMemory, "line 3: out of memory"),
    (
        ExpandKind::BadDirective,
        "line 3: malformed or misplaced directive, or more than 8 counters joined",
    ),
    (
        ExpandKind::TooManyTokens,
        "line 3: more than 4096 tokens or EQU replacements in a line",
    ),
];

#[test]
fn texts_of_expansions(rt: HostRuntime) -> Result<(), Fail> {
    for &(kind, want) in &EXPANSION_TEXTS {
        let fault = ExpandFault { line: 3, kind };
        assert_eq!(rt; error_text(rt.alloc(), &fault)?.as_str(), want);
    }
    Ok(())
}

// Each kind of fault of an assembly, and its text at line 3.
const ASSEMBLY_TEXTS: [(AsmKind, &str); 9] = [
    (
        AsmKind::Expand(ExpandKind::ForTooDeep),
        "line 3: more than 8 nested FOR blocks",
    ),
    (AsmKind::UnknownOpcode, "line 3: unknown opcode or modifier"),
    (AsmKind::MissingOperand, "line 3: missing operand"),
    (AsmKind::ExtraText, "line 3: too many operands"),
    (
        AsmKind::Value(EvalFault::DivisionByZero),
        "line 3: division by zero",
    ),
    (AsmKind::AssertFailed, "line 3: assertion failed"),
    (
        AsmKind::Warrior(WarriorError::Empty),
        "line 3: no instructions",
    ),
    (AsmKind::TextTooLong, "line 3: text longer than 65536 bytes"),
    (AsmKind::OutOfMemory, "line 3: out of memory"),
];

#[test]
fn texts_of_assemblies(rt: HostRuntime) -> Result<(), Fail> {
    for &(kind, want) in &ASSEMBLY_TEXTS {
        let fault = AsmFault { line: 3, kind };
        assert_eq!(rt; error_text(rt.alloc(), &fault)?.as_str(), want);
    }
    Ok(())
}
