//! Calls that allocate: the runs. Their writers have room beforehand. A run that is refused writes
//! nothing.
ghost use Rattle.std.specs.Prelude.{◌≡◌, ◌≤◌, false, IfOk};
ghost use Rattle.tune_search.specs.Limits.{MOST_CAPACITY};

use crate::fixtures::{
    ACCEPTED, DAT_TEXT, FIGHT_OF_IMPS, FOUR_EQUAL, FOUR_EQUAL_CASES, IMP_TEXT, ONE_IMP, TUNINGS,
    TWO_CONSTANTS, TWO_FIGHTS, TWO_IN_TURN, TWO_IN_TURN_CERT, both_opponents, small_rules,
};
use mars_core::Side;
use mars_fight::{ScheduleFault, ScheduleFaultKind};
use rc_asm::{AsmFault, AsmKind};
use rc_expand::ExpandKind;
use rc_instr::Outlet;
use rc_text::EvalFault;
use std::alloc::{AllocError, Global};
use std::test::Fail;
use tune_runs::{
    DuelTexts, RunFault, WhichSetting, asm_run, check_run, duel_run, fight_run, setting_run,
    settings_run, tune_run,
};

// Returns an outlet to memory that has its room.
fn outlet(alloc: Global) -> Result<Outlet<Vec<u8>>, AllocError>
    ensures { IfOk result (λ out. out.failed ≡ false) }
{
    Ok(Outlet::new(Vec::with_capacity(alloc, 256)?))
}

// Returns what a run wrote. Its fault is an error.
fn written(ended: Result<(), RunFault>, out: Outlet<Vec<u8>>) -> Result<Vec<u8>, Fail> {
    let bytes = out.into_inner();
    if ended.is_err() && !bytes.is_empty() {
        return Err(Fail::from("a refused run wrote something"));
    }
    ended?;
    Ok(bytes)
}

// Redcode texts, and their load files.
const LOADS: [(&[u8], &[u8]); 2] = [
    (b"s EQU 2+3\nDAT #0, #s*2\n", b"ORG 0\nDAT.F #0, #8\n"),
    (
        b"i FOR 2\nx&i DAT #i\nROF\nJMP x01\n",
        b"ORG 0\nDAT.F $0, #1\nDAT.F $0, #2\nJMP.B $-2, $0\n",
    ),
];

#[test]
fn asm_run_writes_the_load_file(rt: HostRuntime) -> Result<(), Fail> {
    let rules = small_rules()?;
    for &(text, load) in &LOADS {
        let mut out = outlet(rt.alloc())?;
        let ended = asm_run(rt.alloc(), text, &rules, &mut out);
        assert_eq!(rt; written(ended, out)?.as_slice(), load);
    }
    Ok(())
}

// Redcode texts, and why their only line does not assemble.
const FAULTS: [(&[u8], AsmKind); 3] = [
    (b"FOR 3\n", AsmKind::Expand(ExpandKind::ForWithoutRof)),
    (b"MOV 1\n", AsmKind::MissingOperand),
    (b"DAT 1/0\n", AsmKind::Value(EvalFault::DivisionByZero)),
];

// Returns why an assembly of `text` is refused, if it is. Out of memory is an error.
fn asm_fault(alloc: Global, text: &[u8]) -> Result<Option<RunFault>, Fail> {
    let rules = small_rules()?;
    let mut out = outlet(alloc)?;
    let ended = asm_run(alloc, text, &rules, &mut out);
    if !out.into_inner().is_empty() {
        return Err(Fail::from("a refused run wrote something"));
    }
    if ended == Err(RunFault::OutOfMemory) {
        return Err(Fail::from(RunFault::OutOfMemory));
    }
    Ok(ended.err())
}

#[test]
fn asm_run_names_the_fault(rt: HostRuntime) -> Result<(), Fail> {
    for &(text, kind) in &FAULTS {
        let want = RunFault::Asm(AsmFault { line: 1, kind });
        assert_eq!(rt; asm_fault(rt.alloc(), text)?, Some(want), "{kind:?}");
    }
    Ok(())
}

#[test]
fn settings_run_counts_the_settings(rt: HostRuntime) -> Result<(), Fail> {
    let mut out = outlet(rt.alloc())?;
    let ended = settings_run(rt.alloc(), TWO_CONSTANTS, &mut out);
    assert_eq!(rt;
        written(ended, out)?.as_slice(),
        b"vectors 6\nconstant A 2 1\nconstant B 3 9\n".as_slice()
    );
    Ok(())
}

// Settings of `TWO_CONSTANTS`, and the load files of their warriors.
const SETTINGS: [(WhichSetting, &[u8]); 2] = [
    (WhichSetting::Index(1), b"ORG 0\nDAT.F $0, $7\n"),
    (WhichSetting::Start, b"ORG 0\nDAT.F $1, $-7\n"),
];

#[test]
fn setting_run_writes_the_load_file(rt: HostRuntime) -> Result<(), Fail> {
    let rules = small_rules()?;
    for &(which, load) in &SETTINGS {
        let mut out = outlet(rt.alloc())?;
        let ended = setting_run(rt.alloc(), TWO_CONSTANTS, which, &rules, &mut out);
        assert_eq!(rt; written(ended, out)?.as_slice(), load, "{which:?}");
    }
    Ok(())
}

// A tie takes 20 cycles, of two turns each.
#[test]
fn fight_run_writes_the_outcome(rt: HostRuntime) -> Result<(), Fail> {
    let mut out = outlet(rt.alloc())?;
    let ended = fight_run(rt.alloc(), FIGHT_OF_IMPS, &mut out);
    assert_eq!(rt;
        written(ended, out)?.as_slice(),
        b"tie 1 turns 40\n".as_slice()
    );
    Ok(())
}

// The opponent dies in the second turn.
#[test]
fn duel_run_writes_the_outcome(rt: HostRuntime) -> Result<(), Fail> {
    let rules = small_rules()?;
    let texts = DuelTexts {
        candidate: IMP_TEXT,
        opponent: DAT_TEXT,
        rules: &rules,
        position: 8,
        first: Side::Candidate,
    };
    let mut out = outlet(rt.alloc())?;
    let ended = duel_run(rt.alloc(), &texts, &mut out);
    assert_eq!(rt;
        written(ended, out)?.as_slice(),
        b"win 3 turns 2\n".as_slice()
    );
    Ok(())
}

// What a tuning wrote, or its fault.
#[derive(Drop)]
struct Tuned {
    fault: Option<RunFault>,
    report: Vec<u8>,
    cert: Vec<u8>,
}

// Tunes a template. Out of memory is an error.
fn tune_with(
    alloc: Global,
    template: &[u8],
    opponents: &[Vec<u8>],
    capacity: u32,
) -> Result<Tuned, Fail>
    requires { (1 ≤ capacity) × (capacity ≤ MOST_CAPACITY) }
{
    let rules = small_rules()?;
    let mut report = outlet(alloc)?;
    let mut cert = outlet(alloc)?;
    let ended = tune_run(
        alloc,
        template,
        opponents,
        TWO_FIGHTS,
        &rules,
        capacity,
        &mut report,
        &mut cert,
    );
    let report = report.into_inner();
    let cert = cert.into_inner();
    if ended.is_err() && !(report.is_empty() && cert.is_empty()) {
        return Err(Fail::from("a refused run wrote something"));
    }
    if ended == Err(RunFault::OutOfMemory) {
        return Err(Fail::from(RunFault::OutOfMemory));
    }
    Ok(Tuned {
        fault: ended.err(),
        report,
        cert,
    })
}

#[test]
fn tune_run_writes_the_optimum(rt: HostRuntime) -> Result<(), Fail> {
    let opponents = both_opponents(rt.alloc())?;
    for case in &TUNINGS {
        let tuned = tune_with(rt.alloc(), case.template, opponents.as_slice(), 4096)?;
        assert_eq!(rt; tuned.report.as_slice(), case.report, "{}", case.name);
        assert_eq!(rt; tuned.cert.as_slice(), case.cert, "{}", case.name);
    }
    Ok(())
}

// Six settings with two warriors, and room for both: one plays both fights, and the other its tie.
#[test]
fn tune_run_with_a_cache_of_two(rt: HostRuntime) -> Result<(), Fail> {
    let opponents = both_opponents(rt.alloc())?;
    let tuned = tune_with(rt.alloc(), TWO_IN_TURN, opponents.as_slice(), 2)?;
    assert_eq!(rt;
        tuned.report.as_slice(),
        b"vectors 6\ncandidates 6\nbest 0\nconstants K=0\ntotal 4 of 6\nfights 3 of 12\n".as_slice()
    );
    assert_eq!(rt; tuned.cert.as_slice(), TWO_IN_TURN_CERT);
    Ok(())
}

// No setting fulfils the assertion; and without opponents each fight names one that does not exist.
#[test]
fn tune_run_names_the_fault(rt: HostRuntime) -> Result<(), Fail> {
    let opponents = both_opponents(rt.alloc())?;
    let template = b";@tune K 0 2 1 1\nMOV 0, 1\nDAT 1/K\n;assert K > 9";
    let tuned = tune_with(rt.alloc(), template, opponents.as_slice(), 4096)?;
    assert_eq!(rt; tuned.fault, Some(RunFault::NoCandidate));
    let tuned = tune_with(rt.alloc(), ONE_IMP, &[], 1)?;
    let fault = ScheduleFault {
        row: 1,
        kind: ScheduleFaultKind::NoSuchOpponent,
    };
    assert_eq!(rt; tuned.fault, Some(RunFault::Schedule(fault)));
    Ok(())
}

// What a check returned, and the line that it wrote.
#[derive(Drop)]
struct Checked {
    accepted: bool,
    line: Vec<u8>,
}

// Checks a certificate of `FOUR_EQUAL`. Out of memory is an error.
fn check_of(alloc: Global, cert: &[u8]) -> Result<Checked, Fail> {
    let rules = small_rules()?;
    let opponents = both_opponents(alloc)?;
    let mut out = outlet(alloc)?;
    let texts = opponents.as_slice();
    let ended = check_run(alloc, FOUR_EQUAL, texts, TWO_FIGHTS, &rules, cert, &mut out);
    let line = out.into_inner();
    if ended.is_err() && !line.is_empty() {
        return Err(Fail::from("a refused run wrote something"));
    }
    Ok(Checked {
        accepted: ended?,
        line,
    })
}

#[test]
fn check_run_writes_the_verdict(rt: HostRuntime) -> Result<(), Fail> {
    for case in &FOUR_EQUAL_CASES {
        let checked = check_of(rt.alloc(), case.text)?;
        assert_eq!(rt; checked.accepted, case.verdict == ACCEPTED, "{}", case.name);
        assert_eq!(rt; checked.line.as_slice(), case.line, "{}", case.name);
    }
    Ok(())
}
