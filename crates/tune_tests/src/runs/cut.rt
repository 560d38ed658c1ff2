//! Runs on writers that take some pieces of the text and then fail, or then take no byte.
use crate::fixtures::{
    FIGHT_OF_IMPS, THREE_UNEQUAL, THREE_UNEQUAL_CERT, THREE_UNEQUAL_REPORT, TWO_FIGHTS,
    both_opponents, small_rules,
};
use crate::writers::{Failing, PIECE};
use rc_instr::Outlet;
use std::alloc::Global;
use std::test::Fail;
use tune_runs::{RunFault, asm_run, check_run, fight_run, tune_run};

// Returns whether a run that writes `text` ended as it should on a writer that takes `writes`
// writes: with `Write` and the first pieces of the text, or with the whole text.
fn is_cut(ended: Result<(), RunFault>, taken: &[u8], writes: usize, text: &[u8]) -> bool {
    let most = writes.saturating_mul(PIECE);
    if most < text.len() {
        ended == Err(RunFault::Write) && taken == &text[..most]
    } else {
        ended == Ok(()) && taken == text
    }
}

#[test]
fn an_assembly_is_cut(rt: HostRuntime) -> Result<(), Fail> {
    let rules = small_rules()?;
    for writes in 0..4usize {
        for fails in [true, false] {
            let mut out = Outlet::new(Failing::after(rt.alloc(), writes, fails));
            let result = asm_run(rt.alloc(), b"DAT #0, #8\n", &rules, &mut out);
            let bytes = out.into_inner().taken;
            let text = b"ORG 0\nDAT.F #0, #8\n";
            assert!(rt; is_cut(result, bytes.as_slice(), writes, text), "{writes}");
        }
    }
    Ok(())
}

#[test]
fn a_fight_is_cut(rt: HostRuntime) {
    for writes in 0..4usize {
        for fails in [true, false] {
            let mut out = Outlet::new(Failing::after(rt.alloc(), writes, fails));
            let result = fight_run(rt.alloc(), FIGHT_OF_IMPS, &mut out);
            let bytes = out.into_inner().taken;
            assert!(rt;
                is_cut(result, bytes.as_slice(), writes, b"tie 1 turns 40\n"),
                "{writes}"
            );
        }
    }
}

// Checks the certificate of `THREE_UNEQUAL` on a writer. Returns the result and what was written.
fn checked(alloc: Global, writer: Failing) -> Result<(Result<(), RunFault>, Vec<u8>), Fail> {
    let rules = small_rules()?;
    let opponents = both_opponents(alloc)?;
    let mut out = Outlet::new(writer);
    let texts = opponents.as_slice();
    let result = check_run(
        alloc,
        THREE_UNEQUAL,
        texts,
        TWO_FIGHTS,
        &rules,
        THREE_UNEQUAL_CERT,
        &mut out,
    );
    let bytes = out.into_inner().taken;
    match result {
        Ok(_) => Ok((Ok(()), bytes)),
        Err(fault) => Ok((Err(fault), bytes)),
    }
}

#[test]
fn a_check_is_cut(rt: HostRuntime) -> Result<(), Fail> {
    for writes in 0..5usize {
        for fails in [true, false] {
            let (result, bytes) = checked(rt.alloc(), Failing::after(rt.alloc(), writes, fails))?;
            let text = b"accepted best 0 total 4\n";
            assert!(rt; is_cut(result, bytes.as_slice(), writes, text), "{writes}");
        }
    }
    Ok(())
}

// What a tuning returned, and what it wrote as a report and as a certificate.
type Tuned = (Result<(), RunFault>, Vec<u8>, Vec<u8>);

// Tunes `THREE_UNEQUAL` on two writers.
fn tuned(alloc: Global, report: Failing, cert: Failing) -> Result<Tuned, Fail> {
    let rules = small_rules()?;
    let opponents = both_opponents(alloc)?;
    let mut report = Outlet::new(report);
    let mut cert = Outlet::new(cert);
    let texts = opponents.as_slice();
    let result = tune_run(
        alloc,
        THREE_UNEQUAL,
        texts,
        TWO_FIGHTS,
        &rules,
        4096,
        &mut report,
        &mut cert,
    );
    Ok((result, report.into_inner().taken, cert.into_inner().taken))
}

// A certificate of 58 bytes, which takes nine pieces, cut after each: the report is begun only
// after the last.
#[test]
fn a_certificate_is_cut(rt: HostRuntime) -> Result<(), Fail> {
    for writes in 0..10usize {
        for fails in [true, false] {
            let cert = Failing::after(rt.alloc(), writes, fails);
            let report = Failing::after(rt.alloc(), 100, true);
            let (result, report, cert) = tuned(rt.alloc(), report, cert)?;
            assert!(rt;
                is_cut(result, cert.as_slice(), writes, THREE_UNEQUAL_CERT),
                "{writes}"
            );
            assert_eq!(rt; report.is_empty(), writes < 9, "{writes}");
        }
    }
    Ok(())
}

// A certificate that is taken whole, but cannot be flushed: the report is not begun.
#[test]
fn a_certificate_is_not_flushed(rt: HostRuntime) -> Result<(), Fail> {
    let cert = Failing::at_flush(rt.alloc(), 100);
    let report = Failing::after(rt.alloc(), 100, true);
    let (result, report, cert) = tuned(rt.alloc(), report, cert)?;
    assert_eq!(rt; result, Err(RunFault::Write));
    assert_eq!(rt; cert.as_slice(), THREE_UNEQUAL_CERT);
    assert!(rt; report.is_empty());
    Ok(())
}

// A report of 71 bytes, which takes eleven pieces, cut after each: the certificate is written whole
// before.
#[test]
fn a_report_is_cut(rt: HostRuntime) -> Result<(), Fail> {
    for writes in 0..12usize {
        for fails in [true, false] {
            let cert = Failing::after(rt.alloc(), 100, true);
            let report = Failing::after(rt.alloc(), writes, fails);
            let (result, report, cert) = tuned(rt.alloc(), report, cert)?;
            assert!(rt;
                is_cut(result, report.as_slice(), writes, THREE_UNEQUAL_REPORT),
                "{writes}"
            );
            assert_eq!(rt; cert.as_slice(), THREE_UNEQUAL_CERT, "{writes}");
        }
    }
    Ok(())
}
