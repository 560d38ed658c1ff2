//! Calls that make one arena: a tuning and a check of texts.
use crate::fixtures::{ONE_IMP, ONE_IMP_CERT, TWO_FIGHTS, both_opponents, large_rules};
use rc_instr::Outlet;
use std::test::Fail;
use tune_runs::{check_run, tune_run};

#[test]
fn a_tuning_has_one(rt: HostRuntime) -> Result<(), Fail> {
    let rules = large_rules()?;
    let opponents = both_opponents(rt.alloc())?;
    let mut report = Outlet::new(Vec::new(rt.alloc()));
    let mut cert = Outlet::new(Vec::new(rt.alloc()));
    tune_run(
        rt.alloc(),
        ONE_IMP,
        &opponents,
        TWO_FIGHTS,
        &rules,
        1,
        &mut report,
        &mut cert,
    )?;
    assert_eq!(rt; cert.into_inner().as_slice(), ONE_IMP_CERT);
    Ok(())
}

#[test]
fn a_check_has_one(rt: HostRuntime) -> Result<(), Fail> {
    let rules = large_rules()?;
    let opponents = both_opponents(rt.alloc())?;
    let mut out = Outlet::new(Vec::new(rt.alloc()));
    assert!(rt;
        check_run(
            rt.alloc(),
            ONE_IMP,
            &opponents,
            TWO_FIGHTS,
            &rules,
            ONE_IMP_CERT,
            &mut out,
        )?
    );
    Ok(())
}
