//! A call that makes one arena: `check` leaves its fights to `check_for`.
use crate::fixtures::{ACCEPTED, ONE_IMP, ONE_IMP_CERT, inputs_under, large_rules};
use std::test::Fail;
use tune_cert::check;

#[test]
fn a_check_has_one(rt: HostRuntime) -> Result<(), Fail> {
    let inputs = inputs_under(rt.alloc(), ONE_IMP, large_rules()?)?;
    assert_eq!(rt; check(rt.alloc(), &inputs, ONE_IMP_CERT)?, ACCEPTED);
    Ok(())
}
