//! A call that takes no memory: raw rules are checked.
use crate::fixtures::{ask, small_rules, use_up};
use std::test::Fail;
use tune_runs::{RawRules, rules_of};

#[test]
fn raw_rules_are_checked(rt: HostRuntime) -> Result<(), Fail> {
    use_up(rt.alloc())?;
    let raw = RawRules {
        core: 16,
        cycles: 20,
        tasks: 4,
        length: 4,
        distance: 4,
    };
    assert_eq!(rt; rules_of(raw)?, small_rules()?);
    ask(rt.alloc())
}
