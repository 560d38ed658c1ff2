//! A call that makes one arena: `search` leaves its fights to `search_for`.
use crate::fixtures::{ONE_IMP, inputs_under, large_rules};
use std::test::Fail;
use tune_search::search;

#[test]
fn a_search_has_one(rt: HostRuntime) -> Result<(), Fail> {
    let inputs = inputs_under(rt.alloc(), ONE_IMP, large_rules()?)?;
    assert_eq!(rt; search(rt.alloc(), &inputs, 1)?.fights, 2);
    Ok(())
}
