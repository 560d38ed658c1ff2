//! Calls that take no memory: findings are looked at.
use crate::fixtures::{THREE_UNEQUAL, ask, imp, inputs_of, use_up};
use std::test::Fail;
use tune_problem::contends;
use tune_search::{Aim, Method, Silent, search_for};

#[test]
fn findings_are_looked_at(rt: HostRuntime) -> Result<(), Fail> {
    let inputs = inputs_of(rt.alloc(), THREE_UNEQUAL)?;
    let aim = Aim { keep: 2, floor: 0 };
    let findings = search_for(rt.alloc(), &inputs, aim, Method::PlayingAll, &mut Silent)?;
    use_up(rt.alloc())?;
    let ranking = findings.ranking.as_slice();
    assert_eq!(rt; ranking, [imp(0), imp(1)].as_slice());
    assert!(rt; !contends(aim, 4, 2, ranking));
    assert_eq!(rt; findings.ranking.first(), Some(imp(0)));
    assert!(rt; findings.into_found().is_some());
    ask(rt.alloc())
}
