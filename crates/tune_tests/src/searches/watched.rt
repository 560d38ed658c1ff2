//! What searches tell their watchers.

use crate::fixtures::{FIRST_REFUSED, THREE_UNEQUAL, imp, inputs_of};
use crate::watchers::{Notes, after};
use std::test::Fail;
use tune_search::{Aim, Method, search_for};

// Each method, and how many fights it plays of two imps.
const METHODS: [(Method, u64); 2] = [
    (Method::Dropping { capacity: 1 }, 3),
    (Method::PlayingAll, 4),
];

// Setting 1 is visited first. Setting 0 does not assemble.
#[test]
fn a_search_tells_how_far_it_is(rt: HostRuntime) -> Result<(), Fail> {
    let inputs = inputs_of(rt.alloc(), FIRST_REFUSED)?;
    let aim = Aim::BEST;
    let best = Some(imp(1));
    for &(method, fights) in &METHODS {
        let mut notes = Notes::new();
        search_for(rt.alloc(), &inputs, aim, method, &mut notes)?;
        let want = [
            after(1, 3, 2, best),
            after(2, 3, 2, best),
            after(3, 3, fights, best),
            None,
        ];
        notes.expect(&rt, want, 3)?;
    }
    Ok(())
}

// Setting 1 is visited first, then setting 0, which comes before it. Setting 2 is dropped after one
// fight.
#[test]
fn a_search_for_two_settings_tells_the_first(rt: HostRuntime) -> Result<(), Fail> {
    let inputs = inputs_of(rt.alloc(), THREE_UNEQUAL)?;
    let aim = Aim { keep: 2, floor: 0 };
    let method = Method::Dropping { capacity: 1 };
    let mut notes = Notes::new();
    search_for(rt.alloc(), &inputs, aim, method, &mut notes)?;
    let first = Some(imp(0));
    let want = [
        after(1, 3, 2, Some(imp(1))),
        after(2, 3, 4, first),
        after(3, 3, 5, first),
        None,
    ];
    notes.expect(&rt, want, 3)
}
