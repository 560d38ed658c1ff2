//! What checks tell their watchers.

use crate::fixtures::{
    FIRST_REFUSED, FIRST_REFUSED_CERT, FOUR_EQUAL, FOUR_EQUAL_CERT, THREE_UNEQUAL,
    THREE_UNEQUAL_NONE_FROM_5, imp, inputs_of,
};
use crate::watchers::{Notes, after};
use std::test::Fail;
use tune_cert::{Demand, Judgement, Share, check_for};

fn accepts(judgement: &Judgement) -> bool {
    match judgement {
        Judgement::Accepted { .. } => true,
        Judgement::Rejected { .. } => false,
    }
}

// Rows that refer to other settings are checked last, and no fight is played for them.
#[test]
fn a_check_tells_how_far_it_is(rt: HostRuntime) -> Result<(), Fail> {
    let inputs = inputs_of(rt.alloc(), FOUR_EQUAL)?;
    let mut notes = Notes::new();
    let judgement = check_for(
        rt.alloc(),
        &inputs,
        Demand::none(),
        Share::whole(),
        FOUR_EQUAL_CERT,
        &mut notes,
    )?;
    assert!(rt; accepts(&judgement));
    let best = Some(imp(0));
    let want = [
        after(1, 4, 2, best),
        after(2, 4, 4, best),
        after(3, 4, 4, best),
        after(4, 4, 4, best),
    ];
    notes.expect(&rt, want, 4)
}

// The second of two shares has settings 1 and 2.
#[test]
fn a_check_of_a_share_tells_how_far_it_is(rt: HostRuntime) -> Result<(), Fail> {
    let inputs = inputs_of(rt.alloc(), FIRST_REFUSED)?;
    let share = Share {
        number: 2,
        shares: 2,
    };
    let mut notes = Notes::new();
    let judgement = check_for(
        rt.alloc(),
        &inputs,
        Demand::none(),
        share,
        FIRST_REFUSED_CERT,
        &mut notes,
    )?;
    assert!(rt; accepts(&judgement));
    let best = Some(imp(1));
    let want = [after(1, 2, 2, best), after(2, 2, 3, best), None, None];
    notes.expect(&rt, want, 2)
}

// Such a certificate names no best setting.
#[test]
fn a_check_without_a_best_setting_tells_none(rt: HostRuntime) -> Result<(), Fail> {
    let inputs = inputs_of(rt.alloc(), THREE_UNEQUAL)?;
    let demand = Demand {
        keep: None,
        floor: Some(5),
    };
    let mut notes = Notes::new();
    check_for(
        rt.alloc(),
        &inputs,
        demand,
        Share::whole(),
        THREE_UNEQUAL_NONE_FROM_5,
        &mut notes,
    )?;
    let want = [
        after(1, 3, 1, None),
        after(2, 3, 3, None),
        after(3, 3, 4, None),
        None,
    ];
    notes.expect(&rt, want, 3)
}

// A wrong certificate of two imps, and how many fights a check plays until it rejects it.
struct WrongCase {
    name: &'static str,
    cert: &'static [u8],
    fights: u64,
}

const WRONG: [WrongCase; 3] = [
    WrongCase {
        name: "no fight is played after one with other points",
        cert: b"cwcert,1,2\nbest,0,2\ncap,0,0:1 1:1\nrefused,1,-\n",
        fights: 1,
    },
    WrongCase {
        name: "no fight is played of a row that lists one twice",
        cert: b"cwcert,1,2\nbest,0,4\ncap,0,0:3 1:1\ncap,1,0:3 0:3\n",
        fights: 2,
    },
    WrongCase {
        name: "no fight is played if the best row lacks one",
        cert: b"cwcert,1,2\nbest,0,4\ncap,0,0:3\ncap,1,0:3 1:1\n",
        fights: 0,
    },
];

#[test]
fn a_check_stops_at_what_is_wrong(rt: HostRuntime) -> Result<(), Fail> {
    let inputs = inputs_of(rt.alloc(), b";@tune K 0 1 1 0\nMOV 0, 1\nDAT K")?;
    for case in &WRONG {
        let mut notes = Notes::new();
        check_for(
            rt.alloc(),
            &inputs,
            Demand::none(),
            Share::whole(),
            case.cert,
            &mut notes,
        )?;
        assert_eq!(rt; notes.fights, case.fights, "{}", case.name);
    }
    Ok(())
}
