//! `check_for` with a demand, or of a share, worked out by hand: each setting that assembles is an
//! imp, whose total is 4 (`fixtures`). A row that lists the tie alone has a cap of 4, and one that
//! lists the win alone a cap of 6. In the certificate of three warriors the last has not played its
//! first fight.

use crate::fixtures::{
    FOUR_EQUAL, FOUR_EQUAL_CERT, THREE_UNEQUAL, THREE_UNEQUAL_CERT, THREE_UNEQUAL_NONE_FROM_5, imp,
    inputs_of,
};
use std::alloc::Global;
use std::test::Fail;
use tune_cert::{Demand, Judgement, Reason, Share, Silent, check_for};
use tune_problem::{Answer, Best, Inputs};

// What a check says: the answer and the ranking, or the record and the reason.
#[derive(Drop)]
struct Said {
    answer: Option<Answer>,
    ranking: Vec<Best>,
    rejected: Option<(u64, Reason)>,
}

fn judged(
    alloc: Global,
    inputs: &Inputs,
    keep: Option<u32>,
    floor: Option<u32>,
    share: Share,
    cert: &[u8],
) -> Result<Said, Fail> {
    let demand = Demand { keep, floor };
    match check_for(alloc, inputs, demand, share, cert, &mut Silent)? {
        Judgement::Accepted { answer, ranking } => Ok(Said {
            answer: Some(answer),
            ranking: ranking.as_slice().to_vec(alloc)?,
            rejected: None,
        }),
        Judgement::Rejected { row, reason } => Ok(Said {
            answer: None,
            ranking: Vec::new(alloc),
            rejected: Some((row, reason)),
        }),
    }
}

// Returns the ranking that a certificate shows. A certificate that is not accepted with the first
// setting is an error.
fn shown(
    alloc: Global,
    inputs: &Inputs,
    keep: Option<u32>,
    cert: &[u8],
) -> Result<Vec<Best>, Fail> {
    let said = judged(alloc, inputs, keep, None, Share::whole(), cert)?;
    if said.answer == Some(Answer::Best(imp(0))) {
        return Ok(said.ranking);
    }
    Err(Fail::from("the first setting is not shown as the best"))
}

// Returns at which record a check of all rows rejects a certificate, and why.
fn rejected(
    alloc: Global,
    inputs: &Inputs,
    keep: Option<u32>,
    floor: Option<u32>,
    cert: &[u8],
) -> Result<Option<(u64, Reason)>, Fail> {
    let said = judged(alloc, inputs, keep, floor, Share::whole(), cert)?;
    Ok(said.rejected)
}

// Without `keep` there is no ranking.
#[test]
fn the_first_settings_are_shown(rt: HostRuntime) -> Result<(), Fail> {
    let inputs = inputs_of(rt.alloc(), THREE_UNEQUAL)?;
    assert!(rt;
        shown(rt.alloc(), &inputs, None, THREE_UNEQUAL_CERT)?
            .as_slice()
            .is_empty()
    );
    assert_eq!(rt;
        shown(rt.alloc(), &inputs, Some(1), THREE_UNEQUAL_CERT)?.as_slice(),
        [imp(0)].as_slice()
    );
    assert_eq!(rt;
        shown(rt.alloc(), &inputs, Some(2), THREE_UNEQUAL_CERT)?.as_slice(),
        [imp(0), imp(1)].as_slice()
    );
    Ok(())
}

// With two settings ranked, a third one may still come.
#[test]
fn fewer_settings_than_are_kept_leave_room(rt: HostRuntime) -> Result<(), Fail> {
    let inputs = inputs_of(rt.alloc(), THREE_UNEQUAL)?;
    assert_eq!(rt;
        rejected(rt.alloc(), &inputs, Some(3), None, THREE_UNEQUAL_CERT)?,
        Some((4, Reason::CapTooHigh))
    );
    Ok(())
}

// Setting 1 may total 4, and then comes before setting 2. It does not come before setting 0.
#[test]
fn a_cap_that_contends_is_too_high(rt: HostRuntime) -> Result<(), Fail> {
    let inputs = inputs_of(rt.alloc(), THREE_UNEQUAL)?;
    let cert: &[u8] = b"cwcert,1,3\nbest,0,4\ncap,0,0:3 1:1\ncap,1,1:1\ncap,2,0:3 1:1\n";
    assert_eq!(rt;
        shown(rt.alloc(), &inputs, Some(1), cert)?.as_slice(),
        [imp(0)].as_slice()
    );
    assert_eq!(rt;
        rejected(rt.alloc(), &inputs, Some(2), None, cert)?,
        Some((3, Reason::CapTooHigh))
    );
    Ok(())
}

// A `same` row ranks with the total of the row to which it refers.
#[test]
fn equal_warriors_are_ranked(rt: HostRuntime) -> Result<(), Fail> {
    let inputs = inputs_of(rt.alloc(), FOUR_EQUAL)?;
    assert_eq!(rt;
        shown(rt.alloc(), &inputs, Some(10), FOUR_EQUAL_CERT)?.as_slice(),
        [imp(0), imp(1), imp(2), imp(3)].as_slice()
    );
    assert_eq!(rt;
        shown(rt.alloc(), &inputs, Some(3), FOUR_EQUAL_CERT)?.as_slice(),
        [imp(0), imp(1), imp(2)].as_slice()
    );
    Ok(())
}

// The cap of setting 3 is 4, which does not beat setting 2. Setting 1 refers to that row, and by
// its smaller index the same cap beats setting 2.
#[test]
fn a_same_row_contends_as_its_own_setting(rt: HostRuntime) -> Result<(), Fail> {
    let inputs = inputs_of(rt.alloc(), FOUR_EQUAL)?;
    let cert: &[u8] = b"cwcert,1,4\nbest,0,4\ncap,0,0:3 1:1\nsame,1,3\ncap,2,0:3 1:1\ncap,3,1:1\n";
    assert_eq!(rt;
        shown(rt.alloc(), &inputs, Some(1), cert)?.as_slice(),
        [imp(0)].as_slice()
    );
    assert_eq!(rt;
        rejected(rt.alloc(), &inputs, Some(2), None, cert)?,
        Some((3, Reason::CapTooHigh))
    );
    Ok(())
}

// Settings below the floor are not ranked, and need not be shown.
#[test]
fn a_floor_leaves_less_to_show(rt: HostRuntime) -> Result<(), Fail> {
    let inputs = inputs_of(rt.alloc(), THREE_UNEQUAL)?;
    let reached = judged(
        rt.alloc(),
        &inputs,
        Some(2),
        Some(4),
        Share::whole(),
        THREE_UNEQUAL_CERT,
    )?;
    assert_eq!(rt; reached.ranking.as_slice(), [imp(0), imp(1)].as_slice());
    let missed = judged(
        rt.alloc(),
        &inputs,
        Some(3),
        Some(5),
        Share::whole(),
        THREE_UNEQUAL_CERT,
    )?;
    assert_eq!(rt; missed.answer, Some(Answer::Best(imp(0))));
    assert!(rt; missed.ranking.as_slice().is_empty());
    Ok(())
}

#[test]
fn no_setting_reaches_the_floor(rt: HostRuntime) -> Result<(), Fail> {
    let inputs = inputs_of(rt.alloc(), THREE_UNEQUAL)?;
    let cert = THREE_UNEQUAL_NONE_FROM_5;
    for &keep in &[None, Some(1), Some(2), Some(3)] {
        let said = judged(rt.alloc(), &inputs, keep, Some(5), Share::whole(), cert)?;
        assert_eq!(rt; said.answer, Some(Answer::NoneFrom(5)), "{keep:?}");
        assert!(rt; said.ranking.as_slice().is_empty(), "{keep:?}");
    }
    assert_eq!(rt;
        rejected(rt.alloc(), &inputs, None, Some(4), cert)?,
        Some((1, Reason::BestRow))
    );
    assert_eq!(rt;
        rejected(rt.alloc(), &inputs, None, Some(6), cert)?,
        Some((1, Reason::BestRow))
    );
    assert_eq!(rt;
        rejected(rt.alloc(), &inputs, Some(2), None, cert)?,
        Some((1, Reason::Malformed))
    );
    Ok(())
}

// A cap that is the floor reaches it.
#[test]
fn a_cap_of_the_floor_is_too_high(rt: HostRuntime) -> Result<(), Fail> {
    let inputs = inputs_of(rt.alloc(), THREE_UNEQUAL)?;
    let cert: &[u8] = b"cwcert,1,3\nnone,-,4\ncap,0,1:1\ncap,1,1:1\ncap,2,1:1\n";
    assert_eq!(rt;
        rejected(rt.alloc(), &inputs, None, Some(4), cert)?,
        Some((2, Reason::CapTooHigh))
    );
    Ok(())
}

// Of five shares of three settings some are empty.
#[test]
fn each_share_says_what_the_whole_does(rt: HostRuntime) -> Result<(), Fail> {
    let inputs = inputs_of(rt.alloc(), THREE_UNEQUAL)?;
    for number in 1..6 {
        let share = Share { number, shares: 5 };
        let said = judged(
            rt.alloc(),
            &inputs,
            Some(2),
            None,
            share,
            THREE_UNEQUAL_CERT,
        )?;
        assert_eq!(rt; said.answer, Some(Answer::Best(imp(0))), "{number}/5");
        assert_eq!(rt;
            said.ranking.as_slice(),
            [imp(0), imp(1)].as_slice(),
            "{number}/5"
        );
    }
    Ok(())
}

// Settings 0 and 1 are of the first share. The second takes the points of setting 0 as listed.
#[test]
fn a_share_plays_the_fights_of_its_own_rows(rt: HostRuntime) -> Result<(), Fail> {
    let inputs = inputs_of(rt.alloc(), FOUR_EQUAL)?;
    let cert: &[u8] = b"cwcert,1,4\nbest,0,4\ncap,0,0:1 1:3\nsame,1,2\ncap,2,0:3 1:1\nsame,3,2\n";
    for number in 1..3 {
        let share = Share { number, shares: 2 };
        let said = judged(rt.alloc(), &inputs, None, None, share, cert)?;
        let want = if number == 1 {
            Some((2, Reason::WrongPoints))
        } else {
            None
        };
        assert_eq!(rt; said.rejected, want, "{number}/2");
    }
    Ok(())
}
