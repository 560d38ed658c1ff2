//! Searches with a floor, and for more settings than the best: each setting that assembles is an
//! imp, whose total is 4 (`fixtures`).
ghost use Rattle.tune_problem.specs.Ranking.{IsAim};

use crate::fixtures::{FOUR_EQUAL, THREE_UNEQUAL, imp, inputs_of};
use rc_instr::Outlet;
use std::alloc::Global;
use std::test::Fail;
use tune_cert::write_answer;
use tune_problem::{Answer, Best, Silent};
use tune_search::{Aim, Method, SearchFault, search_for};

const DROPPING: Method = Method::Dropping { capacity: 4096 };

// What a search finds: the ranking, the number of candidates and of fights, the setting with a
// copied row, and its rows, in a certificate with the floor 0.
#[derive(Drop)]
struct Summary {
    ranking: Vec<Best>,
    candidates: u32,
    fights: u64,
    copied: Option<u32>,
    rows: Vec<u8>,
}

fn searched(alloc: Global, text: &[u8], aim: Aim) -> Result<Summary, Fail>
    requires aim { IsAim aim }
{
    let inputs = inputs_of(alloc, text)?;
    let findings = search_for(alloc, &inputs, aim, DROPPING, &mut Silent)?;
    let ranking = findings.ranking.as_slice().to_vec(alloc)?;
    let (candidates, fights, copied) = (findings.candidates, findings.fights, findings.copied);
    let mut out = Outlet::new(Vec::with_capacity(alloc, 256)?);
    let answer = Answer::NoneFrom(0);
    write_answer(alloc, findings.version, answer, &findings.rows, &mut out)?;
    let rows = out.into_inner();
    Ok(Summary {
        ranking,
        candidates,
        fights,
        copied,
        rows,
    })
}

// Settings 0 and 1 play both fights. Setting 2 plays its tie: a cap of 4 does not beat setting 0.
#[test]
fn a_total_of_the_floor_leads(rt: HostRuntime) -> Result<(), Fail> {
    let aim = Aim { keep: 1, floor: 4 };
    let found = searched(rt.alloc(), THREE_UNEQUAL, aim)?;
    assert_eq!(rt; found.ranking.as_slice(), [imp(0)].as_slice());
    assert_eq!(rt; found.fights, 5);
    let want = b"cwcert,1,3\nnone,-,0\ncap,0,0:3 1:1\ncap,1,0:3 1:1\ncap,2,1:1\n".as_slice();
    assert_eq!(rt; found.rows.as_slice(), want);
    Ok(())
}

// The start setting plays all its fights, and the others learn the order of theirs: the tie of the
// second fight leaves them a cap of 4.
#[test]
fn no_setting_reaches_a_floor_of_5(rt: HostRuntime) -> Result<(), Fail> {
    let aim = Aim { keep: 1, floor: 5 };
    let found = searched(rt.alloc(), THREE_UNEQUAL, aim)?;
    assert!(rt; found.ranking.as_slice().is_empty());
    assert_eq!(rt; (found.candidates, found.fights), (3, 4));
    let want = b"cwcert,1,3\nnone,-,0\ncap,0,1:1\ncap,1,0:3 1:1\ncap,2,1:1\n".as_slice();
    assert_eq!(rt; found.rows.as_slice(), want);
    Ok(())
}

// All settings have the warrior of the third, the start setting, which does not lead: the first
// does not copy its row.
#[test]
fn no_row_is_copied_below_a_floor(rt: HostRuntime) -> Result<(), Fail> {
    let aim = Aim { keep: 1, floor: 5 };
    let found = searched(rt.alloc(), FOUR_EQUAL, aim)?;
    assert!(rt; found.ranking.as_slice().is_empty());
    assert!(rt; found.copied.is_none());
    let want = b"cwcert,1,4\nnone,-,0\nsame,0,2\nsame,1,2\ncap,2,0:3 1:1\nsame,3,2\n".as_slice();
    assert_eq!(rt; found.rows.as_slice(), want);
    Ok(())
}

#[test]
fn nothing_assembles_below_a_floor(rt: HostRuntime) -> Result<(), Fail> {
    let inputs = inputs_of(rt.alloc(), b";@tune K 0 1 1 0\nDAT K/0")?;
    let aim = Aim { keep: 1, floor: 5 };
    match search_for(rt.alloc(), &inputs, aim, DROPPING, &mut Silent) {
        Err(fault) => assert_eq!(rt; fault, SearchFault::NoCandidate),
        Ok(_) => assert!(rt; false),
    }
    Ok(())
}

// The first two of the ranking are settings 0 and 1. Setting 1 starts, 0 comes before it, and 2
// contends no more after its tie.
#[test]
fn the_first_two_are_kept(rt: HostRuntime) -> Result<(), Fail> {
    let aim = Aim { keep: 2, floor: 0 };
    let found = searched(rt.alloc(), THREE_UNEQUAL, aim)?;
    assert_eq!(rt; found.ranking.as_slice(), [imp(0), imp(1)].as_slice());
    assert_eq!(rt; found.fights, 5);
    Ok(())
}

// All settings share the fights of the third, and rank with its total.
#[test]
fn settings_that_share_are_ranked(rt: HostRuntime) -> Result<(), Fail> {
    let aim = Aim { keep: 10, floor: 0 };
    let found = searched(rt.alloc(), FOUR_EQUAL, aim)?;
    assert_eq!(rt;
        found.ranking.as_slice(),
        [imp(0), imp(1), imp(2), imp(3)].as_slice()
    );
    assert_eq!(rt; (found.fights, found.copied), (2, Some(0)));
    Ok(())
}
