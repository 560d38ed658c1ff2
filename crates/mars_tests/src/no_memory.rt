//! Calls that take no memory, when none is left.
//!
//! `make test` also runs these tests with every request for memory refused that comes after
//! `use_up` (gate/refuse/growth.py). They then end at their last line, which makes a request.
use crate::fights::{AT_EIGHT, TWO_FIGHTS};
use crate::machine::{Played, play_and_reset, rules_of};
use crate::steps::step_and_reset;
use crate::warriors::{DAT, IMP, SPLITS_AND_JUMPS};
use csv::ByteRecord;
use mars_core::{Arena, PackedCells, PlainCells, Side};
use mars_fight::{Schedule, keeps_distance, play};
use rc_instr::read_loadfile;
use std::alloc::{AllocError, Global};
use std::test::Fail;
use tables::{Records, four_fields, three_fields};

// Makes a request that is larger than all others.
fn use_up(alloc: Global) -> Result<(), AllocError> {
    drop(Vec::<u8>::with_capacity(alloc, 16_777_216)?);
    Ok(())
}

// Makes a small request.
fn ask(alloc: Global) -> Result<(), Fail> {
    drop(Vec::<u8>::with_capacity(alloc, 1)?);
    Ok(())
}

// On each kind of cells two imps tie, and a warrior that adds tasks ties with an imp.
#[test]
fn fights_are_played(rt: HostRuntime) -> Result<(), Fail> {
    let rules = rules_of(16, 20, 4)?;
    let imp = read_loadfile(rt.alloc(), IMP, &rules)?;
    let splits = read_loadfile(rt.alloc(), SPLITS_AND_JUMPS, &rules)?;
    let mut plain = Arena::<PlainCells>::try_new(rt.alloc(), &rules)?;
    let mut packed = Arena::<PackedCells>::try_new(rt.alloc(), &rules)?;
    use_up(rt.alloc())?;
    let tie = Played {
        points: 1,
        turns: 40,
        reset: 16,
    };
    let first = Side::Candidate;
    assert_eq!(rt; play_and_reset(&mut plain, &imp, &imp, first), tie);
    assert_eq!(rt; play_and_reset(&mut plain, &splits, &imp, first), tie);
    assert_eq!(rt; play_and_reset(&mut packed, &imp, &imp, first), tie);
    assert_eq!(rt; play_and_reset(&mut packed, &splits, &imp, first), tie);
    assert_eq!(rt; play(&mut packed, &imp, &imp, &AT_EIGHT), 1);
    assert_eq!(rt; (plain.fights(), packed.fights()), (2, 3));
    ask(rt.alloc())
}

// The candidate's step adds a task.
#[test]
fn steps_are_made(rt: HostRuntime) -> Result<(), Fail> {
    let rules = rules_of(16, 20, 4)?;
    let splits = read_loadfile(rt.alloc(), SPLITS_AND_JUMPS, &rules)?;
    let dat = read_loadfile(rt.alloc(), DAT, &rules)?;
    let mut plain = Arena::<PlainCells>::try_new(rt.alloc(), &rules)?;
    let mut packed = Arena::<PackedCells>::try_new(rt.alloc(), &rules)?;
    use_up(rt.alloc())?;
    let on_plain = step_and_reset(&mut plain, &splits, &dat, 0);
    let on_packed = step_and_reset(&mut packed, &splits, &dat, 0);
    assert_eq!(rt; (on_plain.task, on_packed.task), (Some(1), Some(1)));
    assert_eq!(rt; (plain.turns(), packed.turns()), (0, 0));
    ask(rt.alloc())
}

#[test]
fn schedules_are_looked_at(rt: HostRuntime) -> Result<(), Fail> {
    let rules = rules_of(16, 20, 4)?;
    let schedule = Schedule::read(rt.alloc(), TWO_FIGHTS, 2, &rules)?;
    use_up(rt.alloc())?;
    assert!(rt; schedule.fits(&rules, 2) && schedule.plain());
    assert_eq!(rt; (schedule.fights().len(), schedule.greatest()), (2, 6));
    assert!(rt; keeps_distance(&rules, 8));
    ask(rt.alloc())
}

#[test]
fn fields_are_looked_at(rt: HostRuntime) -> Result<(), Fail> {
    let mut records = Records::new(rt.alloc(), b"1,2,3\n1,2,3,4\n");
    let mut three = ByteRecord::new(rt.alloc());
    let mut four = ByteRecord::new(rt.alloc());
    assert!(rt; records.read(&mut three)? && records.read(&mut four)?);
    use_up(rt.alloc())?;
    assert!(rt; three_fields(&three).is_some() && four_fields(&three).is_none());
    assert!(rt; three_fields(&four).is_none() && four_fields(&four).is_some());
    ask(rt.alloc())
}
