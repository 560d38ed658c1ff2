//! Tests of `mars_fight`: schedules and fights in a core of 16 cells with distance 4, and the texts
//! of faults.
use crate::machine::rules_of;
use crate::warriors::{COPIER, IMP};
use mars_core::{Arena, PackedCells, Side};
use mars_fight::{Fight, Schedule, ScheduleFault, ScheduleFaultKind as Kind, keeps_distance, play};
use rc_instr::{Rules, read_loadfile};
use std::alloc::{AllocError, Global};
use std::test::Fail;

pub(crate) const AT_EIGHT: Fight = Fight {
    opponent: 0,
    position: 8,
    first: Side::Candidate,
    weight: 1,
};

pub(crate) const TWO_FIGHTS: &[u8] = b"opponent,position,first\n0,8,c\n1,11,o\n";

#[test]
fn a_schedule_is_read(rt: HostRuntime) -> Result<(), Fail> {
    let rules = rules_of(16, 20, 4)?;
    let schedule = Schedule::read(rt.alloc(), TWO_FIGHTS, 2, &rules)?;
    let fights = [
        AT_EIGHT,
        Fight {
            opponent: 1,
            position: 11,
            first: Side::Opponent,
            weight: 1,
        },
    ];
    assert_eq!(rt; schedule.fights(), fights.as_slice());
    assert_eq!(rt; (schedule.plain(), schedule.greatest()), (true, 6));
    Ok(())
}

// A number of opponents and rules of `core` and `distance`, and whether `TWO_FIGHTS` fits them.
struct Fit {
    name: &'static str,
    core: u32,
    distance: u32,
    opponents: u32,
    want: bool,
}

const FITS: [Fit; 10] = [
    Fit {
        name: "its own rules and opponents",
        core: 16,
        distance: 4,
        opponents: 2,
        want: true,
    },
    Fit {
        name: "the most opponents",
        core: 16,
        distance: 4,
        opponents: 64,
        want: true,
    },
    Fit {
        name: "one opponent too few",
        core: 16,
        distance: 4,
        opponents: 1,
        want: false,
    },
    Fit {
        name: "no opponents",
        core: 16,
        distance: 4,
        opponents: 0,
        want: false,
    },
    Fit {
        name: "a distance that position 11 has",
        core: 16,
        distance: 5,
        opponents: 2,
        want: true,
    },
    Fit {
        name: "a distance above that of position 11",
        core: 16,
        distance: 6,
        opponents: 2,
        want: false,
    },
    Fit {
        name: "a core in which position 11 has the distance",
        core: 15,
        distance: 4,
        opponents: 2,
        want: true,
    },
    Fit {
        name: "a core in which position 11 is too near",
        core: 14,
        distance: 4,
        opponents: 2,
        want: false,
    },
    Fit {
        name: "a distance that position 8 has",
        core: 8000,
        distance: 8,
        opponents: 2,
        want: true,
    },
    Fit {
        name: "a distance above that of position 8",
        core: 8000,
        distance: 9,
        opponents: 2,
        want: false,
    },
];

#[test]
fn a_schedule_fits_rules_and_opponents(rt: HostRuntime) -> Result<(), Fail> {
    let rules = rules_of(16, 20, 4)?;
    let schedule = Schedule::read(rt.alloc(), TWO_FIGHTS, 2, &rules)?;
    for case in &FITS {
        let rules = Rules::try_new(case.core, 20, 4, 4, case.distance)?;
        assert_eq!(rt;
            schedule.fits(&rules, case.opponents),
            case.want,
            "{}",
            case.name
        );
    }
    Ok(())
}

#[test]
fn positions_keep_the_distance_both_ways_round(rt: HostRuntime) -> Result<(), Fail> {
    let rules = rules_of(16, 20, 4)?;
    for &(position, want) in &[(0, false), (3, false), (4, true), (12, true), (13, false)] {
        assert_eq!(rt; keeps_distance(&rules, position), want, "{position}");
    }
    Ok(())
}

// Returns the header, `fights` equal records, and `last`.
fn long_text(alloc: Global, fights: u32, last: &str) -> Result<String, AllocError> {
    let mut text = String::new(alloc);
    text.push_str("opponent,position,first\n")?;
    for _ in 0..fights {
        text.push_str("0,8,c\n")?;
    }
    text.push_str(last)?;
    Ok(text)
}

// A schedule of `fights` records `0,8,c` and the text `last`, and its fault if it is refused.
struct Long {
    name: &'static str,
    fights: u32,
    last: &'static str,
    want: Option<ScheduleFault>,
}

const LONG: [Long; 5] = [
    Long {
        name: "the last of the most fights is another one",
        fights: 9999,
        last: "1,8,o",
        want: None,
    },
    Long {
        name: "the most fights",
        fights: 10_000,
        last: "",
        want: None,
    },
    Long {
        name: "one fight too many",
        fights: 10_000,
        last: "1,8,o",
        want: Some(ScheduleFault {
            row: 10_001,
            kind: Kind::TooMany,
        }),
    },
    Long {
        name: "one record too many that is malformed",
        fights: 10_000,
        last: "x",
        want: Some(ScheduleFault {
            row: 10_001,
            kind: Kind::TooMany,
        }),
    },
    Long {
        name: "a bad position before a fight too many",
        fights: 9999,
        last: "0,3,c\n0,8,c\n0,8,c\n",
        want: Some(ScheduleFault {
            row: 10_000,
            kind: Kind::BadPosition,
        }),
    },
];

#[test]
fn a_schedule_has_at_most_ten_thousand_fights(rt: HostRuntime) -> Result<(), Fail> {
    let rules = rules_of(16, 20, 4)?;
    for case in &LONG {
        let text = long_text(rt.alloc(), case.fights, case.last)?;
        let found = match Schedule::read(rt.alloc(), text.as_bytes(), 2, &rules) {
            Ok(_) => None,
            Err(fault) => Some(fault),
        };
        assert_eq!(rt; found, case.want, "{}", case.name);
    }
    Ok(())
}

#[test]
fn a_schedule_may_have_weights(rt: HostRuntime) -> Result<(), Fail> {
    let rules = rules_of(16, 20, 4)?;
    let text = "opponent,position,first,weight\n0,8,c,2\n1,11,o,1000\n";
    let schedule = Schedule::read(rt.alloc(), text.as_bytes(), 2, &rules)?;
    assert_eq!(rt; (schedule.plain(), schedule.greatest()), (false, 3006));
    Ok(())
}

#[test]
fn one_arena_for_many_fights(rt: HostRuntime) -> Result<(), Fail> {
    let rules = rules_of(16, 20, 4)?;
    let imp = read_loadfile(rt.alloc(), IMP, &rules)?;
    let copier = read_loadfile(rt.alloc(), COPIER, &rules)?;
    let mut arena = Arena::<PackedCells>::try_new(rt.alloc(), &rules)?;
    assert_eq!(rt; play(&mut arena, &imp, &imp, &AT_EIGHT), 1);
    play(&mut arena, &copier, &imp, &AT_EIGHT);
    assert_eq!(rt; play(&mut arena, &imp, &imp, &AT_EIGHT), 1);
    Ok(())
}

#[test]
fn texts_of_faults(rt: HostRuntime) -> Result<(), Fail> {
    for &(kind, want) in &[
        (
            Kind::Header,
            "record 7: first record must be opponent,position,first or opponent,position,first,weight",
        ),
        (
            Kind::FieldCount,
            "record 7: expected as many fields as in the first record",
        ),
        (
            Kind::BadNumber,
            "record 7: expected 1 to 9 digits and nothing else",
        ),
        (Kind::NoSuchOpponent, "record 7: no such opponent"),
        (
            Kind::BadPosition,
            "record 7: position closer than the distance",
        ),
        (Kind::BadFirst, "record 7: first mover must be c or o"),
        (Kind::Empty, "record 7: no fights"),
        (Kind::TooMany, "record 7: more than 10000 fights"),
        (Kind::OutOfMemory, "record 7: out of memory"),
        (Kind::BadWeight, "record 7: weight must be from 1 to 1000"),
    ] {
        let fault = ScheduleFault { row: 7, kind };
        let text = format!(in rt.alloc(); "{fault}")?;
        assert_eq!(rt; text.as_str(), want);
    }
    Ok(())
}
