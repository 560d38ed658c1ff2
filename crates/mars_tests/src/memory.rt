//! One test for each call that allocates: rows of results worked out by hand, and `OutOfMemory`
//! passed on as the test's error.
//!
//! `make test` also runs each of these tests with its first, second and so on request for memory
//! refused (gate/refuse/growth.py). It then ends with the same results, or with the error
//! `OutOfMemory` of the call itself, in no other variant.
use crate::machine::{Played, play_on_both, rules_of};
use crate::warriors::{DAT, IMP, WAIT};
use mars_core::Side;
use mars_fight::{Schedule, ScheduleFaultKind};
use std::alloc::Global;
use std::test::Fail;

const DIVIDES: &[u8] = b"ORG 0\nDIV.F #0, $2\nDAT.F $0, $0\nDAT.F #6, #6\n";

const SPLITS: &[u8] = b"ORG 0\nSPL.B $0, $0\n";

// A fight worked out by hand from the 1994 draft. `played` is what it leaves on packed cells, where
// a reset sets the cells that were written; on plain cells it sets all 16.
struct Duel {
    name: &'static str,
    candidate: &'static [u8],
    opponent: &'static [u8],
    cycles: u32,
    tasks: u32,
    first: Side,
    played: Played,
}

const DUELS: [Duel; 7] = [
    Duel {
        name: "two imps tie",
        candidate: IMP,
        opponent: IMP,
        cycles: 20,
        tasks: 4,
        first: Side::Candidate,
        played: Played {
            points: 1,
            turns: 40,
            reset: 16,
        },
    },
    Duel {
        name: "a candidate that dies loses in the first turn",
        candidate: DAT,
        opponent: IMP,
        cycles: 20,
        tasks: 4,
        first: Side::Candidate,
        played: Played {
            points: 0,
            turns: 1,
            reset: 2,
        },
    },
    Duel {
        name: "an opponent that moves second dies in the second turn",
        candidate: IMP,
        opponent: DAT,
        cycles: 1,
        tasks: 4,
        first: Side::Candidate,
        played: Played {
            points: 3,
            turns: 2,
            reset: 3,
        },
    },
    Duel {
        name: "an opponent that moves first dies in the first turn",
        candidate: IMP,
        opponent: DAT,
        cycles: 1,
        tasks: 4,
        first: Side::Opponent,
        played: Played {
            points: 3,
            turns: 1,
            reset: 2,
        },
    },
    Duel {
        name: "an imp and a jump to itself tie",
        candidate: IMP,
        opponent: WAIT,
        cycles: 20,
        tasks: 4,
        first: Side::Candidate,
        played: Played {
            points: 1,
            turns: 40,
            reset: 16,
        },
    },
    Duel {
        name: "a division by 0 ends the task",
        candidate: DIVIDES,
        opponent: IMP,
        cycles: 20,
        tasks: 4,
        first: Side::Candidate,
        played: Played {
            points: 0,
            turns: 1,
            reset: 4,
        },
    },
    Duel {
        name: "with one task allowed SPL adds none",
        candidate: SPLITS,
        opponent: IMP,
        cycles: 20,
        tasks: 1,
        first: Side::Candidate,
        played: Played {
            points: 0,
            turns: 3,
            reset: 3,
        },
    },
];

#[test]
fn fights_end_as_worked_out(rt: HostRuntime) -> Result<(), Fail> {
    for duel in &DUELS {
        let (plain, packed) = play_on_both(
            &rt,
            duel.candidate,
            duel.opponent,
            duel.cycles,
            duel.tasks,
            duel.first,
        )?;
        let on_plain = Played {
            reset: 16,
            ..duel.played
        };
        assert_eq!(rt; plain, on_plain, "{}", duel.name);
        assert_eq!(rt; packed, duel.played, "{}", duel.name);
    }
    Ok(())
}

// A schedule, and the number of its fights or the text of its fault.
struct ScheduleCase {
    name: &'static str,
    text: &'static [u8],
    want: &'static str,
}

const SCHEDULES: [ScheduleCase; 10] = [
    ScheduleCase {
        name: "two fights",
        text: b"opponent,position,first\n0,8,c\n0,8,c\n",
        want: "2",
    },
    ScheduleCase {
        name: "the nearest positions, both ways round",
        text: b"opponent,position,first\n0,4,c\n0,12,c\n",
        want: "2",
    },
    ScheduleCase {
        name: "too near",
        text: b"opponent,position,first\n0,3,c\n",
        want: "record 1: position closer than the distance",
    },
    ScheduleCase {
        name: "too near, the other way round",
        text: b"opponent,position,first\n0,13,c\n",
        want: "record 1: position closer than the distance",
    },
    ScheduleCase {
        name: "no fights",
        text: b"opponent,position,first\n",
        want: "record 0: no fights",
    },
    ScheduleCase {
        name: "a field too few",
        text: b"opponent,position,first\n0,8\n",
        want: "record 1: expected as many fields as in the first record",
    },
    ScheduleCase {
        name: "an opponent that does not exist",
        text: b"opponent,position,first\n5,8,c\n",
        want: "record 1: no such opponent",
    },
    ScheduleCase {
        name: "an opponent that is not a number",
        text: b"opponent,position,first\nx,8,c\n",
        want: "record 1: expected 1 to 9 digits and nothing else",
    },
    ScheduleCase {
        name: "a first mover that is not a side",
        text: b"opponent,position,first\n0,8,z\n",
        want: "record 1: first mover must be c or o",
    },
    ScheduleCase {
        name: "no first record",
        text: b"",
        want: "record 0: first record must be opponent,position,first or opponent,position,first,weight",
    },
];

// Reads a schedule against two opponents. Returns the number of its fights, or the text of its
// fault.
fn schedule_read(alloc: Global, text: &[u8]) -> Result<String, Fail> {
    let rules = rules_of(16, 20, 4)?;
    match Schedule::read(alloc, text, 2, &rules) {
        Ok(schedule) => Ok(format!(in alloc; "{}", schedule.fights().len())?),
        Err(fault) => {
            if fault.kind == ScheduleFaultKind::OutOfMemory {
                return Err(Fail::from(fault));
            }
            Ok(format!(in alloc; "{fault}")?)
        }
    }
}

#[test]
fn schedules_are_read_or_refused(rt: HostRuntime) -> Result<(), Fail> {
    for case in &SCHEDULES {
        assert_eq!(rt;
            schedule_read(rt.alloc(), case.text)?.as_str(),
            case.want,
            "{}",
            case.name
        );
    }
    Ok(())
}
