//! The parts of a template's settings, worked out by hand.

use crate::fixtures::inputs_of;
use rc_instr::write_loadfile;
use std::alloc::Global;
use std::test::Fail;
use tune_problem::{Inputs, Part, setting_warrior};

#[test]
fn three_parts_of_ten_settings_have_their_bounds(rt: HostRuntime) -> Result<(), Fail> {
    let parts = 3;
    let first = Part { number: 1, parts };
    let second = Part { number: 2, parts };
    let third = Part { number: 3, parts };
    assert!(rt; (first.first(10), first.end(10)) == (0, 3));
    assert!(rt; (second.first(10), second.end(10)) == (3, 6));
    assert!(rt; (third.first(10), third.end(10)) == (6, 10));
    Ok(())
}

// Six settings: (0, 5), (0, 6), (1, 5), (1, 6), (2, 5) and (2, 6), of which the fifth is the start
// setting.
fn six_settings(alloc: Global) -> Result<Inputs, Fail> {
    inputs_of(alloc, b";@tune A 0 2 1 2\n;@tune B 5 6 1 5\nDAT A, B")
}

// Parts of the six settings. Each has its number and the number of parts, the count of its
// settings, the index of its start setting, and its first setting. A part without START starts with
// its first setting.
const PARTS: [(u32, u32, u32, u32, [i64; 2]); 6] = [
    (1, 1, 6, 4, [0, 5]),
    (1, 2, 3, 0, [0, 5]),
    (2, 2, 3, 1, [1, 6]),
    (2, 4, 2, 0, [0, 6]),
    (4, 4, 2, 0, [2, 5]),
    (6, 6, 1, 0, [2, 6]),
];

// Returns whether a part has this count of settings, this start setting and this first setting.
fn has_settings(part: &Inputs, count: u32, start: u32, first: [i64; 2]) -> bool {
    prove!(0 < part.count());
    (part.count(), part.start_number()) == (count, start)
        && part.vector(0).as_slice() == first.as_slice()
}

#[test]
fn parts_have_their_settings(rt: HostRuntime) -> Result<(), Fail> {
    for &(number, parts, count, start, first) in &PARTS {
        match six_settings(rt.alloc())?.part(Part { number, parts }) {
            Some(part) => assert!(rt;
                has_settings(&part, count, start, first),
                "{number}/{parts}"
            ),
            None => assert!(rt; false, "{number}/{parts}: no such part"),
        }
    }
    Ok(())
}

// Part 0 or 3 of 2, part 1 of 7 of six settings, and part 0 of 0.
#[test]
fn other_parts_do_not_exist(rt: HostRuntime) -> Result<(), Fail> {
    for &(number, parts) in &[(0, 2), (3, 2), (1, 7), (0, 0)] {
        assert!(rt;
            six_settings(rt.alloc())?
                .part(Part { number, parts })
                .is_none(),
            "{number}/{parts}"
        );
    }
    Ok(())
}

#[test]
fn a_setting_of_a_part_assembles(rt: HostRuntime) -> Result<(), Fail> {
    let second = Part {
        number: 2,
        parts: 2,
    };
    let part = six_settings(rt.alloc())?.part(second).expect(&rt, "a part");
    prove!(0 < part.count());
    let warrior = setting_warrior(rt.alloc(), &part, 0)?.expect(&rt, "a warrior");
    let mut text = Vec::new(rt.alloc());
    write_loadfile(rt.alloc(), &warrior, part.rules(), &mut text)?;
    assert_eq!(rt; text.as_slice(), b"ORG 0\nDAT.F $1, $6\n".as_slice());
    Ok(())
}
