//! Warriors that are made, refused, and compared with other rules.
use crate::fixtures::small_rules;
use rc_instr::{Instruction, Refused, Rules, Warrior, WarriorError};
use std::alloc::{AllocError, Global};
use std::process::Abort;
use std::test::Fail;

// Returns `length` instructions `DAT.F` with the A-number and B-number `numbers`.
fn cells(alloc: Global, length: u32, numbers: (u16, u16)) -> Result<Vec<Instruction>, AllocError> {
    let mut code = Vec::new(alloc);
    for _ in 0..length {
        code.push(Instruction {
            a_number: numbers.0,
            b_number: numbers.1,
            ..Instruction::empty()
        })?;
    }
    Ok(code)
}

// Makes a warrior of `cells(length, numbers)` by rules with a core of 16 cells and length 4, and
// returns the refusal.
fn refused(alloc: Global, length: u32, start: u32, numbers: (u16, u16)) -> Result<Refused, Fail> {
    let rules = small_rules()?;
    match Warrior::try_new(cells(alloc, length, numbers)?, start, &rules) {
        Ok(_) => Err(Fail::from("a warrior was made")),
        Err(refused) => Ok(refused),
    }
}

// A warrior of `length` cells with `numbers`, and why it is refused.
struct Refusal {
    name: &'static str,
    length: u32,
    start: u32,
    numbers: (u16, u16),
    want: WarriorError,
}

const REFUSALS: [Refusal; 6] = [
    Refusal {
        name: "no instructions, before a bad start",
        length: 0,
        start: 0,
        numbers: (16, 16),
        want: WarriorError::Empty,
    },
    Refusal {
        name: "too many instructions, before a bad start and large numbers",
        length: 5,
        start: 5,
        numbers: (16, 16),
        want: WarriorError::TooLong,
    },
    Refusal {
        name: "a start after the code, before large numbers",
        length: 4,
        start: 4,
        numbers: (16, 16),
        want: WarriorError::BadStart,
    },
    Refusal {
        name: "the greatest start",
        length: 4,
        start: 4_294_967_295,
        numbers: (0, 0),
        want: WarriorError::BadStart,
    },
    Refusal {
        name: "A-numbers of the core size",
        length: 4,
        start: 3,
        numbers: (16, 15),
        want: WarriorError::NumberTooLarge,
    },
    Refusal {
        name: "the greatest B-number",
        length: 1,
        start: 0,
        numbers: (15, 65535),
        want: WarriorError::NumberTooLarge,
    },
];

#[test]
fn the_first_fault_is_reported_and_the_code_handed_back(rt: HostRuntime) -> Result<(), Fail> {
    for case in &REFUSALS {
        let Refused { code, error } = refused(rt.alloc(), case.length, case.start, case.numbers)?;
        assert_eq!(rt; error, case.want, "{}", case.name);
        let given = cells(rt.alloc(), case.length, case.numbers)?;
        assert_eq!(rt; code.as_slice(), given.as_slice(), "{}", case.name);
        assert_eq!(rt;
            code.into_vec().as_slice(),
            given.as_slice(),
            "{}",
            case.name
        );
    }
    Ok(())
}

#[test]
fn a_warrior_keeps_its_code_and_its_start(rt: HostRuntime) -> Result<(), Fail> {
    let rules = small_rules()?;
    let warrior = Warrior::try_new(cells(rt.alloc(), 4, (15, 8))?, 3, &rules)?;
    let given = cells(rt.alloc(), 4, (15, 8))?;
    assert_eq!(rt; warrior.code(), given.as_slice());
    assert_eq!(rt; warrior.start(), 3);
    Ok(())
}

// Rules of `core` and `length`, and whether a warrior of 4 cells, with 15 as its greatest number,
// fits them.
struct Fit {
    name: &'static str,
    core: u32,
    length: u32,
    want: bool,
}

const FITS: [Fit; 4] = [
    Fit {
        name: "its own rules",
        core: 16,
        length: 4,
        want: true,
    },
    Fit {
        name: "a length below its own",
        core: 16,
        length: 3,
        want: false,
    },
    Fit {
        name: "a core of its greatest number",
        core: 15,
        length: 4,
        want: false,
    },
    Fit {
        name: "the greatest rules",
        core: 65535,
        length: 200,
        want: true,
    },
];

// Expects a warrior to fit the rules that `FITS` says.
fn expect_fits<A: Abort>(rt: &A, warrior: &Warrior) -> Result<(), Fail> {
    for case in &FITS {
        let rules = Rules::try_new(case.core, 20, 4, case.length, case.length)?;
        assert_eq!(rt; warrior.fits(&rules), case.want, "{}", case.name);
    }
    Ok(())
}

#[test]
fn a_warrior_fits_rules_of_its_length_and_numbers(rt: HostRuntime) -> Result<(), Fail> {
    let own = small_rules()?;
    for &numbers in &[(15, 0), (0, 15)] {
        let warrior = Warrior::try_new(cells(rt.alloc(), 4, numbers)?, 0, &own)?;
        expect_fits(&rt, &warrior)?;
    }
    Ok(())
}
