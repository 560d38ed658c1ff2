//! Tests that `make test` also runs with their first, second and so on request for memory refused
//! (gate/refuse/growth.py). They pass all the same, or end with `OutOfMemory`, and with no other
//! fault. The results are worked out by hand.
use crate::expansion::lines::lines_of;
use crate::fixtures::{Case, constant_name, load_of, small_rules};
use rc_asm::{AsmFault, AsmKind, assemble};
use rc_expand::Constants;
use rc_instr::{LoadFault, Rules, WarriorError, read_loadfile, write_loadfile};
use std::alloc::Global;
use std::test::Fail;

// A text, the lines that it expands to, and the load file of its warrior.
struct Sample {
    name: &'static str,
    text: &'static [u8],
    lines: &'static [u8],
    load: &'static [u8],
}

const SAMPLES: [Sample; 4] = [
    Sample {
        name: "a sum",
        text: b"s EQU 2+3\nDAT #0, #s*2\n",
        lines: b"2: - DAT # 0 , # 2 + 3 * 2\n",
        load: b"ORG 0\nDAT.F #0, #8\n",
    },
    Sample {
        name: "a quotient is cut towards 0",
        text: b"DAT #-7/2\n",
        lines: b"1: - DAT # - 7 / 2\n",
        load: b"ORG 0\nDAT.F $0, #-3\n",
    },
    Sample {
        name: "copies of a block",
        text: b"i FOR 2\nx&i DAT #i\nROF\nJMP x01\n",
        lines: b"2 x01: - DAT # 1\n2 x02: - DAT # 2\n4: - JMP x01\n",
        load: b"ORG 0\nDAT.F $0, #1\nDAT.F $0, #2\nJMP.B $-2, $0\n",
    },
    Sample {
        name: "a text as it was posted",
        text: b"From: a mail header\n;redcode-94\n;name Dwarf\n;author A. K. Dewdney\n;assert CORESIZE % 4 == 0\nstep EQU 4\n  ORG start\nbomb DAT #0, #0\nstart ADD #step, bomb\n  MOV bomb, @bomb\n  JMP start\n  END\n",
        lines: b"5: ;assert CORESIZE % 4 == 0\n7: ORG start\n8 bomb: - DAT # 0 , # 0\n9 start: - ADD # 4 , bomb\n10: - MOV bomb , @ bomb\n11: - JMP start\n12: END\n",
        load: b"ORG 1\nDAT.F #0, #0\nADD.AB #4, $-1\nMOV.I $-2, @-2\nJMP.B $-2, $0\n",
    },
];

// Texts that have no expansion, and so no warrior, and their faults.
const NOT_EXPANDED: [Case; 2] = [
    Case {
        name: "a FOR without a ROF",
        text: b"FOR 3\n",
        want: b"line 1: FOR without ROF",
    },
    Case {
        name: "a decimal of more than 32 bits",
        text: b"DAT 4294967296\n",
        want: b"line 1: number above 4294967295",
    },
];

// Texts that are only assembled, and their load files or their faults. K is a constant with the
// value 7.
const ASSEMBLIES: [Case; 7] = [
    Case {
        name: "a constant",
        text: b"DAT K, x*2\nx EQU K",
        want: b"ORG 0\nDAT.F $7, $14\n",
    },
    Case {
        name: "a MOV with one operand",
        text: b"MOV 1\n",
        want: b"line 1: missing operand",
    },
    Case {
        name: "a division by 0",
        text: b"DAT 1/0\n",
        want: b"line 1: division by zero",
    },
    Case {
        name: "a third operand",
        text: b"MOV 1, 2, 3\n",
        want: b"line 1: too many operands",
    },
    Case {
        name: "a name that nothing defines",
        text: b"DAT x\n",
        want: b"line 1: unknown name",
    },
    Case {
        name: "a sum of one number",
        text: b"DAT 1 +\n",
        want: b"line 1: invalid expression",
    },
    Case {
        name: "a word that is not an opcode",
        text: b"PIN 5\n",
        want: b"line 1: unknown opcode or modifier",
    },
];

// Reads `load` and appends it to the text `before`. Fails if out of memory, or if a call that fails
// changes the text.
fn appended(alloc: Global, load: &[u8]) -> Result<Vec<u8>, Fail> {
    let rules = small_rules()?;
    let warrior = read_loadfile(alloc, load, &rules)?;
    let mut out = b"before\n".to_vec(alloc)?;
    let written = write_loadfile(alloc, &warrior, &rules, &mut out);
    if written.is_err() && out.as_slice() != b"before\n".as_slice() {
        return Err(Fail::from("a refused call changed the output"));
    }
    written?;
    Ok(out)
}

#[test]
fn write_loadfile_appends(rt: HostRuntime) -> Result<(), Fail> {
    for sample in &SAMPLES {
        let mut want = b"before\n".to_vec(rt.alloc())?;
        want.extend_from_slice(sample.load)?;
        assert_eq!(rt;
            appended(rt.alloc(), sample.load)?.as_slice(),
            want.as_slice(),
            "{}",
            sample.name
        );
    }
    Ok(())
}

// A text, and why it is not a load file.
struct Unread {
    name: &'static str,
    text: &'static [u8],
    want: LoadFault,
}

const UNREAD: [Unread; 5] = [
    Unread {
        name: "a number above half of the core without its minus",
        text: b"ORG 0\nMOV.I $0, $9\n",
        want: LoadFault::Malformed { line: 2 },
    },
    Unread {
        name: "a start after the code",
        text: b"ORG 1\nDAT.F $0, $0\n",
        want: LoadFault::Warrior(WarriorError::BadStart),
    },
    Unread {
        name: "no instructions",
        text: b"ORG 0\n",
        want: LoadFault::Warrior(WarriorError::Empty),
    },
    Unread {
        name: "no line end",
        text: b"ORG 0\nDAT.F $0, $0",
        want: LoadFault::Malformed { line: 2 },
    },
    Unread {
        name: "more instructions than the length",
        text: b"ORG 0\nDAT.F $0, $0\nDAT.F $0, $0\nDAT.F $0, $0\nDAT.F $0, $0\nDAT.F $0, $0\n",
        want: LoadFault::Warrior(WarriorError::TooLong),
    },
];

#[test]
fn read_loadfile_names_the_fault(rt: HostRuntime) -> Result<(), Fail> {
    let rules = small_rules()?;
    for case in &UNREAD {
        match read_loadfile(rt.alloc(), case.text, &rules) {
            Ok(_) => assert!(rt; false, "{}: it is read", case.name),
            Err(LoadFault::OutOfMemory) => return Err(Fail::from(LoadFault::OutOfMemory)),
            Err(fault) => assert_eq!(rt; fault, case.want, "{}", case.name),
        }
    }
    Ok(())
}

#[test]
fn expand_gives_the_lines(rt: HostRuntime) -> Result<(), Fail> {
    for sample in &SAMPLES {
        assert_eq!(rt;
            lines_of(rt.alloc(), sample.text)?.as_slice(),
            sample.lines,
            "{}",
            sample.name
        );
    }
    for case in &NOT_EXPANDED {
        assert_eq!(rt;
            lines_of(rt.alloc(), case.text)?.as_slice(),
            case.want,
            "{}",
            case.name
        );
    }
    Ok(())
}

// Returns the text of a fault. Out of memory is an error.
fn fault_text(alloc: Global, fault: AsmFault) -> Result<Vec<u8>, Fail> {
    if fault.kind == AsmKind::OutOfMemory {
        return Err(Fail::from(fault));
    }
    Ok(format!(in alloc; "{fault}")?.into_bytes())
}

// Assembles `source` under the standard rules with the constant K = 7. Returns the load file of its
// warrior, or the text of its fault.
fn assembled(alloc: Global, source: &[u8]) -> Result<Vec<u8>, Fail> {
    let names = constant_name(alloc)?;
    let constants = Constants {
        names: &names,
        values: &[7],
    };
    let rules = Rules::standard();
    match assemble(alloc, source, &constants, &rules) {
        Ok(warrior) => load_of(alloc, &warrior, &rules),
        Err(fault) => fault_text(alloc, fault),
    }
}

#[test]
fn assemble_gives_the_warrior(rt: HostRuntime) -> Result<(), Fail> {
    for sample in &SAMPLES {
        assert_eq!(rt;
            assembled(rt.alloc(), sample.text)?.as_slice(),
            sample.load,
            "{}",
            sample.name
        );
    }
    for case in &NOT_EXPANDED {
        assert_eq!(rt;
            assembled(rt.alloc(), case.text)?.as_slice(),
            case.want,
            "{}",
            case.name
        );
    }
    for case in &ASSEMBLIES {
        assert_eq!(rt;
            assembled(rt.alloc(), case.text)?.as_slice(),
            case.want,
            "{}",
            case.name
        );
    }
    Ok(())
}
