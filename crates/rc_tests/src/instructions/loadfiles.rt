//! Load files read and written back.
use crate::fixtures::load_of;
use rc_instr::Mode::{
    AIndirect, APostincrement, APredecrement, BIndirect, BPostincrement, BPredecrement, Direct,
    Immediate,
};
use rc_instr::Modifier::{A, AB, B, BA, F, I, X};
use rc_instr::Opcode::{
    Add, Dat, Div, Djn, Jmn, Jmp, Jmz, Mod, Mov, Mul, Nop, Seq, Slt, Sne, Spl, Sub,
};
use rc_instr::laws::{equal_load_texts_are_equal_warriors, load_text_reads_as_its_warrior};
use rc_instr::{Instruction, Mode, Modifier, Opcode, Rules, read_loadfile};
use std::test::Fail;

fn cell(
    opcode: Opcode,
    modifier: Modifier,
    a_mode: Mode,
    a_number: u16,
    b_mode: Mode,
    b_number: u16,
) -> Instruction {
    Instruction {
        opcode,
        modifier,
        a_mode,
        a_number,
        b_mode,
        b_number,
    }
}

// A load file with each opcode, modifier and mode, in a core of 8000 cells.
const TEXT: &str = "ORG 15\n\
    DAT.F $0, $0\n\
    MOV.I $0, $1\n\
    ADD.AB #4, $-1\n\
    SUB.BA *2, @-2\n\
    MUL.X {-3, <3\n\
    DIV.A }4000, >-3999\n\
    MOD.B $-1, $7\n\
    JMP.B $-2, $0\n\
    JMZ.F *-10, #0\n\
    JMN.I @3999, $5\n\
    DJN.B <-5, {5\n\
    SEQ.X >1, }-1\n\
    SNE.I $10, $-100\n\
    SLT.AB #9, @99\n\
    SPL.A $1, *1000\n\
    NOP.BA $0, $0\n";

// Returns the code that `TEXT` spells.
fn code_of_text() -> [Instruction; 16] {
    [
        cell(Dat, F, Direct, 0, Direct, 0),
        cell(Mov, I, Direct, 0, Direct, 1),
        cell(Add, AB, Immediate, 4, Direct, 7999),
        cell(Sub, BA, AIndirect, 2, BIndirect, 7998),
        cell(Mul, X, APredecrement, 7997, BPredecrement, 3),
        cell(Div, A, APostincrement, 4000, BPostincrement, 4001),
        cell(Mod, B, Direct, 7999, Direct, 7),
        cell(Jmp, B, Direct, 7998, Direct, 0),
        cell(Jmz, F, AIndirect, 7990, Immediate, 0),
        cell(Jmn, I, BIndirect, 3999, Direct, 5),
        cell(Djn, B, BPredecrement, 7995, APredecrement, 5),
        cell(Seq, X, BPostincrement, 1, APostincrement, 7999),
        cell(Sne, I, Direct, 10, Direct, 7900),
        cell(Slt, AB, Immediate, 9, BIndirect, 99),
        cell(Spl, A, Direct, 1, AIndirect, 1000),
        cell(Nop, BA, Direct, 0, Direct, 0),
    ]
}

#[test]
fn a_text_of_all_words_is_read_and_written(rt: HostRuntime) -> Result<(), Fail> {
    let rules = Rules::standard();
    let warrior = read_loadfile(rt.alloc(), TEXT.as_bytes(), &rules)?;
    assert_eq!(rt; warrior.start(), 15);
    assert_eq!(rt; warrior.code(), code_of_text().as_slice());
    let text = load_of(rt.alloc(), &warrior, &rules)?;
    assert_eq!(rt; text.as_slice(), TEXT.as_bytes());
    Ok(())
}

#[test]
fn a_text_reads_as_the_warrior_that_wrote_it(rt: HostRuntime) -> Result<(), Fail> {
    let rules = Rules::standard();
    let warrior = read_loadfile(rt.alloc(), TEXT.as_bytes(), &rules)?;
    let again = load_text_reads_as_its_warrior(rt.alloc(), &warrior, &rules)?;
    assert_eq!(rt; again.start(), 15);
    assert_eq!(rt; again.code(), code_of_text().as_slice());
    equal_load_texts_are_equal_warriors();
    Ok(())
}

// How a number is spelled in a load file for a core of `core` cells.
struct Spelling {
    name: &'static str,
    core: u32,
    number: u16,
    text: &'static str,
}

const SPELLINGS: [Spelling; 12] = [
    Spelling {
        name: "half of 8",
        core: 8,
        number: 4,
        text: "4",
    },
    Spelling {
        name: "above half of 8",
        core: 8,
        number: 5,
        text: "-3",
    },
    Spelling {
        name: "half of 16",
        core: 16,
        number: 8,
        text: "8",
    },
    Spelling {
        name: "above half of 16",
        core: 16,
        number: 9,
        text: "-7",
    },
    Spelling {
        name: "the greatest below 16",
        core: 16,
        number: 15,
        text: "-1",
    },
    Spelling {
        name: "below half of 17",
        core: 17,
        number: 8,
        text: "8",
    },
    Spelling {
        name: "above half of 17",
        core: 17,
        number: 9,
        text: "-8",
    },
    Spelling {
        name: "half of 8000",
        core: 8000,
        number: 4000,
        text: "4000",
    },
    Spelling {
        name: "above half of 8000",
        core: 8000,
        number: 4001,
        text: "-3999",
    },
    Spelling {
        name: "below half of 65535",
        core: 65535,
        number: 32767,
        text: "32767",
    },
    Spelling {
        name: "above half of 65535",
        core: 65535,
        number: 32768,
        text: "-32767",
    },
    Spelling {
        name: "the greatest below 65535",
        core: 65535,
        number: 65534,
        text: "-1",
    },
];

#[test]
fn a_number_above_half_of_the_core_has_a_minus(rt: HostRuntime) -> Result<(), Fail> {
    for case in &SPELLINGS {
        let rules = Rules::try_new(case.core, 1, 1, 1, 1)?;
        let text = format!(in rt.alloc(); "ORG 0\nDAT.F ${}, #{}\n", case.text, case.text)?;
        let warrior = read_loadfile(rt.alloc(), text.as_bytes(), &rules)?;
        let want = cell(Dat, F, Direct, case.number, Immediate, case.number);
        assert_eq!(rt; warrior.code(), [want].as_slice(), "{}", case.name);
        let written = load_of(rt.alloc(), &warrior, &rules)?;
        assert_eq!(rt; written.as_slice(), text.as_bytes(), "{}", case.name);
    }
    Ok(())
}
