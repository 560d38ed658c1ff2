//! Texts, and the lines that they expand to or their faults.
use crate::expansion::lines::lines_of;
use crate::fixtures::{Case, push_times};
use std::alloc::Global;
use std::process::Abort;
use std::test::Fail;

// Expects that each text has its lines.
fn expect_lines<A: Abort>(rt: &A, alloc: Global, cases: &[Case]) -> Result<(), Fail> {
    for case in cases {
        assert_eq!(rt;
            lines_of(alloc, case.text)?.as_slice(),
            case.want,
            "{}",
            case.name
        );
    }
    Ok(())
}

// Lines with labels, and names that no line defines.
const LABELS: [Case; 5] = [
    Case {
        name: "an empty text has no lines",
        text: b"",
        want: b"",
    },
    Case {
        name: "labels before code, and on a line of their own",
        text: b"a: b DAT a, b\nc",
        want: b"1 a b: - DAT a , b\n2 c:\n",
    },
    Case {
        name: "predefined names stay",
        text: b"NOP\nDAT CURLINE, CORESIZE-1",
        want: b"1: - NOP\n2: - DAT CURLINE , CORESIZE - 1\n",
    },
    Case {
        name: "an ampersand before what is not a counter stays",
        text: b"x&NOP 1",
        want: b"1 x: - & NOP 1\n",
    },
    Case {
        name: "a text as it was posted",
        text: b"From: x\n;redcode-94\n;name Dwarf\n;assert CORESIZE % 4 == 0\nstep EQU 4\n  ORG start\nbomb DAT #0, #0\nstart ADD #step, bomb\n  JMP start\n  END\n?",
        want: b"4: ;assert CORESIZE % 4 == 0\n6: ORG start\n7 bomb: - DAT # 0 , # 0\n8 start: - ADD # 4 , bomb\n9: - JMP start\n10: END\n",
    },
];

#[test]
fn labels_and_unknown_names_stay(rt: HostRuntime) -> Result<(), Fail> {
    expect_lines(&rt, rt.alloc(), &LABELS)
}

// Lines with EQU names.
const EQU_NAMES: [Case; 5] = [
    Case {
        name: "the tokens of an EQU name have EQU names in them, defined later",
        text: b"DAT x\nx EQU y\ny EQU 3",
        want: b"1: - DAT 3\n",
    },
    Case {
        name: "an EQU name may have no tokens",
        text: b"s EQU\nEND s",
        want: b"2: END\n",
    },
    Case {
        name: "an EQU name may stand for a modifier with its dot",
        text: b"m EQU .A\nMOV m 0, 1",
        want: b"2: - MOV . A 0 , 1\n",
    },
    Case {
        name: "a modifier is not replaced, though an EQU name is spelled so",
        text: b"A EQU 1\nm EQU A\nMOV.A A, m",
        want: b"3: - MOV . A 1 , 1\n",
    },
    Case {
        name: "an EQU line in a block with no copies defines nothing",
        text: b"FOR 0\ns EQU 1\nROF\nDAT s",
        want: b"4: - DAT s\n",
    },
];

#[test]
fn equ_names_are_replaced(rt: HostRuntime) -> Result<(), Fail> {
    expect_lines(&rt, rt.alloc(), &EQU_NAMES)
}

// Blocks, and how many copies of them there are.
const BLOCKS: [Case; 8] = [
    Case {
        name: "each copy of a block has copies of the block in it",
        text: b"i FOR 2\nj FOR 2\nDAT i, j\nROF\nROF",
        want: b"3: - DAT 1 , 1\n3: - DAT 1 , 2\n3: - DAT 2 , 1\n3: - DAT 2 , 2\n",
    },
    Case {
        name: "a counter is the count of the block in it",
        text: b"i FOR 2\nFOR i\nDAT i\nROF\nROF",
        want: b"3: - DAT 1\n3: - DAT 2\n3: - DAT 2\n",
    },
    Case {
        name: "a count of a constant and an EQU name",
        text: b"n EQU K-5\nFOR n\nNOP\nROF",
        want: b"3: - NOP\n3: - NOP\n",
    },
    Case {
        name: "a count below 0 gives no copies",
        text: b"FOR -1\nNOP\nROF",
        want: b"",
    },
    Case {
        name: "a block with no copies may have any text",
        text: b"FOR 0\none two 9\nROF\nDAT 1",
        want: b"4: - DAT 1\n",
    },
    Case {
        name: "a block in a block with no copies may have a count without a value",
        text: b"FOR 0\nFOR x\na ROF 1\nROF\nNOP",
        want: b"5: - NOP\n",
    },
    Case {
        name: "a label before a block with no copies stays",
        text: b"a b FOR 0\nROF\nDAT 1",
        want: b"1 a:\n3: - DAT 1\n",
    },
    Case {
        name: "two blocks, one after the other, may have one counter",
        text: b"i FOR 1\nDAT i\nROF\ni FOR 1\nNOP\nROF",
        want: b"2: - DAT 1\n5: - NOP\n",
    },
];

#[test]
fn blocks_are_copied(rt: HostRuntime) -> Result<(), Fail> {
    expect_lines(&rt, rt.alloc(), &BLOCKS)
}

// Counters, alone and joined to a name.
const COUNTERS: [Case; 8] = [
    Case {
        name: "a counter may have a colon",
        text: b"i: FOR 1\nDAT i\nROF",
        want: b"2: - DAT 1\n",
    },
    Case {
        name: "a counter among labels is replaced",
        text: b"i FOR 1\na i b NOP\nROF",
        want: b"2 a: - 1 b NOP\n",
    },
    Case {
        name: "a counter from 1 to 12",
        text: b"i FOR 12\nx&i\nROF\nEND",
        want: b"2 x01:\n2 x02:\n2 x03:\n2 x04:\n2 x05:\n2 x06:\n2 x07:\n2 x08:\n2 x09:\n2 x10:\n2 x11:\n2 x12:\n4: END\n",
    },
    Case {
        name: "a counter joined to its own name",
        text: b"i FOR 1\ni&i NOP\nROF",
        want: b"2 i01: - NOP\n",
    },
    Case {
        name: "an opcode that a counter is joined to is another name",
        text: b"i FOR 1\nmov&i 0\nROF",
        want: b"2: - mov01 0\n",
    },
    Case {
        name: "a name with a counter joined to it is a counter itself",
        text: b"i FOR 1\nx01 FOR 3\nDAT x&i\nROF\nROF",
        want: b"3: - DAT 1\n3: - DAT 2\n3: - DAT 3\n",
    },
    Case {
        name: "counters are joined from the outer block inwards",
        text: b"i FOR 1\nj FOR 1\nx&i&j y&j&i NOP\nROF\nROF",
        want: b"3 x0101: - y & j01 NOP\n",
    },
    Case {
        name: "a name that is dropped may have more than eight counters",
        text: b"i FOR 1\nFOR 0\nx&i&i&i&i&i&i&i&i&i NOP\nROF\nROF",
        want: b"",
    },
];

#[test]
fn counters_are_replaced(rt: HostRuntime) -> Result<(), Fail> {
    expect_lines(&rt, rt.alloc(), &COUNTERS)
}

// A text that defines the name of the constant, and the line of the fault.
struct Redefined {
    name: &'static str,
    text: &'static [u8],
    line: u64,
}

const REDEFINED: [Redefined; 4] = [
    Redefined {
        name: "as a label",
        text: b"NOP\nK NOP",
        line: 2,
    },
    Redefined {
        name: "as an EQU name",
        text: b"a b\nK EQU 1",
        line: 2,
    },
    Redefined {
        name: "as a counter after labels",
        text: b"a b\nK FOR 2\nROF",
        line: 2,
    },
    Redefined {
        name: "as a counter",
        text: b"K FOR 1\nROF",
        line: 1,
    },
];

#[test]
fn a_constant_is_not_defined_again(rt: HostRuntime) -> Result<(), Fail> {
    for case in &REDEFINED {
        let want = format!(in rt.alloc(); "line {}: name already defined", case.line)?;
        assert_eq!(rt;
            lines_of(rt.alloc(), case.text)?.as_slice(),
            want.as_bytes(),
            "{}",
            case.name
        );
    }
    Ok(())
}

// A text at a limit, or nearly: `piece`, `count` times, then `back`. Its lines, or its fault, begin
// with `begins`.
struct Limit {
    name: &'static str,
    piece: &'static [u8],
    count: usize,
    back: &'static [u8],
    begins: &'static [u8],
}

const LIMITS: [Limit; 6] = [
    Limit {
        name: "4096 lines",
        piece: b"NOP\n",
        count: 4096,
        back: b"",
        begins: b"1: - NOP\n2: - NOP\n",
    },
    Limit {
        name: "4097 lines",
        piece: b"NOP\n",
        count: 4096,
        back: b"NOP",
        begins: b"line 4097: more than 4096 lines and copies in the expansion",
    },
    Limit {
        name: "4096 tokens in a line",
        piece: b"1 ",
        count: 4096,
        back: b"",
        begins: b"1: - 1 1 1",
    },
    Limit {
        name: "4097 tokens in a line",
        piece: b"1 ",
        count: 4097,
        back: b"",
        begins: TOO_MANY_TOKENS,
    },
    Limit {
        name: "2048 replacements in a line",
        piece: b"1 e ",
        count: 2048,
        back: b"\ne EQU",
        begins: b"1: - 1 1 1",
    },
    Limit {
        name: "4101 replacements in a line",
        piece: b"1 e e e ",
        count: 1367,
        back: b"\ne EQU",
        begins: TOO_MANY_TOKENS,
    },
];

const TOO_MANY_TOKENS: &[u8] = b"line 1: more than 4096 tokens or EQU replacements in a line";

#[test]
fn limits_hold(rt: HostRuntime) -> Result<(), Fail> {
    for limit in &LIMITS {
        let mut text = Vec::new(rt.alloc());
        push_times(&mut text, limit.piece, limit.count)?;
        text.extend_from_slice(limit.back)?;
        assert!(rt;
            lines_of(rt.alloc(), &text)?.starts_with(limit.begins),
            "{}",
            limit.name
        );
    }
    Ok(())
}
