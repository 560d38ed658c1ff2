//! Default modifiers, the empty cell, and equality of instructions.
use rc_instr::{Instruction, Mode, Modifier, Opcode, default_modifier};
use std::process::Abort;

// All modes but `Mode::Immediate`.
const OTHERS: [Mode; 7] = [
    Mode::Direct,
    Mode::AIndirect,
    Mode::BIndirect,
    Mode::APredecrement,
    Mode::BPredecrement,
    Mode::APostincrement,
    Mode::BPostincrement,
];

// Returns the default modifiers if no operand is immediate, only the A-operand, only the B-operand,
// and both.
fn defaults_of(opcode: Opcode, other: Mode) -> [Modifier; 4] {
    [
        default_modifier(opcode, other, other),
        default_modifier(opcode, Mode::Immediate, other),
        default_modifier(opcode, other, Mode::Immediate),
        default_modifier(opcode, Mode::Immediate, Mode::Immediate),
    ]
}

const ALWAYS_F: [Modifier; 4] = [Modifier::F; 4];

const ALWAYS_B: [Modifier; 4] = [Modifier::B; 4];

// I, but AB if only A or both operands are immediate, and B if only B is.
const WHOLE: [Modifier; 4] = [Modifier::I, Modifier::AB, Modifier::B, Modifier::AB];

// F, with the same exceptions.
const BOTH: [Modifier; 4] = [Modifier::F, Modifier::AB, Modifier::B, Modifier::AB];

// B, but AB if A is immediate.
const LESS: [Modifier; 4] = [Modifier::B, Modifier::AB, Modifier::B, Modifier::AB];

// An opcode, and its default modifiers in the order of `defaults_of`.
struct Defaults {
    opcode: Opcode,
    want: [Modifier; 4],
}

const DEFAULTS: [Defaults; 16] = [
    Defaults {
        opcode: Opcode::Dat,
        want: ALWAYS_F,
    },
    Defaults {
        opcode: Opcode::Mov,
        want: WHOLE,
    },
    Defaults {
        opcode: Opcode::Add,
        want: BOTH,
    },
    Defaults {
        opcode: Opcode::Sub,
        want: BOTH,
    },
    Defaults {
        opcode: Opcode::Mul,
        want: BOTH,
    },
    Defaults {
        opcode: Opcode::Div,
        want: BOTH,
    },
    Defaults {
        opcode: Opcode::Mod,
        want: BOTH,
    },
    Defaults {
        opcode: Opcode::Jmp,
        want: ALWAYS_B,
    },
    Defaults {
        opcode: Opcode::Jmz,
        want: ALWAYS_B,
    },
    Defaults {
        opcode: Opcode::Jmn,
        want: ALWAYS_B,
    },
    Defaults {
        opcode: Opcode::Djn,
        want: ALWAYS_B,
    },
    Defaults {
        opcode: Opcode::Seq,
        want: WHOLE,
    },
    Defaults {
        opcode: Opcode::Sne,
        want: WHOLE,
    },
    Defaults {
        opcode: Opcode::Slt,
        want: LESS,
    },
    Defaults {
        opcode: Opcode::Spl,
        want: ALWAYS_B,
    },
    Defaults {
        opcode: Opcode::Nop,
        want: ALWAYS_F,
    },
];

// Expects the default modifiers of an opcode, with each mode but `Mode::Immediate`.
fn expect_defaults<A: Abort>(rt: &A, row: &Defaults) {
    for &other in &OTHERS {
        assert_eq!(rt;
            defaults_of(row.opcode, other),
            row.want,
            "{:?} with {other:?}",
            row.opcode
        );
    }
}

#[test]
fn default_modifiers_of_all_opcodes(rt: HostRuntime) {
    for row in &DEFAULTS {
        expect_defaults(&rt, row);
    }
}

const EMPTY: Instruction = Instruction {
    opcode: Opcode::Dat,
    modifier: Modifier::F,
    a_mode: Mode::Direct,
    a_number: 0,
    b_mode: Mode::Direct,
    b_number: 0,
};

// An instruction that differs from `EMPTY` in one part, which `name` says.
struct Changed {
    name: &'static str,
    instruction: Instruction,
}

const CHANGED: [Changed; 6] = [
    Changed {
        name: "the opcode",
        instruction: Instruction {
            opcode: Opcode::Nop,
            ..EMPTY
        },
    },
    Changed {
        name: "the modifier",
        instruction: Instruction {
            modifier: Modifier::X,
            ..EMPTY
        },
    },
    Changed {
        name: "the A-mode",
        instruction: Instruction {
            a_mode: Mode::Immediate,
            ..EMPTY
        },
    },
    Changed {
        name: "the A-number",
        instruction: Instruction {
            a_number: 65535,
            ..EMPTY
        },
    },
    Changed {
        name: "the B-mode",
        instruction: Instruction {
            b_mode: Mode::BPostincrement,
            ..EMPTY
        },
    },
    Changed {
        name: "the B-number",
        instruction: Instruction {
            b_number: 1,
            ..EMPTY
        },
    },
];

#[test]
fn same_instructions_agree_in_all_six_parts(rt: HostRuntime) {
    assert_eq!(rt; Instruction::empty(), EMPTY);
    assert!(rt; EMPTY.is_same(&Instruction::empty()));
    for case in &CHANGED {
        let other = case.instruction;
        assert!(rt; !other.is_same(&EMPTY), "{}", case.name);
        assert!(rt; !EMPTY.is_same(&other), "{}", case.name);
        assert!(rt; other.is_same(&other), "{}", case.name);
    }
}
