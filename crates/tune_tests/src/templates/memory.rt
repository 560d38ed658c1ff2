//! Calls that allocate: templates are read, and settings are assembled.
use crate::fixtures::{
    FIRST_REFUSED, FOUR_EQUAL, ONE_IMP, THREE_UNEQUAL, TWO_CONSTANTS, small_rules,
};
use rc_asm::AsmKind;
use rc_expand::ExpandKind;
use rc_instr::write_loadfile;
use rc_text::EvalFault;
use std::alloc::Global;
use std::test::Fail;
use tune_template::{Template, TemplateKind};

// A template, with the count of its settings, the index of the start setting, and the count of its
// constants.
struct TemplateCase {
    name: &'static str,
    text: &'static [u8],
    count: u32,
    start: u32,
    constants: usize,
}

const TEMPLATES: [TemplateCase; 5] = [
    TemplateCase {
        name: "the most settings",
        text: b";@tune A 0 999 1 0\n;@tune B 0 999 1 0",
        count: 1_000_000,
        start: 0,
        constants: 2,
    },
    TemplateCase {
        name: "every second value, and a carriage return",
        text: b";@tune K -3 3 2 1\r\nDAT K",
        count: 4,
        start: 2,
        constants: 1,
    },
    TemplateCase {
        name: "the widest range",
        text: b";@tune K -65535 65535 1 65535",
        count: 131_071,
        start: 131_070,
        constants: 1,
    },
    TemplateCase {
        name: "range lines before and after END",
        text: b";redcode\n;@tune A 0 1 1 1\nEND\n;@tune B 0 2 1 1",
        count: 6,
        start: 4,
        constants: 2,
    },
    TemplateCase {
        name: "the most constants",
        text: b";@tune A 0 1 1 1\n;@tune B 0 1 1 0\n;@tune C 0 1 1 1\n;@tune D 0 1 1 0\n\
            ;@tune E 0 1 1 1\n;@tune F 0 1 1 0\n;@tune G 0 1 1 1\n;@tune H 0 1 1 0",
        count: 256,
        // The last constant changes first: the STARTs are the binary digits of the index.
        start: 170,
        constants: 8,
    },
];

#[test]
fn a_template_is_read(rt: HostRuntime) -> Result<(), Fail> {
    for case in &TEMPLATES {
        let template = Template::read(rt.alloc(), case.text)?;
        assert_eq!(rt; template.count(), case.count, "{}", case.name);
        assert_eq!(rt; template.start_number(), case.start, "{}", case.name);
        assert_eq!(rt; template.names().len(), case.constants, "{}", case.name);
    }
    Ok(())
}

// Texts that are not templates, and at which line and why.
const REFUSED: [(&[u8], u64, TemplateKind); 5] = [
    (b";@tune K 0 1\n", 1, TemplateKind::BadLine),
    (b";@tune mov 0 1 1 0\n", 1, TemplateKind::ReservedName),
    (b";@tune K 3 2 1 3\n", 1, TemplateKind::EmptyRange),
    (b";@tune K 0 5 2 3\n", 1, TemplateKind::StartOutside),
    (
        b";@tune A 0 999 1 0\n;@tune B 0 1000 1 0\n",
        2,
        TemplateKind::TooManyVectors,
    ),
];

// Returns at which line and why a text is not a template, if it is not one. Out of memory is an
// error.
fn refusal(alloc: Global, text: &[u8]) -> Result<Option<(u64, TemplateKind)>, Fail> {
    match Template::read(alloc, text) {
        Ok(_) => Ok(None),
        Err(fault) if fault.kind == TemplateKind::OutOfMemory => Err(Fail::from(fault)),
        Err(fault) => Ok(Some((fault.line, fault.kind))),
    }
}

#[test]
fn a_template_is_refused(rt: HostRuntime) -> Result<(), Fail> {
    for &(text, line, kind) in &REFUSED {
        assert_eq!(rt; refusal(rt.alloc(), text)?, Some((line, kind)), "{kind:?}");
    }
    Ok(())
}

// A setting of a template, and its load file.
struct LoadCase {
    name: &'static str,
    text: &'static [u8],
    index: u32,
    load: &'static [u8],
}

// A template of which only the last setting assembles.
const ASSERTS: &[u8] = b";@tune K 2 4 1 2\n;assert K > 3\nDAT K";

const LOADS: [LoadCase; 8] = [
    LoadCase {
        name: "the setting of a template without constants",
        text: ONE_IMP,
        index: 0,
        load: b"ORG 0\nMOV.I $0, $1\n",
    },
    LoadCase {
        name: "a constant that the code does not name",
        text: FOUR_EQUAL,
        index: 3,
        load: b"ORG 0\nMOV.I $0, $1\n",
    },
    LoadCase {
        name: "a divisor that is not 0",
        text: FIRST_REFUSED,
        index: 1,
        load: b"ORG 0\nMOV.I $0, $1\nDAT.F $0, $1\n",
    },
    LoadCase {
        name: "the last of three values",
        text: THREE_UNEQUAL,
        index: 2,
        load: b"ORG 0\nMOV.I $0, $1\nDAT.F $0, $2\n",
    },
    LoadCase {
        name: "two constants, of which the second changes first",
        text: TWO_CONSTANTS,
        index: 4,
        load: b"ORG 0\nDAT.F $1, $7\n",
    },
    LoadCase {
        name: "a negative value in each copy of a block",
        text: b";@tune K -9 -3 3 -3\ni FOR 2\nDAT K, i\nROF",
        index: 1,
        load: b"ORG 0\nDAT.F $-6, $1\nDAT.F $-6, $2\n",
    },
    LoadCase {
        name: "a value that is the count of a block",
        text: b";@tune N 0 3 1 0\nFOR N\nNOP\nROF\nJMP 0",
        index: 2,
        load: b"ORG 0\nNOP.F $0, $0\nNOP.F $0, $0\nJMP.B $0, $0\n",
    },
    LoadCase {
        name: "an assertion that holds",
        text: ASSERTS,
        index: 2,
        load: b"ORG 0\nDAT.F $0, $4\n",
    },
];

// Returns the load file of the setting at `index` under `small_rules`.
fn load_of(alloc: Global, text: &[u8], index: u32) -> Result<Vec<u8>, Fail> {
    let rules = small_rules()?;
    let template = Template::read(alloc, text)?;
    if index >= template.count() {
        return Err(Fail::from("no such setting"));
    }
    let warrior = template.instance(alloc, index, &rules)?;
    let mut load = Vec::new(alloc);
    write_loadfile(alloc, &warrior, &rules, &mut load)?;
    Ok(load)
}

#[test]
fn instance_assembles_a_setting(rt: HostRuntime) -> Result<(), Fail> {
    for case in &LOADS {
        assert_eq!(rt;
            load_of(rt.alloc(), case.text, case.index)?.as_slice(),
            case.load,
            "{}",
            case.name
        );
    }
    Ok(())
}

// A setting that does not assemble, and at which line and why.
struct FaultCase {
    name: &'static str,
    text: &'static [u8],
    index: u32,
    line: u64,
    kind: AsmKind,
}

const FAULTS: [FaultCase; 4] = [
    FaultCase {
        name: "a divisor that is 0",
        text: FIRST_REFUSED,
        index: 0,
        line: 3,
        kind: AsmKind::Value(EvalFault::DivisionByZero),
    },
    FaultCase {
        name: "the name of the constant in lower case",
        text: b";@tune K 0 1 1 0\nDAT k",
        index: 0,
        line: 2,
        kind: AsmKind::Value(EvalFault::UnknownName),
    },
    FaultCase {
        name: "a label with the name of the constant",
        text: b";@tune K 0 1 1 0\nK DAT 0",
        index: 1,
        line: 2,
        kind: AsmKind::Expand(ExpandKind::DuplicateName),
    },
    FaultCase {
        name: "an assertion that does not hold",
        text: ASSERTS,
        index: 1,
        line: 2,
        kind: AsmKind::AssertFailed,
    },
];

// Returns at which line and why the setting at `index` does not assemble under `small_rules`, if it
// does not. Out of memory is an error.
fn fault_of(alloc: Global, text: &[u8], index: u32) -> Result<Option<(u64, AsmKind)>, Fail> {
    let rules = small_rules()?;
    let template = Template::read(alloc, text)?;
    if index >= template.count() {
        return Err(Fail::from("no such setting"));
    }
    match template.instance(alloc, index, &rules) {
        Ok(_) => Ok(None),
        Err(fault) if fault.kind == AsmKind::OutOfMemory => Err(Fail::from(fault)),
        Err(fault) => Ok(Some((fault.line, fault.kind))),
    }
}

#[test]
fn instance_names_the_fault(rt: HostRuntime) -> Result<(), Fail> {
    for case in &FAULTS {
        assert_eq!(rt;
            fault_of(rt.alloc(), case.text, case.index)?,
            Some((case.line, case.kind)),
            "{}",
            case.name
        );
    }
    Ok(())
}
