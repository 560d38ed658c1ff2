//! Tests of `mars_core`: steps worked out by hand from the 1994 draft, each on plain and on packed
//! cells.
ghost use Rattle.std.specs.Prelude.{◌≤◌, ◌<◌, ◌+◌};
ghost use Rattle.rc_instr.specs.Warrior.{Fits};
ghost use Rattle.mars_core.specs.Arena.{IsBlank};

use crate::machine::rules_of;
use crate::warriors::{DAT, SPLITS_AND_JUMPS};
use mars_core::{Arena, Cells, PackedCells, PlainCells, Side};
use rc_instr::{Instruction, Warrior, read_loadfile};
use std::test::Fail;

// Reads the first instruction of a load file.
fn first_instruction(rt: &HostRuntime, core: u32, text: &[u8]) -> Result<Instruction, Fail> {
    let rules = rules_of(core, 20, 4)?;
    let warrior = read_loadfile(rt.alloc(), text, &rules)?;
    Ok(warrior.code()[0])
}

// What a step leaves: a cell, the candidate's first task, and how many cells a reset sets.
#[derive(Clone, Copy)]
pub(crate) struct Step {
    cell: Instruction,
    pub(crate) task: Option<u32>,
    reset: u32,
}

// Loads two warriors, makes one step of the candidate, and resets the arena. Returns what the step
// left, with the cell at `at`.
pub(crate) fn step_and_reset<C: Cells>(
    arena: &mut Arena<C>,
    candidate: &Warrior,
    opponent: &Warrior,
    at: u32,
) -> Step
    requires blank { IsBlank arena.old.rules arena.old }
    requires cycles { 0 < arena.old.rules.cycles }
    requires candidate { Fits arena.old.rules candidate.now }
    requires opponent { Fits arena.old.rules opponent.now }
    requires eight { (arena.old.rules.distance ≤ 8) × (8 + arena.old.rules.distance ≤ arena.old.rules.core) }
    requires at { at < arena.old.rules.core }
{
    arena.load(candidate, opponent, 8);
    arena.step(Side::Candidate);
    Step {
        cell: arena.cell(at),
        task: task_at(arena, 0),
        reset: arena.reset(),
    }
}

// Makes one step of the candidate, on plain and then on packed cells. The opponent is an empty cell
// at 8.
fn step_on_both(rt: &HostRuntime, core: u32, code: &[u8], at: u32) -> Result<(Step, Step), Fail>
    requires core { 16 ≤ core }
    requires at { at < core }
{
    let rules = rules_of(core, 20, 4)?;
    let candidate = read_loadfile(rt.alloc(), code, &rules)?;
    let opponent = read_loadfile(rt.alloc(), DAT, &rules)?;
    let mut plain = Arena::<PlainCells>::try_new(rt.alloc(), &rules)?;
    let mut packed = Arena::<PackedCells>::try_new(rt.alloc(), &rules)?;
    Ok((
        step_and_reset(&mut plain, &candidate, &opponent, at),
        step_and_reset(&mut packed, &candidate, &opponent, at),
    ))
}

// One step of `code`: the cell at `at` after it, and the first task then.
struct Change {
    name: &'static str,
    code: &'static [u8],
    at: u32,
    cell: &'static [u8],
    task: Option<u32>,
}

const CHANGES: [Change; 14] = [
    Change {
        name: "the sum overwrites the postincrement",
        code: b"ORG 0\nADD.AB #5, >1\nDAT.F $0, $0\n",
        at: 1,
        cell: b"ORG 0\nDAT.F $0, $5\n",
        task: Some(1),
    },
    Change {
        name: "the predecrement stays",
        code: b"ORG 0\nMOV.I $0, <1\nDAT.F $0, $4\n",
        at: 1,
        cell: b"ORG 0\nDAT.F $0, $3\n",
        task: Some(1),
    },
    Change {
        name: "the lowered number points to the target",
        code: b"ORG 0\nMOV.I $0, <1\nDAT.F $0, $4\n",
        at: 4,
        cell: b"ORG 0\nMOV.I $0, <1\n",
        task: Some(1),
    },
    Change {
        name: "an immediate B-operand is read after A's predecrement",
        code: b"ORG 0\nADD.A {0, #0\n",
        at: 0,
        cell: b"ORG 0\nADD.A {-1, #0\n",
        task: Some(1),
    },
    Change {
        name: "DJN counts 0 down to -1 and jumps",
        code: b"ORG 0\nDJN.B $0, $1\nDAT.F $0, $0\n",
        at: 1,
        cell: b"ORG 0\nDAT.F $0, $-1\n",
        task: Some(0),
    },
    Change {
        name: "DJN counts 1 down to 0 and does not jump",
        code: b"ORG 0\nDJN.B $0, $1\nDAT.F $0, $1\n",
        at: 1,
        cell: b"ORG 0\nDAT.F $0, $0\n",
        task: Some(1),
    },
    Change {
        name: "a division by 0 ends the task, but the other number is divided",
        code: b"ORG 0\nDIV.F #0, $2\nDAT.F $0, $0\nDAT.F #6, #6\n",
        at: 2,
        cell: b"ORG 0\nDAT.F #6, #3\n",
        task: None,
    },
    Change {
        name: "DJN lowers the number that the postincrement raised",
        code: b"ORG 0\nDJN.I $0, >0\n",
        at: 0,
        cell: b"ORG 0\nDJN.I $-1, >0\n",
        task: Some(0),
    },
    Change {
        name: "BA counts down the A-number",
        code: b"ORG 0\nDJN.BA $0, $0\n",
        at: 0,
        cell: b"ORG 0\nDJN.BA $-1, $0\n",
        task: Some(0),
    },
    Change {
        name: "X takes the B-number from the A-number",
        code: b"ORG 0\nSUB.X $0, $1\n",
        at: 1,
        cell: b"ORG 0\nDAT.F $-1, $0\n",
        task: Some(1),
    },
    Change {
        name: "0 - 1 is the greatest number",
        code: b"ORG 0\nSUB.B $0, $1\n",
        at: 1,
        cell: b"ORG 0\nDAT.F $0, $-1\n",
        task: Some(1),
    },
    Change {
        name: "A's copy is taken before B's postincrement",
        code: b"ORG 0\nMOV.AB $0, }0\n",
        at: 0,
        cell: b"ORG 0\nMOV.AB $1, }0\n",
        task: Some(1),
    },
    Change {
        name: "SPL queues the next address first",
        code: b"ORG 0\nSPL.B $2, $0\n",
        at: 0,
        cell: b"ORG 0\nSPL.B $2, $0\n",
        task: Some(1),
    },
    Change {
        name: "NOP evaluates its operands",
        code: b"ORG 0\nNOP.F $0, >1\n",
        at: 1,
        cell: b"ORG 0\nDAT.F $0, $1\n",
        task: Some(1),
    },
];

#[test]
fn one_step_changes_a_cell(rt: HostRuntime) -> Result<(), Fail> {
    for case in &CHANGES {
        if case.at >= 16 {
            return Err(Fail::from("no such cell"));
        }
        let (plain, packed) = step_on_both(&rt, 16, case.code, case.at)?;
        let cell = first_instruction(&rt, 16, case.cell)?;
        let want = (cell, case.task);
        assert_eq!(rt; (plain.cell, plain.task), want, "{}", case.name);
        assert_eq!(rt; (packed.cell, packed.task), want, "{}", case.name);
        assert_eq!(rt; plain.reset, 16, "{}", case.name);
    }
    // the greatest product: 65534 * 65534 is 1 modulo 65535
    let code = b"ORG 0\nMUL.AB #-1, $1\nDAT.F $0, $-1\n";
    let (plain, packed) = step_on_both(&rt, 65535, code, 1)?;
    let one = first_instruction(&rt, 65535, b"ORG 0\nDAT.F $0, $1\n")?;
    assert_eq!(rt; (plain.cell, packed.cell), (one, one));
    Ok(())
}

// One step of `code`, and the first task after it.
struct Queued {
    name: &'static str,
    code: &'static [u8],
    task: u32,
}

const QUEUED: [Queued; 11] = [
    Queued {
        name: "DJN tests the copy (0), not the raised number (1)",
        code: b"ORG 0\nDJN.AB $0, >0\n",
        task: 0,
    },
    Queued {
        name: "DJN: one of two numbers is not counted down to 0",
        code: b"ORG 0\nDJN.F >0, $0\n",
        task: 0,
    },
    Queued {
        name: "JMN: one of two numbers is not 0",
        code: b"ORG 0\nJMN.F $2, $0\n",
        task: 2,
    },
    Queued {
        name: "JMZ: one of two numbers is not 0",
        code: b"ORG 0\nJMZ.I $2, $0\n",
        task: 1,
    },
    Queued {
        name: "SLT: one of two numbers is not less",
        code: b"ORG 0\nSLT.X $1, $0\n",
        task: 1,
    },
    Queued {
        name: "SNE: one of two numbers differs",
        code: b"ORG 0\nSNE.F $1, $0\n",
        task: 2,
    },
    Queued {
        name: "the lowered number points to another instruction",
        code: b"ORG 0\nSEQ.I $0, {0\n",
        task: 1,
    },
    Queued {
        name: "the postincrement of A comes after its copy and before B's",
        code: b"ORG 0\nSNE.F }0, $0\n",
        task: 2,
    },
    Queued {
        name: "the lowered number points to the target",
        code: b"ORG 0\nJMP.BA {0, $0\n",
        task: 15,
    },
    Queued {
        name: "two empty cells are equal",
        code: b"ORG 0\nSEQ.I $1, $2\n",
        task: 2,
    },
    Queued {
        name: "AB compares 1 with 2",
        code: b"ORG 0\nSLT.AB #1, $1\nDAT.F $0, $2\n",
        task: 2,
    },
];

#[test]
fn one_step_queues_an_address(rt: HostRuntime) -> Result<(), Fail> {
    for case in &QUEUED {
        let (plain, packed) = step_on_both(&rt, 16, case.code, 0)?;
        assert_eq!(rt;
            [plain.task, packed.task],
            [Some(case.task), Some(case.task)],
            "{}",
            case.name
        );
    }
    Ok(())
}

// Returns the task at an index of the candidate's queue, if there is one.
fn task_at<C: Cells>(arena: &Arena<C>, index: u32) -> Option<u32> {
    if index < arena.task_count(Side::Candidate) {
        Some(arena.task(Side::Candidate, index))
    } else {
        None
    }
}

// Makes six steps of the candidate alone. Returns the tasks that it has then, up to five of them.
fn six_steps<C: Cells>(
    arena: &mut Arena<C>,
    candidate: &Warrior,
    opponent: &Warrior,
) -> [Option<u32>; 5]
    requires blank { IsBlank arena.old.rules arena.old }
    requires cycles { 3 ≤ arena.old.rules.cycles }
    requires candidate { Fits arena.old.rules candidate.now }
    requires opponent { Fits arena.old.rules opponent.now }
    requires eight { (arena.old.rules.distance ≤ 8) × (8 + arena.old.rules.distance ≤ arena.old.rules.core) }
{
    arena.load(candidate, opponent, 8);
    arena.step(Side::Candidate);
    arena.step(Side::Candidate);
    arena.step(Side::Candidate);
    arena.step(Side::Candidate);
    arena.step(Side::Candidate);
    arena.step(Side::Candidate);
    [
        task_at(arena, 0),
        task_at(arena, 1),
        task_at(arena, 2),
        task_at(arena, 3),
        task_at(arena, 4),
    ]
}

// The queues are, from the start: 0; 1 0; 0 0; 0 1 0; 1 0 1 0; 0 1 0 0; 1 0 0 1. The last split
// finds no room for its second task.
#[test]
fn one_side_steps_more_often_than_it_has_room_for_tasks(rt: HostRuntime) -> Result<(), Fail> {
    let rules = rules_of(16, 20, 4)?;
    let candidate = read_loadfile(rt.alloc(), SPLITS_AND_JUMPS, &rules)?;
    let opponent = read_loadfile(rt.alloc(), DAT, &rules)?;
    let mut plain = Arena::<PlainCells>::try_new(rt.alloc(), &rules)?;
    let mut packed = Arena::<PackedCells>::try_new(rt.alloc(), &rules)?;
    let left = [Some(1), Some(0), Some(0), Some(1), None];
    assert_eq!(rt; six_steps(&mut plain, &candidate, &opponent), left);
    assert_eq!(rt; six_steps(&mut packed, &candidate, &opponent), left);
    Ok(())
}
