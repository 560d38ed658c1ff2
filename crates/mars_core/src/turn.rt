//! One turn of a side: its first task executes an instruction, and queues what follows.
ghost use Rattle.std.specs.Prelude.{◌≡◌, ◌<◌, ◌≤◌, ◌+◌, ◌==◌, length};
ghost use Rattle.mars_core.specs.Queue.{queue_with, queue_after, without_first};
ghost use Rattle.mars_core.specs.Classes.{first_of_further, first_of_modes, IsClassOf};
ghost use Rattle.mars_core.specs.Core.{IsCore, AreTasks};
ghost use Rattle.mars_core.specs.State.{core_after};
ghost use Rattle.mars_core.specs.Executed.{addresses, IsFetched, IsExecuted};

use crate::arm::arm;
use crate::cell::Cell;
use crate::cells::{Store, read};
use crate::classes::{FIRST_OF_FURTHER, FIRST_OF_MODES};
use crate::effect::Queued;
use crate::general::execute_by_modes;
use crate::number::sum;
use crate::tasks::Tasks;

// What a task queues, and the address to which its A-operand points.
#[derive(Clone, Copy)]
pub(crate) struct Executed {
    pub(crate) queued: Queued,
    pub(crate) jump: u32,
}

// Takes one turn of the side with these tasks. Changes nothing if there are none.
#[tactic(auto, using(crate::proofs::Queues::queues), unfolding(crate::specs::State::core_after, crate::specs::State::tasks_after))]
#[inline(always)]
pub(crate) fn take_turn<C: Store>(cells: &mut C, tasks: &mut C::Queue, size: u32)
    requires core { IsCore size (C.items cells.old) }
    requires tasks { AreTasks size (C.Queue.held tasks.old).items }
    ensures cells { C.items cells.new ≡ core_after (C.items cells.old) (C.Queue.held tasks.old).items }
    ensures tasks { C.Queue.held tasks.new ≡ queue_after (C.items cells.old) (C.Queue.held tasks.old) }
    ensures core { IsCore size (C.items cells.new) }
    ensures below { AreTasks size (C.Queue.held tasks.new).items }
    ensures marks { C.marks cells.new ≤ C.marks cells.old + 3 }
{
    if tasks.is_empty() {
        return;
    }
    tasks.make_room();
    next_turn::<C, 2>(cells, tasks, size);
}

// Takes one turn of a side that has a task. Returns whether none is left.
//
// Each call has a `PLACE` of its own, so that each has its own copies of the large functions below,
// with one caller: only then does the compiler inline them (docs/HOT_LOOP.md).
#[tactic(auto, using(crate::proofs::Queues::queues), unfolding(crate::specs::State::core_after, crate::specs::State::tasks_after))]
#[inline(always)]
pub(crate) fn next_turn<C: Store, const PLACE: u64>(
    cells: &mut C,
    tasks: &mut C::Queue,
    size: u32,
) -> bool
    requires core { IsCore size (C.items cells.old) }
    requires tasks { AreTasks size (C.Queue.held tasks.old).items }
    requires some { 0 < length (C.Queue.held tasks.old).items }
    requires turns { 0 < C.Queue.turns tasks.old }
    ensures cells { C.items cells.new ≡ core_after (C.items cells.old) (C.Queue.held tasks.old).items }
    ensures tasks { C.Queue.held tasks.new ≡ queue_after (C.items cells.old) (C.Queue.held tasks.old) }
    ensures none { result ≡ (length (C.Queue.held tasks.new).items == 0) }
    ensures turns { C.Queue.turns tasks.old ≤ C.Queue.turns tasks.new + 1 }
    ensures core { IsCore size (C.items cells.new) }
    ensures below { AreTasks size (C.Queue.held tasks.new).items }
    ensures marks { C.marks cells.new ≤ C.marks cells.old + 3 }
{
    let pc = tasks.first();
    let cell = read(cells, size, pc);
    let executed = execute::<C, PLACE>(cells, size, pc, cell, cell.class());
    requeue(tasks, size, pc, executed)
}

// Executes the instruction at `pc`, which is `cell`, by its class (1994 draft).
//
// Tests the class before each match: a default arm beside 64 others would seem rare to the
// compiler, which would not inline it (docs/HOT_LOOP.md).
#[inline(always)]
fn execute<C: Store, const PLACE: u64>(
    cells: &mut C,
    size: u32,
    pc: u32,
    cell: C::Kept,
    class: u64,
) -> Executed
    requires fetched { IsFetched size (C.items cells.old) pc (C.Kept.held cell) }
    requires class { IsClassOf (C.Kept.held cell) class }
    ensures executed { IsExecuted size (C.items cells.old) pc (C.items cells.new) result.jump result.queued }
    ensures marks { C.marks cells.new ≤ C.marks cells.old + 3 }
{
    if class < FIRST_OF_FURTHER {
        return execute_by_class(cells, size, pc, cell, class);
    }
    if class < FIRST_OF_MODES {
        return execute_further::<C, PLACE>(cells, size, pc, cell, class);
    }
    execute_by_modes::<C, PLACE>(cells, size, pc, cell, class)
}

// Executes the instruction at `pc`, which is `cell`, if it is one of the most frequent ones. Each
// has an arm, in which the numbers of its opcode, modifier and modes are constants.
#[tactic(auto, unfolding(crate::specs::Classes::class_of_key, crate::specs::Classes::class_from_32))]
#[inline(always)]
fn execute_by_class<C: Store>(
    cells: &mut C,
    size: u32,
    pc: u32,
    cell: C::Kept,
    class: u64,
) -> Executed
    requires fetched { IsFetched size (C.items cells.old) pc (C.Kept.held cell) }
    requires class { IsClassOf (C.Kept.held cell) class }
    requires frequent { class < first_of_further }
    ensures executed { IsExecuted size (C.items cells.old) pc (C.items cells.new) result.jump result.queued }
    ensures marks { C.marks cells.new ≤ C.marks cells.old + 3 }
{
    match class {
        // table of classes
        0 => arm::<C, 1, 6, 1, 1>(cells, size, pc, cell, class), // MOV.I $, $
        1 => arm::<C, 7, 1, 1, 1>(cells, size, pc, cell, class), // JMP.B $, $
        2 => arm::<C, 1, 6, 1, 3>(cells, size, pc, cell, class), // MOV.I $, @
        3 => arm::<C, 2, 2, 0, 1>(cells, size, pc, cell, class), // ADD.AB #, $
        4 => arm::<C, 14, 1, 0, 1>(cells, size, pc, cell, class), // SPL.B #, $
        5 => arm::<C, 7, 1, 1, 5>(cells, size, pc, cell, class), // JMP.B $, <
        6 => arm::<C, 14, 1, 3, 1>(cells, size, pc, cell, class), // SPL.B @, $
        7 => arm::<C, 1, 6, 6, 7>(cells, size, pc, cell, class), // MOV.I }, >
        8 => arm::<C, 7, 1, 1, 4>(cells, size, pc, cell, class), // JMP.B $, {
        9 => arm::<C, 2, 4, 1, 1>(cells, size, pc, cell, class), // ADD.F $, $
        10 => arm::<C, 12, 6, 1, 1>(cells, size, pc, cell, class), // SNE.I $, $
        11 => arm::<C, 1, 6, 1, 7>(cells, size, pc, cell, class), // MOV.I $, >
        12 => arm::<C, 3, 2, 0, 1>(cells, size, pc, cell, class), // SUB.AB #, $
        13 => arm::<C, 10, 4, 1, 5>(cells, size, pc, cell, class), // DJN.F $, <
        14 => arm::<C, 14, 1, 1, 1>(cells, size, pc, cell, class), // SPL.B $, $
        15 => arm::<C, 1, 6, 1, 5>(cells, size, pc, cell, class), // MOV.I $, <
        16 => arm::<C, 3, 4, 1, 1>(cells, size, pc, cell, class), // SUB.F $, $
        17 => arm::<C, 11, 6, 1, 1>(cells, size, pc, cell, class), // SEQ.I $, $
        18 => arm::<C, 10, 4, 1, 7>(cells, size, pc, cell, class), // DJN.F $, >
        19 => arm::<C, 1, 6, 4, 5>(cells, size, pc, cell, class), // MOV.I {, <
        20 => arm::<C, 14, 1, 0, 7>(cells, size, pc, cell, class), // SPL.B #, >
        21 => arm::<C, 1, 6, 5, 5>(cells, size, pc, cell, class), // MOV.I <, <
        22 => arm::<C, 1, 6, 1, 2>(cells, size, pc, cell, class), // MOV.I $, *
        23 => arm::<C, 0, 4, 1, 1>(cells, size, pc, cell, class), // DAT.F $, $
        24 => arm::<C, 7, 1, 3, 1>(cells, size, pc, cell, class), // JMP.B @, $
        25 => arm::<C, 1, 6, 5, 1>(cells, size, pc, cell, class), // MOV.I <, $
        26 => arm::<C, 1, 2, 0, 1>(cells, size, pc, cell, class), // MOV.AB #, $
        27 => arm::<C, 10, 1, 1, 0>(cells, size, pc, cell, class), // DJN.B $, #
        28 => arm::<C, 8, 1, 1, 1>(cells, size, pc, cell, class), // JMZ.B $, $
        29 => arm::<C, 14, 1, 1, 5>(cells, size, pc, cell, class), // SPL.B $, <
        30 => arm::<C, 7, 1, 0, 3>(cells, size, pc, cell, class), // JMP.B #, @
        31 => arm::<C, 1, 6, 0, 1>(cells, size, pc, cell, class), // MOV.I #, $
        32 => arm::<C, 10, 1, 1, 1>(cells, size, pc, cell, class), // DJN.B $, $
        33 => arm::<C, 1, 6, 3, 5>(cells, size, pc, cell, class), // MOV.I @, <
        34 => arm::<C, 0, 4, 5, 5>(cells, size, pc, cell, class), // DAT.F <, <
        35 => arm::<C, 14, 1, 3, 7>(cells, size, pc, cell, class), // SPL.B @, >
        36 => arm::<C, 10, 1, 1, 5>(cells, size, pc, cell, class), // DJN.B $, <
        37 => arm::<C, 9, 1, 1, 1>(cells, size, pc, cell, class), // JMN.B $, $
        38 => arm::<C, 0, 4, 7, 1>(cells, size, pc, cell, class), // DAT.F >, $
        39 => arm::<C, 0, 4, 0, 0>(cells, size, pc, cell, class), // DAT.F #, #
        40 => arm::<C, 14, 1, 0, 5>(cells, size, pc, cell, class), // SPL.B #, <
        41 => arm::<C, 14, 1, 0, 4>(cells, size, pc, cell, class), // SPL.B #, {
        42 => arm::<C, 14, 1, 0, 6>(cells, size, pc, cell, class), // SPL.B #, }
        43 => arm::<C, 14, 1, 0, 0>(cells, size, pc, cell, class), // SPL.B #, #
        44 => arm::<C, 14, 1, 3, 5>(cells, size, pc, cell, class), // SPL.B @, <
        45 => arm::<C, 14, 1, 3, 4>(cells, size, pc, cell, class), // SPL.B @, {
        46 => arm::<C, 14, 1, 3, 6>(cells, size, pc, cell, class), // SPL.B @, }
        47 => arm::<C, 1, 6, 0, 2>(cells, size, pc, cell, class), // MOV.I #, *
        48 => arm::<C, 1, 6, 1, 6>(cells, size, pc, cell, class), // MOV.I $, }
        49 => arm::<C, 1, 6, 1, 4>(cells, size, pc, cell, class), // MOV.I $, {
        50 => arm::<C, 1, 6, 2, 7>(cells, size, pc, cell, class), // MOV.I *, >
        51 => arm::<C, 1, 6, 4, 1>(cells, size, pc, cell, class), // MOV.I {, $
        52 => arm::<C, 1, 6, 5, 4>(cells, size, pc, cell, class), // MOV.I <, {
        53 => arm::<C, 1, 6, 7, 1>(cells, size, pc, cell, class), // MOV.I >, $
        54 => arm::<C, 1, 6, 7, 6>(cells, size, pc, cell, class), // MOV.I >, }
        55 => arm::<C, 10, 4, 1, 4>(cells, size, pc, cell, class), // DJN.F $, {
        56 => arm::<C, 10, 4, 1, 6>(cells, size, pc, cell, class), // DJN.F $, }
        57 => arm::<C, 7, 1, 3, 5>(cells, size, pc, cell, class), // JMP.B @, <
        58 => arm::<C, 7, 1, 3, 7>(cells, size, pc, cell, class), // JMP.B @, >
        59 => arm::<C, 8, 4, 1, 5>(cells, size, pc, cell, class), // JMZ.F $, <
        60 => arm::<C, 11, 6, 2, 3>(cells, size, pc, cell, class), // SEQ.I *, @
        61 => arm::<C, 12, 6, 2, 3>(cells, size, pc, cell, class), // SNE.I *, @
        62 => arm::<C, 12, 5, 2, 3>(cells, size, pc, cell, class), // SNE.X *, @
        _ => arm::<C, 0, 4, 5, 1>(cells, size, pc, cell, class), // DAT.F <, $
        // end of classes
    }
}

// Does what `execute_by_class` does for the further frequent instructions. With 64 in each match
// the test before it costs no compare (docs/HOT_LOOP.md).
#[tactic(auto, unfolding(crate::specs::Classes::class_of_key, crate::specs::Classes::class_from_32, crate::specs::Classes::class_from_64, crate::specs::Classes::class_from_96))]
#[inline]
fn execute_further<C: Store, const PLACE: u64>(
    cells: &mut C,
    size: u32,
    pc: u32,
    cell: C::Kept,
    class: u64,
) -> Executed
    requires fetched { IsFetched size (C.items cells.old) pc (C.Kept.held cell) }
    requires class { IsClassOf (C.Kept.held cell) class }
    requires further { first_of_further ≤ class }
    requires frequent { class < first_of_modes }
    ensures executed { IsExecuted size (C.items cells.old) pc (C.items cells.new) result.jump result.queued }
    ensures marks { C.marks cells.new ≤ C.marks cells.old + 3 }
{
    match class {
        // table of further classes
        64 => arm::<C, 1, 6, 0, 5>(cells, size, pc, cell, class), // MOV.I #, <
        65 => arm::<C, 1, 6, 0, 7>(cells, size, pc, cell, class), // MOV.I #, >
        66 => arm::<C, 1, 6, 4, 4>(cells, size, pc, cell, class), // MOV.I {, {
        67 => arm::<C, 1, 6, 4, 7>(cells, size, pc, cell, class), // MOV.I {, >
        68 => arm::<C, 1, 6, 3, 6>(cells, size, pc, cell, class), // MOV.I @, }
        69 => arm::<C, 1, 6, 0, 6>(cells, size, pc, cell, class), // MOV.I #, }
        70 => arm::<C, 1, 6, 7, 4>(cells, size, pc, cell, class), // MOV.I >, {
        71 => arm::<C, 1, 6, 5, 6>(cells, size, pc, cell, class), // MOV.I <, }
        72 => arm::<C, 1, 6, 2, 6>(cells, size, pc, cell, class), // MOV.I *, }
        73 => arm::<C, 1, 6, 0, 4>(cells, size, pc, cell, class), // MOV.I #, {
        74 => arm::<C, 1, 6, 7, 3>(cells, size, pc, cell, class), // MOV.I >, @
        75 => arm::<C, 1, 6, 4, 6>(cells, size, pc, cell, class), // MOV.I {, }
        76 => arm::<C, 1, 6, 3, 7>(cells, size, pc, cell, class), // MOV.I @, >
        77 => arm::<C, 1, 6, 7, 5>(cells, size, pc, cell, class), // MOV.I >, <
        78 => arm::<C, 1, 6, 6, 5>(cells, size, pc, cell, class), // MOV.I }, <
        79 => arm::<C, 1, 6, 6, 1>(cells, size, pc, cell, class), // MOV.I }, $
        80 => arm::<C, 1, 6, 6, 6>(cells, size, pc, cell, class), // MOV.I }, }
        81 => arm::<C, 1, 6, 6, 4>(cells, size, pc, cell, class), // MOV.I }, {
        82 => arm::<C, 1, 6, 7, 7>(cells, size, pc, cell, class), // MOV.I >, >
        83 => arm::<C, 1, 6, 5, 7>(cells, size, pc, cell, class), // MOV.I <, >
        84 => arm::<C, 1, 6, 3, 1>(cells, size, pc, cell, class), // MOV.I @, $
        85 => arm::<C, 1, 6, 2, 1>(cells, size, pc, cell, class), // MOV.I *, $
        86 => arm::<C, 7, 1, 1, 7>(cells, size, pc, cell, class), // JMP.B $, >
        87 => arm::<C, 7, 1, 1, 6>(cells, size, pc, cell, class), // JMP.B $, }
        88 => arm::<C, 7, 1, 0, 5>(cells, size, pc, cell, class), // JMP.B #, <
        89 => arm::<C, 7, 1, 0, 4>(cells, size, pc, cell, class), // JMP.B #, {
        90 => arm::<C, 7, 1, 0, 1>(cells, size, pc, cell, class), // JMP.B #, $
        91 => arm::<C, 10, 4, 1, 1>(cells, size, pc, cell, class), // DJN.F $, $
        92 => arm::<C, 10, 4, 1, 3>(cells, size, pc, cell, class), // DJN.F $, @
        93 => arm::<C, 10, 1, 0, 5>(cells, size, pc, cell, class), // DJN.B #, <
        94 => arm::<C, 10, 1, 1, 4>(cells, size, pc, cell, class), // DJN.B $, {
        95 => arm::<C, 10, 1, 1, 6>(cells, size, pc, cell, class), // DJN.B $, }
        96 => arm::<C, 10, 1, 1, 7>(cells, size, pc, cell, class), // DJN.B $, >
        97 => arm::<C, 10, 1, 1, 3>(cells, size, pc, cell, class), // DJN.B $, @
        98 => arm::<C, 7, 1, 0, 0>(cells, size, pc, cell, class), // JMP.B #, #
        99 => arm::<C, 7, 1, 0, 2>(cells, size, pc, cell, class), // JMP.B #, *
        100 => arm::<C, 7, 1, 0, 7>(cells, size, pc, cell, class), // JMP.B #, >
        101 => arm::<C, 8, 4, 1, 2>(cells, size, pc, cell, class), // JMZ.F $, *
        102 => arm::<C, 8, 4, 1, 3>(cells, size, pc, cell, class), // JMZ.F $, @
        103 => arm::<C, 8, 4, 1, 7>(cells, size, pc, cell, class), // JMZ.F $, >
        104 => arm::<C, 8, 1, 1, 4>(cells, size, pc, cell, class), // JMZ.B $, {
        105 => arm::<C, 8, 1, 1, 5>(cells, size, pc, cell, class), // JMZ.B $, <
        106 => arm::<C, 8, 1, 1, 2>(cells, size, pc, cell, class), // JMZ.B $, *
        107 => arm::<C, 9, 1, 1, 2>(cells, size, pc, cell, class), // JMN.B $, *
        108 => arm::<C, 9, 1, 1, 3>(cells, size, pc, cell, class), // JMN.B $, @
        109 => arm::<C, 14, 1, 1, 4>(cells, size, pc, cell, class), // SPL.B $, {
        110 => arm::<C, 14, 1, 1, 7>(cells, size, pc, cell, class), // SPL.B $, >
        111 => arm::<C, 14, 1, 1, 6>(cells, size, pc, cell, class), // SPL.B $, }
        112 => arm::<C, 14, 1, 0, 2>(cells, size, pc, cell, class), // SPL.B #, *
        113 => arm::<C, 14, 1, 2, 1>(cells, size, pc, cell, class), // SPL.B *, $
        114 => arm::<C, 14, 1, 2, 4>(cells, size, pc, cell, class), // SPL.B *, {
        115 => arm::<C, 7, 1, 0, 6>(cells, size, pc, cell, class), // JMP.B #, }
        116 => arm::<C, 2, 0, 0, 1>(cells, size, pc, cell, class), // ADD.A #, $
        117 => arm::<C, 3, 0, 0, 1>(cells, size, pc, cell, class), // SUB.A #, $
        118 => arm::<C, 2, 4, 0, 1>(cells, size, pc, cell, class), // ADD.F #, $
        119 => arm::<C, 6, 0, 0, 1>(cells, size, pc, cell, class), // MOD.A #, $
        120 => arm::<C, 3, 1, 1, 1>(cells, size, pc, cell, class), // SUB.B $, $
        121 => arm::<C, 2, 5, 1, 1>(cells, size, pc, cell, class), // ADD.X $, $
        122 => arm::<C, 3, 5, 1, 1>(cells, size, pc, cell, class), // SUB.X $, $
        123 => arm::<C, 13, 2, 0, 1>(cells, size, pc, cell, class), // SLT.AB #, $
        124 => arm::<C, 13, 0, 0, 1>(cells, size, pc, cell, class), // SLT.A #, $
        125 => arm::<C, 11, 5, 1, 1>(cells, size, pc, cell, class), // SEQ.X $, $
        126 => arm::<C, 12, 5, 1, 1>(cells, size, pc, cell, class), // SNE.X $, $
        _ => arm::<C, 0, 4, 1, 5>(cells, size, pc, cell, class), // DAT.F $, <
        // end of further classes
    }
}

// Takes out the first task, which is at `pc`, and appends what its step queued, in order, each if
// there is room. Returns whether no task is left.
#[tactic(auto, using(crate::proofs::Queues::room_test))]
#[inline(always)]
fn requeue<Q: Tasks>(tasks: &mut Q, size: u32, pc: u32, executed: Executed) -> bool
    requires size { (2 < size) × (size ≤ 65535) }
    requires pc { pc < size }
    requires jump { executed.jump < size }
    requires some { 0 < length (Q.held tasks.old).items }
    requires turns { 0 < Q.turns tasks.old }
    ensures tasks { Q.held tasks.new ≡ queue_with (without_first (Q.held tasks.old)) (addresses size pc executed.jump executed.queued) }
    ensures below { AreTasks size (addresses size pc executed.jump executed.queued) }
    ensures none { result ≡ (length (Q.held tasks.new).items == 0) }
    ensures turns { Q.turns tasks.old ≤ Q.turns tasks.new + 1 }
{
    match executed.queued {
        Queued::Nothing => {
            tasks.remove_first();
            return tasks.is_empty();
        }
        Queued::Next => tasks.replace_first(sum(size, pc, 1)),
        Queued::Skip => tasks.replace_first(sum(size, pc, 2)),
        Queued::Jump => tasks.replace_first(executed.jump),
        Queued::Split => {
            tasks.replace_first(sum(size, pc, 1));
            tasks.append(executed.jump);
        }
    }
    false
}
