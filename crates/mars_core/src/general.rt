//! Instructions of which only the modes are known at compile time, by the classes of modes.
ghost use Rattle.std.specs.Prelude.{◌≡◌, ◌<◌, ◌≤◌, ◌+◌, ◌*◌, ◌/◌, ◌%◌};
ghost use Rattle.rc_instr.specs.Warrior.{IsBelow};
ghost use Rattle.mars_core.specs.Classes.{first_of_modes, IsClassOf};
ghost use Rattle.mars_core.specs.Codes.{code_count, opcode_of, modifier_of};
ghost use Rattle.mars_core.specs.Core.{IsCore};
ghost use Rattle.mars_core.specs.Executed.{seen_operand, IsFetched, IsExecuted, IsInside, AreEvaluated, IsActed};

use crate::arm::evaluate_in;
use crate::cell::Cell;
use crate::cells::Store;
use crate::codes::{modifier_from, opcode_from};
use crate::effect::{Queued, act};
use crate::operand::Located;
use crate::turn::Executed;

// Executes the instruction at `pc`, which is `cell`, if its class gives its modes.
#[tactic(auto, unfolding(crate::specs::Step::step_of))]
#[inline(always)]
pub(crate) fn execute_by_modes<C: Store, const PLACE: u64>(
    cells: &mut C,
    size: u32,
    pc: u32,
    cell: C::Kept,
    class: u64,
) -> Executed
    requires fetched { IsFetched size (C.items cells.old) pc (C.Kept.held cell) }
    requires class { IsClassOf (C.Kept.held cell) class }
    requires modes { first_of_modes ≤ class }
    ensures executed { IsExecuted size (C.items cells.old) pc (C.items cells.new) result.jump result.queued }
    ensures marks { C.marks cells.new ≤ C.marks cells.old + 3 }
{
    let (a, b) = operands::<C, PLACE>(cells, size, pc, cell, class);
    let queued = act_by_code::<C, PLACE>(cells, size, pc, cell.code(), a, b);
    Executed {
        queued,
        jump: a.address,
    }
}

// Evaluates the A-operand of `cell`, which is at `pc`, and then its B-operand (1994 draft). Each
// pair of modes has an arm, in which both are constants.
#[inline]
fn operands<C: Store, const PLACE: u64>(
    cells: &mut C,
    size: u32,
    pc: u32,
    cell: C::Kept,
    class: u64,
) -> (Located<C::Kept>, Located<C::Kept>)
    requires core { IsCore size (C.items cells.old) }
    requires pc { pc < size }
    requires below { IsBelow size (C.Kept.held cell) }
    requires class { IsClassOf (C.Kept.held cell) class }
    requires modes { first_of_modes ≤ class }
    ensures evaluated { AreEvaluated size (C.items cells.old) pc (C.Kept.held cell) (seen_operand C.Kept.held result.0) (seen_operand C.Kept.held result.1) (C.items cells.new) }
    ensures marks { C.marks cells.new ≤ C.marks cells.old + 2 }
{
    match class {
        // table of modes
        128 => pair_in::<C, 0, 0>(cells, size, pc, cell, class), // #, #
        129 => pair_in::<C, 1, 0>(cells, size, pc, cell, class), // $, #
        130 => pair_in::<C, 2, 0>(cells, size, pc, cell, class), // *, #
        131 => pair_in::<C, 3, 0>(cells, size, pc, cell, class), // @, #
        132 => pair_in::<C, 4, 0>(cells, size, pc, cell, class), // {, #
        133 => pair_in::<C, 5, 0>(cells, size, pc, cell, class), // <, #
        134 => pair_in::<C, 6, 0>(cells, size, pc, cell, class), // }, #
        135 => pair_in::<C, 7, 0>(cells, size, pc, cell, class), // >, #
        136 => pair_in::<C, 0, 1>(cells, size, pc, cell, class), // #, $
        137 => pair_in::<C, 1, 1>(cells, size, pc, cell, class), // $, $
        138 => pair_in::<C, 2, 1>(cells, size, pc, cell, class), // *, $
        139 => pair_in::<C, 3, 1>(cells, size, pc, cell, class), // @, $
        140 => pair_in::<C, 4, 1>(cells, size, pc, cell, class), // {, $
        141 => pair_in::<C, 5, 1>(cells, size, pc, cell, class), // <, $
        142 => pair_in::<C, 6, 1>(cells, size, pc, cell, class), // }, $
        143 => pair_in::<C, 7, 1>(cells, size, pc, cell, class), // >, $
        144 => pair_in::<C, 0, 2>(cells, size, pc, cell, class), // #, *
        145 => pair_in::<C, 1, 2>(cells, size, pc, cell, class), // $, *
        146 => pair_in::<C, 2, 2>(cells, size, pc, cell, class), // *, *
        147 => pair_in::<C, 3, 2>(cells, size, pc, cell, class), // @, *
        148 => pair_in::<C, 4, 2>(cells, size, pc, cell, class), // {, *
        149 => pair_in::<C, 5, 2>(cells, size, pc, cell, class), // <, *
        150 => pair_in::<C, 6, 2>(cells, size, pc, cell, class), // }, *
        151 => pair_in::<C, 7, 2>(cells, size, pc, cell, class), // >, *
        152 => pair_in::<C, 0, 3>(cells, size, pc, cell, class), // #, @
        153 => pair_in::<C, 1, 3>(cells, size, pc, cell, class), // $, @
        154 => pair_in::<C, 2, 3>(cells, size, pc, cell, class), // *, @
        155 => pair_in::<C, 3, 3>(cells, size, pc, cell, class), // @, @
        156 => pair_in::<C, 4, 3>(cells, size, pc, cell, class), // {, @
        157 => pair_in::<C, 5, 3>(cells, size, pc, cell, class), // <, @
        158 => pair_in::<C, 6, 3>(cells, size, pc, cell, class), // }, @
        159 => pair_in::<C, 7, 3>(cells, size, pc, cell, class), // >, @
        160 => pair_in::<C, 0, 4>(cells, size, pc, cell, class), // #, {
        161 => pair_in::<C, 1, 4>(cells, size, pc, cell, class), // $, {
        162 => pair_in::<C, 2, 4>(cells, size, pc, cell, class), // *, {
        163 => pair_in::<C, 3, 4>(cells, size, pc, cell, class), // @, {
        164 => pair_in::<C, 4, 4>(cells, size, pc, cell, class), // {, {
        165 => pair_in::<C, 5, 4>(cells, size, pc, cell, class), // <, {
        166 => pair_in::<C, 6, 4>(cells, size, pc, cell, class), // }, {
        167 => pair_in::<C, 7, 4>(cells, size, pc, cell, class), // >, {
        168 => pair_in::<C, 0, 5>(cells, size, pc, cell, class), // #, <
        169 => pair_in::<C, 1, 5>(cells, size, pc, cell, class), // $, <
        170 => pair_in::<C, 2, 5>(cells, size, pc, cell, class), // *, <
        171 => pair_in::<C, 3, 5>(cells, size, pc, cell, class), // @, <
        172 => pair_in::<C, 4, 5>(cells, size, pc, cell, class), // {, <
        173 => pair_in::<C, 5, 5>(cells, size, pc, cell, class), // <, <
        174 => pair_in::<C, 6, 5>(cells, size, pc, cell, class), // }, <
        175 => pair_in::<C, 7, 5>(cells, size, pc, cell, class), // >, <
        176 => pair_in::<C, 0, 6>(cells, size, pc, cell, class), // #, }
        177 => pair_in::<C, 1, 6>(cells, size, pc, cell, class), // $, }
        178 => pair_in::<C, 2, 6>(cells, size, pc, cell, class), // *, }
        179 => pair_in::<C, 3, 6>(cells, size, pc, cell, class), // @, }
        180 => pair_in::<C, 4, 6>(cells, size, pc, cell, class), // {, }
        181 => pair_in::<C, 5, 6>(cells, size, pc, cell, class), // <, }
        182 => pair_in::<C, 6, 6>(cells, size, pc, cell, class), // }, }
        183 => pair_in::<C, 7, 6>(cells, size, pc, cell, class), // >, }
        184 => pair_in::<C, 0, 7>(cells, size, pc, cell, class), // #, >
        185 => pair_in::<C, 1, 7>(cells, size, pc, cell, class), // $, >
        186 => pair_in::<C, 2, 7>(cells, size, pc, cell, class), // *, >
        187 => pair_in::<C, 3, 7>(cells, size, pc, cell, class), // @, >
        188 => pair_in::<C, 4, 7>(cells, size, pc, cell, class), // {, >
        189 => pair_in::<C, 5, 7>(cells, size, pc, cell, class), // <, >
        190 => pair_in::<C, 6, 7>(cells, size, pc, cell, class), // }, >
        _ => pair_in::<C, 7, 7>(cells, size, pc, cell, class), // >, >
        // end of modes
    }
}

// Evaluates the operands of `cell`, which is at `pc`. The const parameters stand for the modes of
// its class.
#[inline(always)]
fn pair_in<C: Store, const A_MODE: u64, const B_MODE: u64>(
    cells: &mut C,
    size: u32,
    pc: u32,
    cell: C::Kept,
    class: u64,
) -> (Located<C::Kept>, Located<C::Kept>)
    requires known { (A_MODE < 8) × (B_MODE < 8) }
    requires core { IsCore size (C.items cells.old) }
    requires pc { pc < size }
    requires below { IsBelow size (C.Kept.held cell) }
    requires class { IsClassOf (C.Kept.held cell) class }
    requires pair { class ≡ first_of_modes + A_MODE + 8 * B_MODE }
    ensures evaluated { AreEvaluated size (C.items cells.old) pc (C.Kept.held cell) (seen_operand C.Kept.held result.0) (seen_operand C.Kept.held result.1) (C.items cells.new) }
    ensures marks { C.marks cells.new ≤ C.marks cells.old + 2 }
{
    let a = evaluate_in::<C, A_MODE>(cells, size, pc, cell.a_number());
    let b = evaluate_in::<C, B_MODE>(cells, size, pc, cell.b_number());
    (a, b)
}

// Runs the opcode and the modifier whose numbers are in `code` on evaluated operands.
#[inline]
fn act_by_code<C: Store, const PLACE: u64>(
    cells: &mut C,
    size: u32,
    pc: u32,
    code: u64,
    a: Located<C::Kept>,
    b: Located<C::Kept>,
) -> Queued
    requires code { code < code_count }
    requires core { IsCore size (C.items cells.old) }
    requires a { IsInside size (seen_operand C.Kept.held a) }
    requires b { IsInside size (seen_operand C.Kept.held b) }
    ensures acted { IsActed (opcode_of (code / 8)) (modifier_of (code % 8)) size (C.items cells.old) pc (seen_operand C.Kept.held a) (seen_operand C.Kept.held b) (C.items cells.new) result }
    ensures marks { C.marks cells.new ≤ C.marks cells.old + 1 }
{
    match code {
        // table of codes
        0 => act_once::<C, PLACE, 0, 0>(cells, size, pc, a, b), // DAT.A
        1 => act_once::<C, PLACE, 0, 1>(cells, size, pc, a, b), // DAT.B
        2 => act_once::<C, PLACE, 0, 2>(cells, size, pc, a, b), // DAT.AB
        3 => act_once::<C, PLACE, 0, 3>(cells, size, pc, a, b), // DAT.BA
        4 => act_once::<C, PLACE, 0, 4>(cells, size, pc, a, b), // DAT.F
        5 => act_once::<C, PLACE, 0, 5>(cells, size, pc, a, b), // DAT.X
        6 => act_once::<C, PLACE, 0, 6>(cells, size, pc, a, b), // DAT.I
        7 => act_once::<C, PLACE, 0, 7>(cells, size, pc, a, b), // DAT.I
        8 => act_once::<C, PLACE, 1, 0>(cells, size, pc, a, b), // MOV.A
        9 => act_once::<C, PLACE, 1, 1>(cells, size, pc, a, b), // MOV.B
        10 => act_once::<C, PLACE, 1, 2>(cells, size, pc, a, b), // MOV.AB
        11 => act_once::<C, PLACE, 1, 3>(cells, size, pc, a, b), // MOV.BA
        12 => act_once::<C, PLACE, 1, 4>(cells, size, pc, a, b), // MOV.F
        13 => act_once::<C, PLACE, 1, 5>(cells, size, pc, a, b), // MOV.X
        14 => act_once::<C, PLACE, 1, 6>(cells, size, pc, a, b), // MOV.I
        15 => act_once::<C, PLACE, 1, 7>(cells, size, pc, a, b), // MOV.I
        16 => act_once::<C, PLACE, 2, 0>(cells, size, pc, a, b), // ADD.A
        17 => act_once::<C, PLACE, 2, 1>(cells, size, pc, a, b), // ADD.B
        18 => act_once::<C, PLACE, 2, 2>(cells, size, pc, a, b), // ADD.AB
        19 => act_once::<C, PLACE, 2, 3>(cells, size, pc, a, b), // ADD.BA
        20 => act_once::<C, PLACE, 2, 4>(cells, size, pc, a, b), // ADD.F
        21 => act_once::<C, PLACE, 2, 5>(cells, size, pc, a, b), // ADD.X
        22 => act_once::<C, PLACE, 2, 6>(cells, size, pc, a, b), // ADD.I
        23 => act_once::<C, PLACE, 2, 7>(cells, size, pc, a, b), // ADD.I
        24 => act_once::<C, PLACE, 3, 0>(cells, size, pc, a, b), // SUB.A
        25 => act_once::<C, PLACE, 3, 1>(cells, size, pc, a, b), // SUB.B
        26 => act_once::<C, PLACE, 3, 2>(cells, size, pc, a, b), // SUB.AB
        27 => act_once::<C, PLACE, 3, 3>(cells, size, pc, a, b), // SUB.BA
        28 => act_once::<C, PLACE, 3, 4>(cells, size, pc, a, b), // SUB.F
        29 => act_once::<C, PLACE, 3, 5>(cells, size, pc, a, b), // SUB.X
        30 => act_once::<C, PLACE, 3, 6>(cells, size, pc, a, b), // SUB.I
        31 => act_once::<C, PLACE, 3, 7>(cells, size, pc, a, b), // SUB.I
        32 => act_once::<C, PLACE, 4, 0>(cells, size, pc, a, b), // MUL.A
        33 => act_once::<C, PLACE, 4, 1>(cells, size, pc, a, b), // MUL.B
        34 => act_once::<C, PLACE, 4, 2>(cells, size, pc, a, b), // MUL.AB
        35 => act_once::<C, PLACE, 4, 3>(cells, size, pc, a, b), // MUL.BA
        36 => act_once::<C, PLACE, 4, 4>(cells, size, pc, a, b), // MUL.F
        37 => act_once::<C, PLACE, 4, 5>(cells, size, pc, a, b), // MUL.X
        38 => act_once::<C, PLACE, 4, 6>(cells, size, pc, a, b), // MUL.I
        39 => act_once::<C, PLACE, 4, 7>(cells, size, pc, a, b), // MUL.I
        40 => act_once::<C, PLACE, 5, 0>(cells, size, pc, a, b), // DIV.A
        41 => act_once::<C, PLACE, 5, 1>(cells, size, pc, a, b), // DIV.B
        42 => act_once::<C, PLACE, 5, 2>(cells, size, pc, a, b), // DIV.AB
        43 => act_once::<C, PLACE, 5, 3>(cells, size, pc, a, b), // DIV.BA
        44 => act_once::<C, PLACE, 5, 4>(cells, size, pc, a, b), // DIV.F
        45 => act_once::<C, PLACE, 5, 5>(cells, size, pc, a, b), // DIV.X
        46 => act_once::<C, PLACE, 5, 6>(cells, size, pc, a, b), // DIV.I
        47 => act_once::<C, PLACE, 5, 7>(cells, size, pc, a, b), // DIV.I
        48 => act_once::<C, PLACE, 6, 0>(cells, size, pc, a, b), // MOD.A
        49 => act_once::<C, PLACE, 6, 1>(cells, size, pc, a, b), // MOD.B
        50 => act_once::<C, PLACE, 6, 2>(cells, size, pc, a, b), // MOD.AB
        51 => act_once::<C, PLACE, 6, 3>(cells, size, pc, a, b), // MOD.BA
        52 => act_once::<C, PLACE, 6, 4>(cells, size, pc, a, b), // MOD.F
        53 => act_once::<C, PLACE, 6, 5>(cells, size, pc, a, b), // MOD.X
        54 => act_once::<C, PLACE, 6, 6>(cells, size, pc, a, b), // MOD.I
        55 => act_once::<C, PLACE, 6, 7>(cells, size, pc, a, b), // MOD.I
        56 => act_once::<C, PLACE, 7, 0>(cells, size, pc, a, b), // JMP.A
        57 => act_once::<C, PLACE, 7, 1>(cells, size, pc, a, b), // JMP.B
        58 => act_once::<C, PLACE, 7, 2>(cells, size, pc, a, b), // JMP.AB
        59 => act_once::<C, PLACE, 7, 3>(cells, size, pc, a, b), // JMP.BA
        60 => act_once::<C, PLACE, 7, 4>(cells, size, pc, a, b), // JMP.F
        61 => act_once::<C, PLACE, 7, 5>(cells, size, pc, a, b), // JMP.X
        62 => act_once::<C, PLACE, 7, 6>(cells, size, pc, a, b), // JMP.I
        63 => act_once::<C, PLACE, 7, 7>(cells, size, pc, a, b), // JMP.I
        64 => act_once::<C, PLACE, 8, 0>(cells, size, pc, a, b), // JMZ.A
        65 => act_once::<C, PLACE, 8, 1>(cells, size, pc, a, b), // JMZ.B
        66 => act_once::<C, PLACE, 8, 2>(cells, size, pc, a, b), // JMZ.AB
        67 => act_once::<C, PLACE, 8, 3>(cells, size, pc, a, b), // JMZ.BA
        68 => act_once::<C, PLACE, 8, 4>(cells, size, pc, a, b), // JMZ.F
        69 => act_once::<C, PLACE, 8, 5>(cells, size, pc, a, b), // JMZ.X
        70 => act_once::<C, PLACE, 8, 6>(cells, size, pc, a, b), // JMZ.I
        71 => act_once::<C, PLACE, 8, 7>(cells, size, pc, a, b), // JMZ.I
        72 => act_once::<C, PLACE, 9, 0>(cells, size, pc, a, b), // JMN.A
        73 => act_once::<C, PLACE, 9, 1>(cells, size, pc, a, b), // JMN.B
        74 => act_once::<C, PLACE, 9, 2>(cells, size, pc, a, b), // JMN.AB
        75 => act_once::<C, PLACE, 9, 3>(cells, size, pc, a, b), // JMN.BA
        76 => act_once::<C, PLACE, 9, 4>(cells, size, pc, a, b), // JMN.F
        77 => act_once::<C, PLACE, 9, 5>(cells, size, pc, a, b), // JMN.X
        78 => act_once::<C, PLACE, 9, 6>(cells, size, pc, a, b), // JMN.I
        79 => act_once::<C, PLACE, 9, 7>(cells, size, pc, a, b), // JMN.I
        80 => act_once::<C, PLACE, 10, 0>(cells, size, pc, a, b), // DJN.A
        81 => act_once::<C, PLACE, 10, 1>(cells, size, pc, a, b), // DJN.B
        82 => act_once::<C, PLACE, 10, 2>(cells, size, pc, a, b), // DJN.AB
        83 => act_once::<C, PLACE, 10, 3>(cells, size, pc, a, b), // DJN.BA
        84 => act_once::<C, PLACE, 10, 4>(cells, size, pc, a, b), // DJN.F
        85 => act_once::<C, PLACE, 10, 5>(cells, size, pc, a, b), // DJN.X
        86 => act_once::<C, PLACE, 10, 6>(cells, size, pc, a, b), // DJN.I
        87 => act_once::<C, PLACE, 10, 7>(cells, size, pc, a, b), // DJN.I
        88 => act_once::<C, PLACE, 11, 0>(cells, size, pc, a, b), // SEQ.A
        89 => act_once::<C, PLACE, 11, 1>(cells, size, pc, a, b), // SEQ.B
        90 => act_once::<C, PLACE, 11, 2>(cells, size, pc, a, b), // SEQ.AB
        91 => act_once::<C, PLACE, 11, 3>(cells, size, pc, a, b), // SEQ.BA
        92 => act_once::<C, PLACE, 11, 4>(cells, size, pc, a, b), // SEQ.F
        93 => act_once::<C, PLACE, 11, 5>(cells, size, pc, a, b), // SEQ.X
        94 => act_once::<C, PLACE, 11, 6>(cells, size, pc, a, b), // SEQ.I
        95 => act_once::<C, PLACE, 11, 7>(cells, size, pc, a, b), // SEQ.I
        96 => act_once::<C, PLACE, 12, 0>(cells, size, pc, a, b), // SNE.A
        97 => act_once::<C, PLACE, 12, 1>(cells, size, pc, a, b), // SNE.B
        98 => act_once::<C, PLACE, 12, 2>(cells, size, pc, a, b), // SNE.AB
        99 => act_once::<C, PLACE, 12, 3>(cells, size, pc, a, b), // SNE.BA
        100 => act_once::<C, PLACE, 12, 4>(cells, size, pc, a, b), // SNE.F
        101 => act_once::<C, PLACE, 12, 5>(cells, size, pc, a, b), // SNE.X
        102 => act_once::<C, PLACE, 12, 6>(cells, size, pc, a, b), // SNE.I
        103 => act_once::<C, PLACE, 12, 7>(cells, size, pc, a, b), // SNE.I
        104 => act_once::<C, PLACE, 13, 0>(cells, size, pc, a, b), // SLT.A
        105 => act_once::<C, PLACE, 13, 1>(cells, size, pc, a, b), // SLT.B
        106 => act_once::<C, PLACE, 13, 2>(cells, size, pc, a, b), // SLT.AB
        107 => act_once::<C, PLACE, 13, 3>(cells, size, pc, a, b), // SLT.BA
        108 => act_once::<C, PLACE, 13, 4>(cells, size, pc, a, b), // SLT.F
        109 => act_once::<C, PLACE, 13, 5>(cells, size, pc, a, b), // SLT.X
        110 => act_once::<C, PLACE, 13, 6>(cells, size, pc, a, b), // SLT.I
        111 => act_once::<C, PLACE, 13, 7>(cells, size, pc, a, b), // SLT.I
        112 => act_once::<C, PLACE, 14, 0>(cells, size, pc, a, b), // SPL.A
        113 => act_once::<C, PLACE, 14, 1>(cells, size, pc, a, b), // SPL.B
        114 => act_once::<C, PLACE, 14, 2>(cells, size, pc, a, b), // SPL.AB
        115 => act_once::<C, PLACE, 14, 3>(cells, size, pc, a, b), // SPL.BA
        116 => act_once::<C, PLACE, 14, 4>(cells, size, pc, a, b), // SPL.F
        117 => act_once::<C, PLACE, 14, 5>(cells, size, pc, a, b), // SPL.X
        118 => act_once::<C, PLACE, 14, 6>(cells, size, pc, a, b), // SPL.I
        119 => act_once::<C, PLACE, 14, 7>(cells, size, pc, a, b), // SPL.I
        120 => act_once::<C, PLACE, 15, 0>(cells, size, pc, a, b), // NOP.A
        121 => act_once::<C, PLACE, 15, 1>(cells, size, pc, a, b), // NOP.B
        122 => act_once::<C, PLACE, 15, 2>(cells, size, pc, a, b), // NOP.AB
        123 => act_once::<C, PLACE, 15, 3>(cells, size, pc, a, b), // NOP.BA
        124 => act_once::<C, PLACE, 15, 4>(cells, size, pc, a, b), // NOP.F
        125 => act_once::<C, PLACE, 15, 5>(cells, size, pc, a, b), // NOP.X
        126 => act_once::<C, PLACE, 15, 6>(cells, size, pc, a, b), // NOP.I
        _ => act_once::<C, PLACE, 15, 7>(cells, size, pc, a, b), // NOP.I
        // end of codes
    }
}

// Executes the opcode and the modifier that the const parameters stand for. Not `act_as`, which the
// arms call too: the compiler inlines more of what has few calls.
#[inline]
fn act_once<C: Store, const PLACE: u64, const OPCODE: u64, const MODIFIER: u64>(
    cells: &mut C,
    size: u32,
    pc: u32,
    a: Located<C::Kept>,
    b: Located<C::Kept>,
) -> Queued
    requires codes { (OPCODE < 16) × (MODIFIER < 8) }
    requires core { IsCore size (C.items cells.old) }
    requires a { IsInside size (seen_operand C.Kept.held a) }
    requires b { IsInside size (seen_operand C.Kept.held b) }
    ensures acted { IsActed (opcode_of OPCODE) (modifier_of MODIFIER) size (C.items cells.old) pc (seen_operand C.Kept.held a) (seen_operand C.Kept.held b) (C.items cells.new) result }
    ensures marks { C.marks cells.new ≤ C.marks cells.old + 1 }
{
    act(
        cells,
        size,
        pc,
        opcode_from(OPCODE),
        modifier_from(MODIFIER),
        a,
        b,
    )
}
