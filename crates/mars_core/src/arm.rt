//! Instructions whose opcode, canonical modifier and modes are known at compile time.
ghost use Rattle.std.specs.Prelude.{◌≡◌, ◌<◌, ◌≤◌, ◌+◌, ◌*◌};
ghost use Rattle.mars_core.specs.Classes.{IsClassOf, class_of_key, first_of_modes};
ghost use Rattle.mars_core.specs.Codes.{opcode_of, modifier_of, mode_of};
ghost use Rattle.mars_core.specs.Core.{IsCore};
ghost use Rattle.mars_core.specs.Executed.{seen_operand, IsFetched, IsExecuted, IsInside, IsEvaluated, IsActed};

use crate::cell::Cell;
use crate::cells::Store;
use crate::codes::{mode_from, modifier_from, opcode_from};
use crate::effect::{Queued, act};
use crate::operand::{Located, evaluate};
use crate::turn::Executed;

// Executes the instruction at `pc`, which is `cell`, by its class. The const parameters stand for
// the opcode, canonical modifier and modes of that class, as `Codes` numbers them.
#[inline(always)]
pub(crate) fn arm<
    C: Store,
    const OPCODE: u64,
    const MODIFIER: u64,
    const A_MODE: u64,
    const B_MODE: u64,
>(cells: &mut C, size: u32, pc: u32, cell: C::Kept, class: u64) -> Executed
    requires codes { (OPCODE < 16) × (MODIFIER < 8) }
    requires modes { (A_MODE < 8) × (B_MODE < 8) }
    requires fetched { IsFetched size (C.items cells.old) pc (C.Kept.held cell) }
    requires class { IsClassOf (C.Kept.held cell) class }
    requires frequent { class < first_of_modes }
    requires coded { class ≡ class_of_key (MODIFIER + 8 * OPCODE + 256 * (A_MODE + 8 * B_MODE)) }
    ensures executed { IsExecuted size (C.items cells.old) pc (C.items cells.new) result.jump result.queued }
    ensures marks { C.marks cells.new ≤ C.marks cells.old + 3 }
{
    let a = evaluate_in::<C, A_MODE>(cells, size, pc, cell.a_number());
    let b = evaluate_in::<C, B_MODE>(cells, size, pc, cell.b_number());
    let queued = act_as::<C, OPCODE, MODIFIER>(cells, size, pc, a, b);
    Executed {
        queued,
        jump: a.address,
    }
}

// Evaluates an operand in the mode that `MODE` stands for.
#[inline]
pub(crate) fn evaluate_in<C: Store, const MODE: u64>(
    cells: &mut C,
    size: u32,
    pc: u32,
    n: u32,
) -> Located<C::Kept>
    requires mode { MODE < 8 }
    requires core { IsCore size (C.items cells.old) }
    requires pc { pc < size }
    requires n { n < size }
    ensures evaluated { IsEvaluated size (C.items cells.old) pc (mode_of MODE) n (seen_operand C.Kept.held result) (C.items cells.new) }
    ensures marks { C.marks cells.new ≤ C.marks cells.old + 1 }
{
    evaluate(cells, size, pc, mode_from(MODE), n)
}

// Executes the opcode and the modifier that the const parameters stand for.
#[inline]
fn act_as<C: Store, const OPCODE: u64, const MODIFIER: u64>(
    cells: &mut C,
    size: u32,
    pc: u32,
    a: Located<C::Kept>,
    b: Located<C::Kept>,
) -> Queued
    requires codes { (OPCODE < 16) × (MODIFIER < 8) }
    requires core { IsCore size (C.items cells.old) }
    requires a { IsInside size (seen_operand C.Kept.held a) }
    requires b { IsInside size (seen_operand C.Kept.held b) }
    ensures acted { IsActed (opcode_of OPCODE) (modifier_of MODIFIER) size (C.items cells.old) pc (seen_operand C.Kept.held a) (seen_operand C.Kept.held b) (C.items cells.new) result }
    ensures marks { C.marks cells.new ≤ C.marks cells.old + 1 }
{
    act(
        cells,
        size,
        pc,
        opcode_from(OPCODE),
        modifier_from(MODIFIER),
        a,
        b,
    )
}
