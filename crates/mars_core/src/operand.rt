//! Operands: where they point, and what their modes change.
ghost use Rattle.std.specs.Prelude.{◌≡◌, ◌<◌, ◌≤◌, ◌+◌};
ghost use Rattle.rc_instr.specs.Warrior.{IsBelow};
ghost use Rattle.mars_core.specs.Core.{cell_at, changed_at, IsCore, sum_of, difference_of, field_of};
ghost use Rattle.mars_core.specs.Executed.{seen_operand, IsEvaluated};

use crate::cell::Cell;
use crate::cells::{Store, read, write};
use crate::number::{Field, lowered, raised, sum};
use rc_instr::Mode;

// An address, and a copy of the cell there: where an operand points, or what it goes through.
#[derive(Clone, Copy)]
pub(crate) struct Located<K> {
    pub(crate) address: u32,
    pub(crate) copy: K,
}

// Evaluates an operand of the task at `pc`. A predecrement mode lowers the number on the way to the
// operand and then uses it; a postincrement mode raises it after the copy is taken.
#[tactic(auto, using(crate::proofs::Sums::sums), unfolding(crate::specs::Operand::operand_of))]
#[inline(always)]
pub(crate) fn evaluate<C: Store>(
    cells: &mut C,
    size: u32,
    pc: u32,
    mode: Mode,
    n: u32,
) -> Located<C::Kept>
    requires core { IsCore size (C.items cells.old) }
    requires pc { pc < size }
    requires n { n < size }
    ensures evaluated { IsEvaluated size (C.items cells.old) pc mode n (seen_operand C.Kept.held result) (C.items cells.new) }
    ensures marks { C.marks cells.new ≤ C.marks cells.old + 1 }
{
    match mode {
        Mode::Immediate => at(cells, size, pc),
        Mode::Direct => at(cells, size, sum(size, pc, n)),
        Mode::AIndirect => {
            let way = at(cells, size, sum(size, pc, n));
            at(cells, size, sum(size, way.address, way.copy.a_number()))
        }
        Mode::BIndirect => {
            let way = at(cells, size, sum(size, pc, n));
            at(cells, size, sum(size, way.address, way.copy.b_number()))
        }
        Mode::APredecrement => {
            let way = sum(size, pc, n);
            let number = lower(cells, size, Field::ANumber, way);
            at(cells, size, sum(size, way, number))
        }
        Mode::BPredecrement => {
            let way = sum(size, pc, n);
            let number = lower(cells, size, Field::BNumber, way);
            at(cells, size, sum(size, way, number))
        }
        Mode::APostincrement => {
            let way = at(cells, size, sum(size, pc, n));
            let evaluated = at(cells, size, sum(size, way.address, way.copy.a_number()));
            raise(cells, size, Field::ANumber, way);
            evaluated
        }
        Mode::BPostincrement => {
            let way = at(cells, size, sum(size, pc, n));
            let evaluated = at(cells, size, sum(size, way.address, way.copy.b_number()));
            raise(cells, size, Field::BNumber, way);
            evaluated
        }
    }
}

// Lowers one number of the cell at `at` by 1. Returns the lowered number.
#[tactic(auto, using(crate::proofs::Operands::cell_set), unfolding(crate::specs::Core::changed_at))]
#[inline]
fn lower<C: Store>(cells: &mut C, size: u32, field: Field, at: u32) -> u32
    requires core { IsCore size (C.items cells.old) }
    requires at { at < size }
    ensures items { C.items cells.new ≡ changed_at (C.items cells.old) at field (λ x. difference_of size x 1) }
    ensures number { result ≡ field_of field (cell_at (C.items cells.new) at) }
    ensures below { result < size }
    ensures core { IsCore size (C.items cells.new) }
    ensures marks { C.marks cells.new ≤ C.marks cells.old + 1 }
{
    let cell = read(cells, size, at);
    let changed = lowered(size, field, cell);
    write(cells, size, at, changed);
    changed.number(field)
}

// Raises one number of the cell at `way.address` by 1. `way.copy` is that cell.
#[tactic(auto, unfolding(crate::specs::Core::changed_at))]
#[inline]
fn raise<C: Store>(cells: &mut C, size: u32, field: Field, way: Located<C::Kept>)
    requires core { IsCore size (C.items cells.old) }
    requires address { way.address < size }
    requires copy { C.Kept.held way.copy ≡ cell_at (C.items cells.old) way.address }
    requires below { IsBelow size (C.Kept.held way.copy) }
    ensures items { C.items cells.new ≡ changed_at (C.items cells.old) way.address field (λ x. sum_of size x 1) }
    ensures core { IsCore size (C.items cells.new) }
    ensures marks { C.marks cells.new ≤ C.marks cells.old + 1 }
{
    write(cells, size, way.address, raised(size, field, way.copy));
}

// Returns an address, and a copy of the cell there.
#[inline]
fn at<C: Store>(cells: &C, size: u32, address: u32) -> Located<C::Kept>
    requires core { IsCore size (C.items cells.now) }
    requires address { address < size }
    ensures address { result.address ≡ address }
    ensures copy { C.Kept.held result.copy ≡ cell_at (C.items cells.now) address }
    ensures below { IsBelow size (C.Kept.held result.copy) }
{
    Located {
        address,
        copy: read(cells, size, address),
    }
}
