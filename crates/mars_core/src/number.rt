//! The numbers of a core, 0 to `size - 1`: the two of a cell, and arithmetic modulo the core size.
ghost use Rattle.std.specs.Prelude.{◌≡◌, ◌<◌, ◌≤◌};
ghost use Rattle.rc_instr.specs.Warrior.{IsBelow};
ghost use Rattle.mars_core.specs.Core.{IsCellOf, sum_of, difference_of, product_of, field_of, with_field};

use crate::cell::Cell;

/// Which of a cell's two numbers is meant.
#[derive(Clone, Copy)]
pub enum Field {
    ANumber,
    BNumber,
}

// Returns the cell with one of its numbers lowered by 1.
#[tactic(auto, using(crate::proofs::Below::fields, crate::proofs::Sums::by_one))]
#[inline]
pub(crate) fn lowered<K: Cell>(size: u32, field: Field, cell: K) -> K
    requires { IsCellOf size (K.held cell) }
    ensures value { K.held result ≡ with_field field (difference_of size (field_of field (K.held cell)) 1) (K.held cell) }
    ensures below { IsBelow size (K.held result) }
{
    let number = cell.number(field);
    cell.with_number(field, if number == 0 { size - 1 } else { number - 1 })
}

// Returns the cell with one of its numbers raised by 1.
#[tactic(auto, using(crate::proofs::Below::fields, crate::proofs::Sums::by_one))]
#[inline]
pub(crate) fn raised<K: Cell>(size: u32, field: Field, cell: K) -> K
    requires { IsCellOf size (K.held cell) }
    ensures value { K.held result ≡ with_field field (sum_of size (field_of field (K.held cell)) 1) (K.held cell) }
    ensures below { IsBelow size (K.held result) }
{
    let next = cell.number(field) + 1;
    cell.with_number(field, if next == size { 0 } else { next })
}

// Adds modulo `size`. Both terms are below it, so one subtraction replaces the division. Tests the
// sign of the difference, which compiles to a conditional move, while `z < size` makes a branch.
#[tactic(auto, unfolding(crate::specs::Core::sum_of))]
#[inline]
pub(crate) fn sum(size: u32, x: u32, y: u32) -> u32
    requires size { size ≤ 65535 }
    requires x { x < size }
    requires y { y < size }
    ensures value { result ≡ sum_of size x y }
    ensures below { result < size }
{
    let z = x + y;
    let t = z.wrapping_sub(size);
    if t >= 2147483648 { z } else { t }
}

// Subtracts modulo `size`, without a division and without a branch.
#[tactic(auto, unfolding(crate::specs::Core::difference_of))]
#[inline]
pub(crate) fn difference(size: u32, x: u32, y: u32) -> u32
    requires size { size ≤ 65535 }
    requires x { x < size }
    requires y { y < size }
    ensures value { result ≡ difference_of size x y }
    ensures below { result < size }
{
    let t = x.wrapping_sub(y);
    if t >= 2147483648 {
        t.wrapping_add(size)
    } else {
        t
    }
}

// Multiplies modulo `size`. This is the only operation that divides by the core size.
#[tactic(auto, unfolding(crate::specs::Core::product_of))]
#[inline]
pub(crate) fn product(size: u32, x: u32, y: u32) -> u32
    requires size { size ≤ 65535 }
    requires x { x < size }
    requires y { y < size }
    ensures value { result ≡ product_of size x y }
    ensures below { result < size }
{
    x * y % size
}
