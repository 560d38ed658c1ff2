//! The numbers that a modifier pairs: what opcodes compute from them, and the tests of jumps and
//! skips.
ghost use Rattle.std.specs.Prelude.{◌≡◌, ◌<◌, ◌≤◌, IfSome};
ghost use Rattle.rc_instr.specs.Warrior.{IsBelow};
ghost use Rattle.mars_core.specs.Core.{IsCellOf, field_of};
ghost use Rattle.mars_core.specs.Pairs.{pairs_of, written_value, put, written, counted_down, has_zero_divisor, all_are, are_equal, are_less};

use crate::cell::Cell;
use crate::number::Field::{self, ANumber, BNumber};
use crate::number::{difference, lowered, product, sum};
use rc_instr::{Modifier, Opcode};

// Returns what an opcode writes for one pair of an A-value and a B-value. `None` if it writes
// nothing, as DIV and MOD do with a zero divisor.
#[tactic(auto, unfolding(crate::specs::Pairs::written_value))]
#[inline]
fn written_value(opcode: Opcode, size: u32, a: u32, b: u32) -> Option<u32>
    requires size { size ≤ 65535 }
    requires a { a < size }
    requires b { b < size }
    ensures value { result ≡ written_value opcode size a b }
    ensures below { IfSome result (λ n. n < size) }
{
    match opcode {
        Opcode::Mov => Some(a),
        Opcode::Add => Some(sum(size, b, a)),
        Opcode::Sub => Some(difference(size, b, a)),
        Opcode::Mul => Some(product(size, b, a)),
        Opcode::Div => b.checked_div(a),
        Opcode::Mod => b.checked_rem(a),
        _ => None,
    }
}

// Returns the target after the value of one pair is written to the number that the pair leads to.
#[tactic(auto, using(crate::proofs::Below::fields))]
#[inline]
fn write_pair<K: Cell>(
    opcode: Opcode,
    size: u32,
    from: Field,
    to: Field,
    a: K,
    b: K,
    target: K,
) -> K
    requires size { size ≤ 65535 }
    requires a { IsBelow size (K.held a) }
    requires b { IsBelow size (K.held b) }
    requires target { IsBelow size (K.held target) }
    ensures value { K.held result ≡ put to (written_value opcode size (field_of from (K.held a)) (field_of to (K.held b))) (K.held target) }
    ensures below { IsBelow size (K.held result) }
{
    match written_value(opcode, size, a.number(from), b.number(to)) {
        Some(number) => target.with_number(to, number),
        None => target,
    }
}

// Returns the target after the value of each pair is written.
#[inline(always)]
pub(crate) fn write_pairs<K: Cell>(
    opcode: Opcode,
    modifier: Modifier,
    size: u32,
    a: K,
    b: K,
    target: K,
) -> K
    requires size { size ≤ 65535 }
    requires a { IsBelow size (K.held a) }
    requires b { IsBelow size (K.held b) }
    requires target { IsBelow size (K.held target) }
    ensures value { K.held result ≡ written (written_value opcode size) (pairs_of modifier) (K.held a) (K.held b) (K.held target) }
    ensures below { IsBelow size (K.held result) }
{
    match modifier {
        Modifier::A => write_pair(opcode, size, ANumber, ANumber, a, b, target),
        Modifier::B => write_pair(opcode, size, BNumber, BNumber, a, b, target),
        Modifier::AB => write_pair(opcode, size, ANumber, BNumber, a, b, target),
        Modifier::BA => write_pair(opcode, size, BNumber, ANumber, a, b, target),
        Modifier::F | Modifier::I => {
            let half = write_pair(opcode, size, ANumber, ANumber, a, b, target);
            write_pair(opcode, size, BNumber, BNumber, a, b, half)
        }
        Modifier::X => {
            let half = write_pair(opcode, size, ANumber, BNumber, a, b, target);
            write_pair(opcode, size, BNumber, ANumber, a, b, half)
        }
    }
}

// Returns the target as DJN leaves it: the numbers that it tests, lowered by 1.
#[tactic(auto, unfolding(crate::specs::Pairs::counted_down))]
#[inline(always)]
pub(crate) fn count_down<K: Cell>(modifier: Modifier, size: u32, target: K) -> K
    requires { IsCellOf size (K.held target) }
    ensures value { K.held result ≡ counted_down modifier size (K.held target) }
    ensures below { IsBelow size (K.held result) }
{
    match modifier {
        Modifier::A | Modifier::BA => lowered(size, ANumber, target),
        Modifier::B | Modifier::AB => lowered(size, BNumber, target),
        Modifier::F | Modifier::X | Modifier::I => {
            lowered(size, BNumber, lowered(size, ANumber, target))
        }
    }
}

// Returns whether some A-value is 0, in which case DIV and MOD end the task.
#[tactic(auto, unfolding(crate::specs::Pairs::has_zero_divisor))]
#[inline(always)]
pub(crate) fn divides_by_zero<K: Cell>(modifier: Modifier, a: K) -> bool
    ensures { result ≡ has_zero_divisor modifier (K.held a) }
{
    match modifier {
        Modifier::A | Modifier::AB => a.a_number() == 0,
        Modifier::B | Modifier::BA => a.b_number() == 0,
        Modifier::F | Modifier::X | Modifier::I => a.a_number() == 0 || a.b_number() == 0,
    }
}

// Returns whether all numbers that JMZ, JMN or DJN tests are `n`.
#[tactic(auto, unfolding(crate::specs::Pairs::all_are))]
#[inline(always)]
pub(crate) fn all_tested_are<K: Cell>(modifier: Modifier, n: u32, b: K) -> bool
    ensures { result ≡ all_are modifier n (K.held b) }
{
    match modifier {
        Modifier::A | Modifier::BA => b.a_number() == n,
        Modifier::B | Modifier::AB => b.b_number() == n,
        Modifier::F | Modifier::X | Modifier::I => b.a_number() == n && b.b_number() == n,
    }
}

// Returns whether the values of every pair are equal; with I, whether the instructions are.
#[tactic(auto, unfolding(crate::specs::Pairs::are_equal))]
#[inline(always)]
pub(crate) fn all_equal<K: Cell>(modifier: Modifier, a: K, b: K) -> bool
    ensures { result ≡ are_equal modifier (K.held a) (K.held b) }
{
    match modifier {
        Modifier::A => a.a_number() == b.a_number(),
        Modifier::B => a.b_number() == b.b_number(),
        Modifier::AB => a.a_number() == b.b_number(),
        Modifier::BA => a.b_number() == b.a_number(),
        Modifier::F => a.a_number() == b.a_number() && a.b_number() == b.b_number(),
        Modifier::X => a.a_number() == b.b_number() && a.b_number() == b.a_number(),
        Modifier::I => a.is_same(b),
    }
}

// Returns whether every A-value is less than its B-value.
#[tactic(auto, unfolding(crate::specs::Pairs::are_less))]
#[inline(always)]
pub(crate) fn all_less<K: Cell>(modifier: Modifier, a: K, b: K) -> bool
    ensures { result ≡ are_less modifier (K.held a) (K.held b) }
{
    match modifier {
        Modifier::A => a.a_number() < b.a_number(),
        Modifier::B => a.b_number() < b.b_number(),
        Modifier::AB => a.a_number() < b.b_number(),
        Modifier::BA => a.b_number() < b.a_number(),
        Modifier::F | Modifier::I => a.a_number() < b.a_number() && a.b_number() < b.b_number(),
        Modifier::X => a.a_number() < b.b_number() && a.b_number() < b.a_number(),
    }
}
