//! The opcodes: what each writes, and what it queues.
ghost use Rattle.std.specs.Prelude.{◌≡◌, ◌<◌, ◌≤◌, ◌+◌, if◌then◌else◌};
ghost use Rattle.rc_instr.specs.Warrior.{IsBelow};
ghost use Rattle.mars_core.specs.Core.{updated_at, IsCore};
ghost use Rattle.mars_core.specs.Pairs.{computed};
ghost use Rattle.mars_core.specs.Executed.{seen_operand, IsInside, IsActed};
ghost use Rattle.mars_core.specs.declared.effect.Queued.{Queued};

use crate::cell::Cell;
use crate::cells::{Store, read, write};
use crate::effect::Queued::{Jump, Next, Nothing, Skip, Split};
use crate::operand::Located;
use crate::pairs::{all_equal, all_less, all_tested_are, count_down, divides_by_zero, write_pairs};
use rc_instr::{Modifier, Opcode};

// Says which addresses a task queues, in order.
#[derive(Clone, Copy)]
pub(crate) enum Queued {
    // None: the task dies.
    Nothing,
    // The next address.
    Next,
    // The address after the next.
    Skip,
    // The address to which the A-operand points.
    Jump,
    // The next address, then the address to which the A-operand points.
    Split,
}

// Executes an opcode on its evaluated operands, for the task at `pc`. Returns what the task queues.
#[tactic(auto, unfolding(crate::specs::Step::effect_of, crate::specs::Pairs::computed))]
#[inline(always)]
pub(crate) fn act<C: Store>(
    cells: &mut C,
    size: u32,
    pc: u32,
    opcode: Opcode,
    modifier: Modifier,
    a: Located<C::Kept>,
    b: Located<C::Kept>,
) -> Queued
    requires core { IsCore size (C.items cells.old) }
    requires a { IsInside size (seen_operand C.Kept.held a) }
    requires b { IsInside size (seen_operand C.Kept.held b) }
    ensures acted { IsActed opcode modifier size (C.items cells.old) pc (seen_operand C.Kept.held a) (seen_operand C.Kept.held b) (C.items cells.new) result }
    ensures marks { C.marks cells.new ≤ C.marks cells.old + 1 }
{
    let (x, y) = (a.copy, b.copy);
    match opcode {
        Opcode::Dat => Nothing,
        Opcode::Mov | Opcode::Add | Opcode::Sub | Opcode::Mul => {
            compute(cells, size, opcode, modifier, x, b);
            Next
        }
        Opcode::Div | Opcode::Mod => {
            compute(cells, size, opcode, modifier, x, b);
            choose(divides_by_zero(modifier, x), Nothing, Next)
        }
        Opcode::Jmp => Jump,
        Opcode::Jmz => choose(all_tested_are(modifier, 0, y), Jump, Next),
        Opcode::Jmn => choose(all_tested_are(modifier, 0, y), Next, Jump),
        // Tests `y`, the copy from before the decrement: hence 1, not 0.
        Opcode::Djn => {
            let target = read(cells, size, b.address);
            write(cells, size, b.address, count_down(modifier, size, target));
            choose(all_tested_are(modifier, 1, y), Next, Jump)
        }
        Opcode::Seq => choose(all_equal(modifier, x, y), Skip, Next),
        Opcode::Sne => choose(all_equal(modifier, x, y), Next, Skip),
        Opcode::Slt => choose(all_less(modifier, x, y), Skip, Next),
        Opcode::Spl => Split,
        Opcode::Nop => Next,
    }
}

#[inline]
fn choose(test: bool, yes: Queued, no: Queued) -> Queued
    ensures { result ≡ (if test then yes else no) }
{
    if test { yes } else { no }
}

// Writes what MOV, ADD, SUB, MUL, DIV or MOD computes into the cell of the B-operand.
#[tactic(auto, using(crate::proofs::Written::computed_pairs), unfolding(crate::specs::Pairs::computed))]
#[inline(always)]
fn compute<C: Store>(
    cells: &mut C,
    size: u32,
    opcode: Opcode,
    modifier: Modifier,
    a: C::Kept,
    b: Located<C::Kept>,
)
    requires core { IsCore size (C.items cells.old) }
    requires a { IsBelow size (C.Kept.held a) }
    requires b { IsInside size (seen_operand C.Kept.held b) }
    ensures items { C.items cells.new ≡ updated_at (C.items cells.old) b.address (computed opcode modifier size (C.Kept.held a) (C.Kept.held b.copy)) }
    ensures core { IsCore size (C.items cells.new) }
    ensures marks { C.marks cells.new ≤ C.marks cells.old + 1 }
{
    let changed = match (opcode, modifier) {
        (Opcode::Mov, Modifier::I) => a,
        _ => {
            let target = read(cells, size, b.address);
            write_pairs(opcode, modifier, size, a, b.copy, target)
        }
    };
    write(cells, size, b.address, changed);
}
