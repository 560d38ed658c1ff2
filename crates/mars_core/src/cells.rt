//! The cells of a core: how they are kept, read, written, and emptied again.
ghost use Rattle.std.specs.Prelude.{◌≡◌, ℕ, ◌+◌, ◌*◌, ◌<◌, ◌≤◌, Bool, true, List, length, replicate, slice_set, All, IfOk};
ghost use Rattle.rc_instr.specs.Instruction.{empty_cell};
ghost use Rattle.rc_instr.specs.declared.instruction.Instruction.{Instruction};
ghost use Rattle.rc_instr.specs.Warrior.{IsBelow};
ghost use Rattle.mars_core.specs.Core.{cell_at, filled_in, loaded_at, IsCore};
ghost use Rattle.mars_core.specs.Played.{CanPlay, Plays};
ghost use Rattle.mars_core.specs.Queue.{stretch};
ghost use Rattle.mars_core.specs.Store.{marks_after};

use crate::cell::Cell;
use crate::fight_loop::take_turns;
use crate::plain_queue::PlainQueue;
use crate::tasks::Tasks;
use rc_instr::{Instruction, OutOfMemory};
use std::alloc::Global;
use std::mem;

/// A store of cells as a turn uses it: cells are read and replaced. The store marks and counts
/// those that have to be set to empty it again.
///
/// Contracts see a list of instructions, a list that says of each cell whether it is marked, and a
/// number, the marks. Addresses count from 0.
pub trait Store {
    /// A cell as the store keeps it.
    type Kept: Cell;
    /// The queue of tasks that goes with the store.
    type Queue: Tasks;

    /// The cells, in the order of their addresses.
    ghost items: { Self → List Instruction };
    /// For each cell, whether it has to be set to empty the store.
    ghost marked: { Self → List Bool };
    /// The number of marked cells.
    ghost marks: { Self → ℕ };

    /// Returns the number of cells.
    fn size(&self) -> u32
        ensures size { result ≡ length (items self.now) }
        ensures each { length (marked self.now) ≡ length (items self.now) };

    /// Returns the cell at address `at`, which is below the size, as the store keeps it.
    fn cell(&self, at: u32) -> Self::Kept
        requires { at < length (items self.now) }
        ensures { Self.Kept.held result ≡ cell_at (items self.now) at };

    /// Replaces the cell at address `at`, which is below the size, and marks it. Adds 1 to the
    /// marks if the cell was not marked, even if it holds the same instruction as before.
    fn put(&mut self, at: u32, cell: Self::Kept)
        requires { at < length (items self.old) }
        ensures items { items self.new ≡ slice_set (items self.old) at (Self.Kept.held cell) }
        ensures marked { marked self.new ≡ slice_set (marked self.old) at true }
        ensures marks { marks self.new ≡ marks_after (marked self.old) at (marks self.old) };
}

/// The cells of an arena: a store that plays cycles of a fight, and that `restore` empties.
pub trait Cells: Store {
    /// The marks of a new store, by its number of cells.
    ghost new_marks: { ℕ → ℕ };
    /// Whether the cells of a new store are marked.
    ghost new_mark: { Bool };

    /// Returns the cell at address `at`, which is below the size.
    fn get(&self, at: u32) -> Instruction
        requires { at < length (Self.items self.now) }
        ensures { result ≡ cell_at (Self.items self.now) at }
    {
        self.cell(at).instruction()
    }

    /// Replaces the cell at address `at`, which is below the size, and marks it as `put` does.
    fn set(&mut self, at: u32, instruction: Instruction)
        requires { at < length (Self.items self.old) }
        ensures items { Self.items self.new ≡ slice_set (Self.items self.old) at instruction }
        ensures marked { Self.marked self.new ≡ slice_set (Self.marked self.old) at true }
        ensures marks { Self.marks self.new ≡ marks_after (Self.marked self.old) at (Self.marks self.old) }
    {
        self.put(at, Self::Kept::of(instruction));
    }

    /// Copies all cells of `other`, which has as many, with their marks.
    fn copy_from(&mut self, other: &Self)
        requires { length (Self.items self.old) ≡ length (Self.items other.now) }
        ensures items { Self.items self.new ≡ Self.items other.now }
        ensures marked { Self.marked self.new ≡ Self.marked other.now }
        ensures marks { Self.marks self.new ≡ Self.marks other.now };

    /// Alternates turns, `mine` first, until a queue is empty or `cycles`, at most `STRETCH`, are
    /// over. Returns the number of turns, each of which adds at most 3 to the marks.
    fn alternate(
        &mut self,
        mine: &mut Self::Queue,
        theirs: &mut Self::Queue,
        size: u32,
        cycles: u32,
    ) -> u32
        requires can_play { CanPlay size (Self.items self.old) (Self.Queue.held mine.old) (Self.Queue.held theirs.old) cycles }
        requires few { cycles ≤ stretch }
        ensures played { Plays size (Self.items self.old) (Self.Queue.held mine.old) (Self.Queue.held theirs.old) cycles result (Self.items self.new) (Self.Queue.held mine.new) (Self.Queue.held theirs.new) }
        ensures marks { Self.marks self.new ≤ Self.marks self.old + 3 * result };

    /// Marks every cell. Until the next `restore` no write has to be recorded.
    fn mark_all(&mut self)
        ensures items { Self.items self.new ≡ Self.items self.old }
        ensures marked { Self.marked self.new ≡ replicate (length (Self.items self.old)) true }
        ensures marks { Self.marks self.new ≡ length (Self.items self.old) };

    /// Empties every cell. Returns how many cells it set: the marked ones, and so all that were not
    /// empty.
    ///
    /// Afterwards the marks are as in a new store.
    fn restore(&mut self) -> u32
        ensures count { result ≡ Self.marks self.old }
        ensures least { filled_in (Self.items self.old) ≤ result }
        ensures marked { Self.marked self.new ≡ replicate (length (Self.items self.old)) new_mark }
        ensures items { Self.items self.new ≡ replicate (length (Self.items self.old)) empty_cell }
        ensures marks { Self.marks self.new ≡ new_marks (length (Self.items self.old)) };
}

/// Keeps each cell as an instruction. `restore` sets all cells, so the marks are their number.
#[derive(Drop)]
pub struct PlainCells {
    cells: Vec<Instruction>,
    ghost small: { length cells.items ≤ 65535 },
}

impl PlainCells {
    // Makes `size` empty cells.
    pub(crate) fn try_new(alloc: Global, size: u32) -> Result<PlainCells, OutOfMemory>
        requires { size ≤ 65535 }
        ensures { IfOk result (λ c. c.cells.items ≡ replicate size empty_cell) }
    {
        let cells = vec![in alloc; Instruction::empty(); size as usize]?;
        Ok(PlainCells { cells })
    }
}

impl Store for PlainCells {
    type Kept = Instruction;

    type Queue = PlainQueue;

    ghost items = { λ s. s.cells.items };

    ghost marked = { λ s. replicate (length s.cells.items) true };

    ghost marks = { λ s. length s.cells.items };

    #[inline]
    #[tactic(auto, using(crate::proofs::Marks::as_many))]
    fn size(&self) -> u32 {
        self.cells.len() as u32
    }

    #[inline]
    #[tactic(auto, unfolding(crate::specs::Core::cell_at))]
    fn cell(&self, at: u32) -> Instruction {
        self.cells[at as usize]
    }

    #[inline]
    #[tactic(auto, using(crate::proofs::Marks::all_stay, crate::proofs::Marks::none_added))]
    fn put(&mut self, at: u32, cell: Instruction) {
        self.cells[at as usize] = cell;
    }
}

impl Cells for PlainCells {
    ghost new_marks = { λ m. m };

    ghost new_mark = { true };

    fn copy_from(&mut self, other: &PlainCells) {
        self.cells.copy_from_slice(&other.cells);
    }

    fn alternate(
        &mut self,
        mine: &mut PlainQueue,
        theirs: &mut PlainQueue,
        size: u32,
        cycles: u32,
    ) -> u32 {
        let none = PlainCells {
            cells: Vec::new(*self.cells.allocator()),
        };
        let cells = mem::replace(self, none);
        let (one, other) = (mine.take(), theirs.take());
        let (cells, one, other, turns) = take_turns(cells, one, other, size, cycles);
        *self = cells;
        *mine = one;
        *theirs = other;
        turns
    }

    fn mark_all(&mut self) {}

    #[tactic(auto, using(crate::proofs::Marks::at_most_all, crate::proofs::Marks::still_all))]
    fn restore(&mut self) -> u32 {
        self.cells.fill(Instruction::empty());
        self.size()
    }
}

// Reads a cell of a core: its numbers are below the core size.
#[tactic(auto, using(crate::proofs::Below::cell_below))]
#[inline]
pub(crate) fn read<C: Store>(cells: &C, size: u32, at: u32) -> C::Kept
    requires core { IsCore size (C.items cells.now) }
    requires at { at < size }
    ensures value { C.Kept.held result ≡ cell_at (C.items cells.now) at }
    ensures below { IsBelow size (C.Kept.held result) }
{
    cells.cell(at)
}

// Replaces a cell of a core.
#[tactic(auto, using(crate::proofs::Below::core_set, crate::proofs::Marks::one_added))]
#[inline]
pub(crate) fn write<C: Store>(cells: &mut C, size: u32, at: u32, cell: C::Kept)
    requires core { IsCore size (C.items cells.old) }
    requires at { at < size }
    requires below { IsBelow size (C.Kept.held cell) }
    ensures items { C.items cells.new ≡ slice_set (C.items cells.old) at (C.Kept.held cell) }
    ensures core { IsCore size (C.items cells.new) }
    ensures marks { C.marks cells.new ≤ C.marks cells.old + 1 }
{
    cells.put(at, cell);
}

// Writes code into the cells from address `at` on, without wrapping round the end.
#[tactic(auto, using(crate::proofs::Loading::loaded))]
pub(crate) fn load_code<C: Store>(cells: &mut C, size: u32, at: u32, code: &[Instruction])
    requires core { IsCore size (C.items cells.old) }
    requires room { at + length code.now ≤ size }
    requires below { All (IsBelow size) code.now }
    ensures items { C.items cells.new ≡ loaded_at (C.items cells.old) at code.now }
    ensures core { IsCore size (C.items cells.new) }
    ensures marks { C.marks cells.new ≤ C.marks cells.old + length code.now }
{
    let mut to = at;
    for instruction in code {
        write(cells, size, to, C::Kept::of(*instruction));
        to += 1;
    }
}
