//! A state of a fight that is kept, to see whether it comes back.
ghost use Rattle.std.specs.Prelude.{◌≡◌, ◌<◌, ◌≤◌, ◌⊎◌, length, IfOk, IfSome};
ghost use Rattle.rc_instr.specs.Limits.{MOST_CYCLES};
ghost use Rattle.mars_core.specs.Arena.{snapshot_view, IsBack};

use crate::cell::Cell;
use crate::cells::Cells;
use crate::tasks::{Tasks, have_same_tasks};
use rc_instr::OutOfMemory;
use std::alloc::Global;
use std::marker::Model;

// The most tasks of a side in a state that is kept. With more tasks a state seldom comes back, and
// the queue takes long to compare.
const FEW_TASKS: usize = 8;

// The state of a fight after some of its cycles.
#[derive(Drop)]
pub(crate) struct Snapshot<C: Cells> {
    cells: C,
    // The tasks of the side that moves first, and of the other side.
    mine: C::Queue,
    theirs: C::Queue,
    // After how many cycles it was taken, 0 if none was taken in this fight.
    cycles: u32,
    // After how many cycles the next one is to be taken.
    due: u32,
    // Where the last comparison found different cells; the core size if it found none.
    differs: u32,
}

impl<C: Cells> Model for Snapshot<C> {
    ghost use Rattle.mars_core.specs.Arena.{SnapshotView, snapshot_view, HasRoom};

    ghost Value = { SnapshotView };

    ghost view = { λ s. snapshot_view (C.items s.cells) (C.Queue.held s.mine).items (C.Queue.held s.theirs).items s.cycles };

    ghost invariant = { λ s. HasRoom (C.Queue.held s.mine) (C.Queue.held s.theirs) };
}

impl<C: Cells + Drop> Snapshot<C> {
    // Makes a snapshot that keeps its cells in `cells`.
    pub(crate) fn over(alloc: Global, cells: C) -> Result<Snapshot<C>, OutOfMemory>
        ensures { IfOk result (λ s. s.core ≡ C.items cells) }
    {
        let mine = C::Queue::with_capacity(alloc, FEW_TASKS)?;
        let theirs = C::Queue::with_capacity(alloc, FEW_TASKS)?;
        Ok(Snapshot {
            cells,
            mine,
            theirs,
            cycles: 0,
            due: 0,
            differs: 0,
        })
    }
}

impl<C: Cells> Snapshot<C> {
    // Begins a fight: none of its states was taken yet.
    pub(crate) fn forget(&mut self)
        ensures { self.new ≡ record self.old { cycles = 0 } }
    {
        self.cycles = 0;
        self.due = 0;
    }

    // Returns how many cycles ago the state was taken, if it is the same again. May miss that:
    // marks are compared too, so a cell first written after the state was taken makes a difference.
    // A state that is taken later has that mark.
    pub(crate) fn period(
        &mut self,
        cells: &C,
        mine: &C::Queue,
        theirs: &C::Queue,
        cycles: u32,
    ) -> Option<u32>
        requires size { length (C.items cells.now) ≡ length self.old.core }
        requires cycles { self.old.cycles < cycles }
        ensures back { IfSome result (IsBack self.old (C.items cells.now) (C.Queue.held mine.now).items (C.Queue.held theirs.now).items cycles) }
        ensures kept { self.new ≡ self.old }
    {
        if self.cycles == 0
            || !have_same_tasks(&self.mine, mine)
            || !have_same_tasks(&self.theirs, theirs)
        {
            return None;
        }
        self.differs = differing_address(&self.cells, cells, self.differs);
        if self.differs != cells.size() {
            return None;
        }
        Some(cycles - self.cycles)
    }

    // Takes the state after `cycles` cycles, in place of the one taken before, if that is due and
    // both sides have few tasks. A state taken after n cycles is kept at least up to cycle 4n, so
    // that longer and longer periods are found; up to 2n would mean more states to copy.
    pub(crate) fn renew(&mut self, cells: &C, mine: &C::Queue, theirs: &C::Queue, cycles: u32)
        requires size { length (C.items cells.now) ≡ length self.old.core }
        requires cycles { cycles ≤ MOST_CYCLES }
        ensures { (self.new ≡ self.old) ⊎ (self.new ≡ snapshot_view (C.items cells.now) (C.Queue.held mine.now).items (C.Queue.held theirs.now).items cycles) }
    {
        if cycles < self.due || mine.len() > FEW_TASKS || theirs.len() > FEW_TASKS {
            return;
        }
        self.cells.copy_from(cells);
        self.mine.copy_from(mine);
        self.theirs.copy_from(theirs);
        self.cycles = cycles;
        self.due = 4 * cycles;
    }
}

// Returns the size only if two stores of one size have equal cells. Any other result promises
// nothing: it is an address at which they are stored differently, `likely` if it is one.
fn differing_address<C: Cells>(x: &C, y: &C, likely: u32) -> u32
    requires size { length (C.items x.now) ≡ length (C.items y.now) }
    ensures { result ≡ length (C.items y.now) → C.items x.now ≡ C.items y.now }
{
    let size = y.size();
    if likely < size && !x.cell(likely).is_identical(y.cell(likely)) {
        return likely;
    }
    for at in 0..size {
        if !x.cell(at).is_identical(y.cell(at)) {
            return at;
        }
    }
    size
}
