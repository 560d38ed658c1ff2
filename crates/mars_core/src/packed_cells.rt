//! Cells in words, with a journal of those that were written.
ghost use Rattle.std.specs.Prelude.{◌≡◌, ◌<◌, ◌≤◌, ◌+◌, ◌*◌, slice_index, slice_set, replicate, length, true, false, IfOk};
ghost use Rattle.rc_instr.specs.Instruction.{empty_cell};
ghost use Rattle.mars_core.specs.Played.{CanPlay, Plays};
ghost use Rattle.mars_core.specs.Queue.{stretch};
ghost use Rattle.mars_core.specs.Packed.{unpacked, is_marked, empty_word, IsClassed};
ghost use Rattle.mars_core.specs.Store.{IsStore, IsPacked, packed_view, marks_after, ListsWritten};

use crate::cells::{Cells, Store};
use crate::fight_loop::take_turns;
use crate::linear_queue::LinearQueue;
use crate::packed::PackedCell;
use rc_instr::OutOfMemory;
use std::alloc::Global;
use std::marker::Model;
use std::mem;

/// Keeps each cell in a word of 8 bytes, and in a journal the address of each cell that was written
/// since the last reset. `restore` empties only these, so the marks are their number.
///
/// `mark_all` closes the journal: writes are no longer recorded, and `restore` empties all cells.
#[derive(Drop)]
pub struct PackedCells {
    words: Vec<u64>,
    // Of full length from the start, so that no write grows it. While it is open, the first `count`
    // items are in use.
    journal: Vec<u16>,
    count: usize,
    is_open: bool,
}

impl Model for PackedCells {
    ghost use Rattle.mars_core.specs.Store.{StoreView, packed_view, IsPacked};

    ghost Value = { StoreView };

    ghost view = { λ s. packed_view s.words.items s.count s.is_open };

    ghost invariant = { λ s. IsPacked s.words.items s.journal.items s.count s.is_open };
}

// Packed cells while cycles are played. Whether the journal is open is a constant here, so that a
// write does nothing else if it is closed. `OPEN` is 1 or 0: it cannot be a `bool`.
#[derive(Drop)]
struct PlayedCells<const OPEN: u64> {
    words: Vec<u64>,
    journal: Vec<u16>,
    count: usize,
}

impl<const OPEN: u64> Model for PlayedCells<OPEN> {
    ghost use Rattle.std.specs.Prelude.{◌==◌};
    ghost use Rattle.mars_core.specs.Store.{StoreView, packed_view, IsPacked};

    ghost Value = { StoreView };

    ghost view = { λ s. packed_view s.words.items s.count (OPEN == 1) };

    ghost invariant = { λ s. IsPacked s.words.items s.journal.items s.count (OPEN == 1) };
}

// Writes a marked word, and adds its address to the journal if no mark was there. `count` is the
// number of addresses that the journal has.
#[tactic(auto, using(crate::proofs::Stores::stores))]
#[inline]
fn record(words: &mut Vec<u64>, journal: &mut Vec<u16>, count: &mut usize, at: u32, word: u64)
    requires store { IsStore words.old.items journal.old.items count.old }
    requires at { at < length words.old.items }
    requires marked { is_marked word ≡ true }
    requires classed { IsClassed word }
    ensures words { words.new.items ≡ slice_set words.old.items at word }
    ensures store { IsStore words.new.items journal.new.items count.new }
    ensures first { is_marked (slice_index words.old.items at) ≡ false → count.new ≡ count.old + 1 }
    ensures again { is_marked (slice_index words.old.items at) ≡ true → count.new ≡ count.old }
    ensures marks { count.new ≤ count.old + 1 }
{
    let old = PackedCell {
        word: words[at as usize],
    };
    words[at as usize] = word;
    if !old.is_marked() {
        journal[*count] = at as u16;
        *count += 1;
    }
}

// Replaces a cell, and records that in a journal which is open.
#[tactic(auto, using(crate::proofs::Stores::packed_of, crate::proofs::Stores::packed_set, crate::proofs::Stores::item_set, crate::proofs::Stores::marked_is, crate::proofs::Stores::marked_holds))]
#[inline]
fn put(
    words: &mut Vec<u64>,
    journal: &mut Vec<u16>,
    count: &mut usize,
    is_open: bool,
    at: u32,
    cell: PackedCell,
)
    requires store { IsPacked words.old.items journal.old.items count.old is_open }
    requires at { at < length words.old.items }
    ensures store { IsPacked words.new.items journal.new.items count.new is_open }
    ensures items { (packed_view words.new.items count.new is_open).items ≡ slice_set (packed_view words.old.items count.old is_open).items at (unpacked cell.word) }
    ensures marked { (packed_view words.new.items count.new is_open).marked ≡ slice_set (packed_view words.old.items count.old is_open).marked at true }
    ensures marks { (packed_view words.new.items count.new is_open).marks ≡ marks_after (packed_view words.old.items count.old is_open).marked at (packed_view words.old.items count.old is_open).marks }
{
    if is_open {
        record(words, journal, count, at, cell.marked().word);
    } else {
        words[at as usize] = cell.word;
    }
}

// Alternates turns on these cells. Moves the queues to the loop and back.
fn play<const OPEN: u64>(
    cells: PlayedCells<OPEN>,
    mine: &mut LinearQueue,
    theirs: &mut LinearQueue,
    size: u32,
    cycles: u32,
) -> (PlayedCells<OPEN>, u32)
    requires can_play { CanPlay size cells.items mine.old.queue theirs.old.queue cycles }
    requires few { cycles ≤ stretch }
    ensures played { Plays size cells.entry.items mine.old.queue theirs.old.queue cycles result.1 result.0.items mine.new.queue theirs.new.queue }
    ensures marks { result.0.marks ≤ cells.entry.marks + 3 * result.1 }
{
    let alloc = *cells.words.allocator();
    let one = LinearQueue {
        slots: mem::replace(&mut mine.slots, Vec::new(alloc)),
        first: mine.first,
        end: mine.end,
        free: mine.free,
    };
    let other = LinearQueue {
        slots: mem::replace(&mut theirs.slots, Vec::new(alloc)),
        first: theirs.first,
        end: theirs.end,
        free: theirs.free,
    };
    let (cells, one, other, turns) = take_turns(cells, one, other, size, cycles);
    *mine = one;
    *theirs = other;
    (cells, turns)
}

// Empties the cells whose addresses are in `journal`.
#[tactic(auto, using(crate::proofs::Stores::emptied))]
fn clear(words: &mut Vec<u64>, journal: &[u16])
    requires listed { ListsWritten words.old.items journal.now }
    ensures { words.new.items ≡ replicate (length words.old.items) empty_word }
{
    let empty = PackedCell::empty().word;
    for at in journal {
        words[*at as usize] = empty;
    }
}

impl PackedCells {
    // Makes `size` empty cells, and a journal with room for all their addresses.
    #[tactic(auto, using(crate::proofs::Stores::stores, crate::proofs::Stores::blanks))]
    pub(crate) fn try_new(alloc: Global, size: u32) -> Result<PackedCells, OutOfMemory>
        requires { size ≤ 65535 }
        ensures items { IfOk result (λ s. s.items ≡ replicate size empty_cell) }
        ensures marks { IfOk result (λ s. s.marks ≡ 0) }
    {
        let words = vec![in alloc; PackedCell::empty().word; size as usize]?;
        let journal = vec![in alloc; 0; size as usize]?;
        Ok(PackedCells {
            words,
            journal,
            count: 0,
            is_open: true,
        })
    }
}

impl Store for PackedCells {
    type Kept = PackedCell;

    type Queue = LinearQueue;

    ghost items = { λ s. s.items };

    ghost marked = { λ s. s.marked };

    ghost marks = { λ s. s.marks };

    #[inline]
    #[tactic(auto, using(crate::proofs::Marks::one_each))]
    fn size(&self) -> u32 {
        self.words.len() as u32
    }

    #[tactic(auto, using(crate::proofs::Stores::item_at, crate::proofs::Stores::word_classed), unfolding(crate::specs::Core::cell_at))]
    #[inline]
    fn cell(&self, at: u32) -> PackedCell {
        PackedCell {
            word: self.words[at as usize],
        }
    }

    fn put(&mut self, at: u32, cell: PackedCell) {
        let (words, journal) = (&mut self.words, &mut self.journal);
        put(words, journal, &mut self.count, self.is_open, at, cell);
    }
}

impl<const OPEN: u64> Store for PlayedCells<OPEN> {
    type Kept = PackedCell;

    type Queue = LinearQueue;

    ghost items = { λ s. s.items };

    ghost marked = { λ s. s.marked };

    ghost marks = { λ s. s.marks };

    #[tactic(auto, using(crate::proofs::Marks::one_each))]
    fn size(&self) -> u32 {
        self.words.len() as u32
    }

    #[tactic(auto, using(crate::proofs::Stores::item_at, crate::proofs::Stores::word_classed), unfolding(crate::specs::Core::cell_at))]
    #[inline]
    fn cell(&self, at: u32) -> PackedCell {
        PackedCell {
            word: self.words[at as usize],
        }
    }

    #[inline]
    fn put(&mut self, at: u32, cell: PackedCell) {
        let (words, journal) = (&mut self.words, &mut self.journal);
        put(words, journal, &mut self.count, OPEN == 1, at, cell);
    }
}

impl Cells for PackedCells {
    ghost new_marks = { λ m. 0 };

    ghost new_mark = { false };

    fn copy_from(&mut self, other: &PackedCells) {
        self.words.copy_from_slice(&other.words);
        self.journal.copy_from_slice(&other.journal);
        self.count = other.count;
        self.is_open = other.is_open;
    }

    fn alternate(
        &mut self,
        mine: &mut LinearQueue,
        theirs: &mut LinearQueue,
        size: u32,
        cycles: u32,
    ) -> u32 {
        let alloc = *self.words.allocator();
        let words = mem::replace(&mut self.words, Vec::new(alloc));
        let journal = mem::replace(&mut self.journal, Vec::new(alloc));
        let count = self.count;
        if self.is_open {
            let cells = PlayedCells::<1> {
                words,
                journal,
                count,
            };
            let (cells, turns) = play(cells, mine, theirs, size, cycles);
            self.words = cells.words;
            self.journal = cells.journal;
            self.count = cells.count;
            turns
        } else {
            let cells = PlayedCells::<0> {
                words,
                journal,
                count,
            };
            let (cells, turns) = play(cells, mine, theirs, size, cycles);
            self.words = cells.words;
            self.journal = cells.journal;
            turns
        }
    }

    #[tactic(auto, using(crate::proofs::Marks::all_counted))]
    fn mark_all(&mut self) {
        self.is_open = false;
    }

    #[tactic(auto, using(crate::proofs::Stores::stores, crate::proofs::Stores::packed_of, crate::proofs::Stores::blanks_of, crate::proofs::Stores::written_listed, crate::proofs::Marks::unmarked_of))]
    fn restore(&mut self) -> u32 {
        let marks = if self.is_open {
            clear(&mut self.words, &self.journal[..self.count]);
            self.count as u32
        } else {
            self.words.fill(PackedCell::empty().word);
            self.size()
        };
        self.count = 0;
        self.is_open = true;
        marks
    }
}
