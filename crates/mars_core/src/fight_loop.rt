//! The loop of a fight: the sides take turns until one of them has no task.
ghost use Rattle.std.specs.Prelude.{◌≡◌, ◌<◌, ◌+◌, ◌*◌, ◌≤◌, length};
ghost use Rattle.mars_core.specs.Played.{CanPlay, Plays};
ghost use Rattle.mars_core.specs.Queue.{stretch};

use crate::cells::{Cells, Store};
use crate::snapshot::Snapshot;
use crate::tasks::{STRETCH, Tasks};
use crate::turn::next_turn;

// Alternates turns, `mine` first, until a queue is empty or `cycles`, at most `STRETCH`, are over.
// Returns the cells, both queues and the number of turns.
//
// The loop is a function of its own: after a return in the same function, the compiler would take
// the loop to be rare, and leave calls in it.
pub(crate) fn take_turns<C: Store>(
    cells: C,
    mine: C::Queue,
    theirs: C::Queue,
    size: u32,
    cycles: u32,
) -> (C, C::Queue, C::Queue, u32)
    requires can_play { CanPlay size (C.items cells) (C.Queue.held mine) (C.Queue.held theirs) cycles }
    requires few { cycles ≤ stretch }
    ensures played { Plays size (C.items cells) (C.Queue.held mine) (C.Queue.held theirs) cycles result.3 (C.items result.0) (C.Queue.held result.1) (C.Queue.held result.2) }
    ensures marks { C.marks result.0 ≤ C.marks cells + 3 * result.3 }
{
    if mine.is_empty() || theirs.is_empty() {
        return (cells, mine, theirs, 0);
    }
    alternate_turns(cells, mine, theirs, size, cycles)
}

// Does what `take_turns` does, for two queues that are not empty.
//
// Owns the cells and the queues while it runs, so that the compiler keeps their fields in
// registers: it has to assume that a write to a cell changes what is behind a reference.
#[inline(never)]
fn alternate_turns<C: Store>(
    mut cells: C,
    mut mine: C::Queue,
    mut theirs: C::Queue,
    size: u32,
    cycles: u32,
) -> (C, C::Queue, C::Queue, u32)
    requires can_play { CanPlay size (C.items cells) (C.Queue.held mine) (C.Queue.held theirs) cycles }
    requires few { cycles ≤ stretch }
    requires mine { 0 < length (C.Queue.held mine).items }
    requires theirs { 0 < length (C.Queue.held theirs).items }
    ensures played { Plays size (C.items cells) (C.Queue.held mine) (C.Queue.held theirs) cycles result.3 (C.items result.0) (C.Queue.held result.1) (C.Queue.held result.2) }
    ensures marks { C.marks result.0 ≤ C.marks cells + 3 * result.3 }
{
    mine.make_room();
    theirs.make_room();
    for cycle in 0..cycles {
        if next_turn::<C, 0>(&mut cells, &mut mine, size) {
            return (cells, mine, theirs, 2 * cycle + 1);
        }
        if next_turn::<C, 1>(&mut cells, &mut theirs, size) {
            return (cells, mine, theirs, 2 * cycle + 2);
        }
    }
    (cells, mine, theirs, 2 * cycles)
}

// Plays as `alternate` does, for any number of cycles, a stretch at a time.
fn play_on<C: Cells>(
    cells: &mut C,
    mine: &mut C::Queue,
    theirs: &mut C::Queue,
    size: u32,
    cycles: u32,
) -> u32
    requires { CanPlay size (C.items cells.old) (C.Queue.held mine.old) (C.Queue.held theirs.old) cycles }
    ensures played { Plays size (C.items cells.old) (C.Queue.held mine.old) (C.Queue.held theirs.old) cycles result (C.items cells.new) (C.Queue.held mine.new) (C.Queue.held theirs.new) }
    ensures marks { C.marks cells.new ≤ C.marks cells.old + 3 * result }
{
    let mut played = 0;
    while played + STRETCH < cycles {
        let turns = cells.alternate(mine, theirs, size, STRETCH);
        if turns < 2 * STRETCH {
            return 2 * played + turns;
        }
        played += STRETCH;
    }
    2 * played + cells.alternate(mine, theirs, size, cycles - played)
}

// Plays a fight. Once a state comes back the fight is a tie, so whole periods are left out.
//
// Marks all cells once 3 marks a turn could reach the core size: a reset may then have to set every
// cell, so a journal of the writes spares nothing.
pub(crate) fn decide<C: Cells>(
    cells: &mut C,
    mine: &mut C::Queue,
    theirs: &mut C::Queue,
    snapshot: &mut Snapshot<C>,
    size: u32,
    cycles: u32,
) -> u32
    requires can_play { CanPlay size (C.items cells.old) (C.Queue.held mine.old) (C.Queue.held theirs.old) cycles }
    requires snapshot { length snapshot.old.core ≡ size }
    ensures played { Plays size (C.items cells.old) (C.Queue.held mine.old) (C.Queue.held theirs.old) cycles result (C.items cells.new) (C.Queue.held mine.new) (C.Queue.held theirs.new) }
    ensures snapshot { length snapshot.new.core ≡ size }
    ensures marks { C.marks cells.new ≤ C.marks cells.old + 3 * result }
{
    snapshot.forget();
    let mut done = 0;
    while done + STRETCH < cycles {
        let turns = cells.alternate(mine, theirs, size, STRETCH);
        if turns < 2 * STRETCH {
            return 2 * done + turns;
        }
        done += STRETCH;
        if let Some(period) = snapshot.period(cells, mine, theirs, done) {
            play_on(cells, mine, theirs, size, (cycles - done) % period);
            return 2 * cycles;
        }
        snapshot.renew(cells, mine, theirs, done);
        if 6 * done >= size {
            cells.mark_all();
        }
    }
    2 * done + cells.alternate(mine, theirs, size, cycles - done)
}
