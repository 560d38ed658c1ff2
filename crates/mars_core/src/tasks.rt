//! The queue of a warrior's tasks: their addresses, the next to execute first.
ghost use Rattle.std.specs.Prelude.{◌≡◌, ℕ, ◌+◌, ◌<◌, ◌≤◌, ◌==◌, ◌∷◌, [], ◌++◌, Some, true, length, drop, slice_get, slice_index_or, IfOk};
ghost use Rattle.mars_core.specs.Queue.{Queue, queue, queue_with, without_first, stretch};

use rc_instr::OutOfMemory;
use std::alloc::Global;

/// The most cycles that are played at a time. A side makes one turn in each.
pub(crate) const STRETCH: u32 = 2000;

/// A queue of tasks, and how many there may be.
pub trait Tasks: Drop {
    /// The tasks, and how many there may be.
    ghost held: { Self → Queue };
    /// How many turns may be made before the next `make_room`.
    ghost turns: { Self → ℕ };

    /// Makes an empty queue for at most `capacity` tasks.
    fn with_capacity(alloc: Global, capacity: usize) -> Result<Self, OutOfMemory>
        requires { capacity ≤ 65535 }
        ensures { IfOk result (λ t. held t ≡ queue [] capacity) };

    /// Returns whether there is no task.
    fn is_empty(&self) -> bool
        ensures { result ≡ (length (held self.now).items == 0) };

    /// Returns the number of tasks.
    fn len(&self) -> usize
        ensures len { result ≡ length (held self.now).items }
        ensures within { result ≤ (held self.now).capacity };

    /// Returns the task at `index`; the one at 0 executes next.
    fn get(&self, index: usize) -> Option<u16>
        ensures { result ≡ slice_get (held self.now).items index };

    /// Returns the first task of a queue that has one.
    fn first(&self) -> u32
        requires { 0 < length (held self.now).items }
        ensures { Some result ≡ slice_get (held self.now).items 0 };

    /// Makes room for the turns of a stretch.
    fn make_room(&mut self)
        ensures tasks { held self.new ≡ held self.old }
        ensures turns { turns self.new ≡ stretch };

    /// Appends a task if there is room; else the task is lost (1994 draft).
    fn append(&mut self, task: u32)
        requires { task < 65536 }
        ensures tasks { held self.new ≡ queue_with (held self.old) (task ∷ []) }
        ensures turns { turns self.new ≡ turns self.old }
        ensures some { 0 < length (held self.old).items → 0 < length (held self.new).items };

    /// Removes the first task of a queue that has one.
    fn remove_first(&mut self)
        requires some { 0 < length (held self.old).items }
        requires turns { 0 < turns self.old }
        ensures tasks { held self.new ≡ without_first (held self.old) }
        ensures turns { turns self.old ≤ turns self.new + 1 };

    /// Removes the first task of a queue that has one, and appends `last`: there is room then.
    fn replace_first(&mut self, last: u32)
        requires last { last < 65536 }
        requires some { 0 < length (held self.old).items }
        requires turns { 0 < turns self.old }
        ensures turns { turns self.old ≤ turns self.new + 1 }
        ensures tasks { held self.new ≡ queue (drop 1 (held self.old).items ++ last ∷ []) (held self.old).capacity }
        ensures room { length (held self.old).items ≤ (held self.old).capacity }
        ensures some { 0 < length (held self.new).items };

    /// Takes all tasks out.
    fn clear(&mut self)
        ensures { held self.new ≡ queue [] (held self.old).capacity };

    /// Copies the tasks of `other`, for which there is room.
    fn copy_from(&mut self, other: &Self)
        requires { length (held other.now).items ≤ (held self.old).capacity }
        ensures { held self.new ≡ queue (held other.now).items (held self.old).capacity }
    {
        self.clear();
        for index in 0..other.len() {
            self.append(u32::from(other.get(index).unwrap_or(0)));
        }
    }
}

// Returns the task at `index`, 0 if there is none.
pub(crate) fn task_at<Q: Tasks>(tasks: &Q, index: usize) -> u16
    ensures { result ≡ slice_index_or (Q.held tasks.now).items index 0 }
{
    tasks.get(index).unwrap_or(0)
}

// Returns whether two queues have the same tasks.
pub(crate) fn have_same_tasks<Q: Tasks>(one: &Q, other: &Q) -> bool
    ensures same { result ≡ true → (Q.held one.now).items ≡ (Q.held other.now).items }
    ensures found { (Q.held one.now).items ≡ (Q.held other.now).items → result ≡ true }
{
    if one.len() != other.len() {
        return false;
    }
    for index in 0..one.len() {
        if task_at(one, index) != task_at(other, index) {
            return false;
        }
    }
    true
}
