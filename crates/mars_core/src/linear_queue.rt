//! The queue that goes with packed cells: tasks in slots, one after the other.

use crate::tasks::{STRETCH, Tasks};
use rc_instr::OutOfMemory;
use std::alloc::Global;
use std::marker::Model;

/// A queue of tasks in a list of slots. A turn takes the first task out at the front and writes
/// what it queues after the last one, so the tasks move along the slots. `make_room` moves them
/// back to slot 0.
///
/// There is a slot for each task, one for each turn of a stretch, and one more: `append` writes
/// after the last task even if the queue is full.
#[derive(Drop)]
pub struct LinearQueue {
    pub(crate) slots: Vec<u16>,
    pub(crate) first: usize,
    pub(crate) end: usize,
    // How many more tasks there may be: a number that most turns leave as it is.
    pub(crate) free: usize,
}

impl Model for LinearQueue {
    ghost use Rattle.mars_core.specs.Queue.{LinearView, linear_view, IsLinear};

    ghost Value = { LinearView };

    ghost view = { λ t. linear_view t.slots.items t.first t.end t.free };

    ghost invariant = { λ t. IsLinear t.slots.items t.first t.end t.free };
}

impl Tasks for LinearQueue {
    ghost held = { λ t. t.queue };

    ghost turns = { λ t. t.turns };

    fn with_capacity(alloc: Global, capacity: usize) -> Result<LinearQueue, OutOfMemory> {
        let slots = vec![in alloc; 0; capacity + STRETCH as usize + 1]?;
        Ok(LinearQueue {
            slots,
            first: 0,
            end: 0,
            free: capacity,
        })
    }

    #[inline]
    #[tactic(auto, using(crate::proofs::Slots::slots))]
    fn is_empty(&self) -> bool {
        self.first == self.end
    }

    #[tactic(auto, using(crate::proofs::Slots::slots))]
    fn len(&self) -> usize {
        self.end - self.first
    }

    #[tactic(auto, using(crate::proofs::Slots::slots))]
    fn get(&self, index: usize) -> Option<u16> {
        if index >= self.end - self.first {
            return None;
        }
        Some(self.slots[self.first + index])
    }

    #[inline]
    #[tactic(auto, using(crate::proofs::Slots::slots))]
    fn first(&self) -> u32 {
        u32::from(self.slots[self.first])
    }

    #[tactic(auto, using(crate::proofs::Slots::slots))]
    fn make_room(&mut self) {
        self.slots.copy_within(self.first..self.end, 0);
        self.end -= self.first;
        self.first = 0;
    }

    #[tactic(auto, using(crate::proofs::Slots::slots))]
    #[inline]
    fn append(&mut self, task: u32) {
        self.slots[self.end] = task as u16;
        let grows = usize::from(self.free > 0);
        self.end += grows;
        self.free -= grows;
    }

    #[tactic(auto, using(crate::proofs::Slots::slots))]
    #[inline]
    fn remove_first(&mut self) {
        self.first += 1;
        self.free += 1;
    }

    #[tactic(auto, using(crate::proofs::Slots::slots))]
    #[inline]
    fn replace_first(&mut self, last: u32) {
        self.slots[self.end] = last as u16;
        self.end += 1;
        self.first += 1;
    }

    fn clear(&mut self) {
        self.free += self.end - self.first;
        self.first = 0;
        self.end = 0;
    }
}
