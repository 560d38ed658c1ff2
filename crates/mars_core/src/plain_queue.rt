//! The queue that goes with plain cells: tasks in a circular buffer.
ghost use Rattle.std.specs.Prelude.{◌≡◌};

use crate::tasks::Tasks;
use circular_buffer::HeapCircularBuffer;
use rc_instr::OutOfMemory;
use std::alloc::Global;
use std::mem;

/// A queue of tasks in a circular buffer.
#[derive(Drop)]
pub struct PlainQueue {
    // None once the queue was moved out.
    buffer: Option<HeapCircularBuffer<u16>>,
}

impl PlainQueue {
    // Moves the queue out, and leaves one without room.
    pub(crate) fn take(&mut self) -> PlainQueue
        ensures { result ≡ self.old }
    {
        mem::replace(self, PlainQueue { buffer: None })
    }
}

impl Tasks for PlainQueue {
    ghost use Rattle.std.specs.Prelude.{[], Some, None};
    ghost use Rattle.mars_core.specs.Queue.{queue, stretch};

    ghost held = { λ q. elim q.buffer [ Some b ↦ queue b.items b.capacity | None ↦ queue [] 0 ] };

    // Turns use no slots.
    ghost turns = { λ q. stretch };

    fn with_capacity(alloc: Global, capacity: usize) -> Result<PlainQueue, OutOfMemory> {
        let buffer = HeapCircularBuffer::with_capacity(alloc, capacity)?;
        Ok(PlainQueue {
            buffer: Some(buffer),
        })
    }

    fn is_empty(&self) -> bool {
        match &self.buffer {
            Some(buffer) => buffer.is_empty(),
            None => true,
        }
    }

    fn len(&self) -> usize {
        match &self.buffer {
            Some(buffer) => buffer.len(),
            None => 0,
        }
    }

    fn get(&self, index: usize) -> Option<u16> {
        match &self.buffer {
            Some(buffer) => buffer.get(index).copied(),
            None => None,
        }
    }

    #[tactic(auto, using(crate::proofs::Queues::first_of_some))]
    fn first(&self) -> u32 {
        u32::from(self.get(0).unwrap_or(0))
    }

    fn make_room(&mut self) {}

    fn append(&mut self, task: u32) {
        if let Some(buffer) = &mut self.buffer {
            let _ = buffer.try_push_back(task as u16);
        }
    }

    fn remove_first(&mut self) {
        if let Some(buffer) = &mut self.buffer {
            let _ = buffer.pop_front();
        }
    }

    #[tactic(auto, using(crate::proofs::Queues::room))]
    fn replace_first(&mut self, last: u32) {
        if let Some(buffer) = &mut self.buffer {
            prove!(buffer.len() <= buffer.capacity());
            let _ = buffer.pop_front();
            let _ = buffer.try_push_back(last as u16);
        }
    }

    fn clear(&mut self) {
        if let Some(buffer) = &mut self.buffer {
            buffer.clear();
        }
    }
}
