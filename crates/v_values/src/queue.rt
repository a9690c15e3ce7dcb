ghost use Rattle.std.specs.Prelude.{◌≡◌, ◌≤◌, ◌<◌, [], ◌∷◌, ◌++◌, length, take, drop, true, IfOk};
ghost use Rattle.v_meaning.specs.Views.{applied};
ghost use Rattle.v_values.specs.Writes.{all_fit, write_in};

use crate::moment::Moment;
use crate::writing::{Write, apply};
use lz_base::OutOfMemory;
use std::alloc::Global;
use std::marker::Model;

/// Writes that wait, in their order (IEEE Std 1364-2005, 11.4.1). Their room is reserved when the queue is made.
#[derive(Debug, Drop)]
pub struct Queue {
    writes: Vec<Write>,
}

impl Model for Queue {
    ghost use Rattle.std.specs.Prelude.{vec_capacity};
    ghost use Rattle.v_values.specs.Queues.{QueueValue};
    ghost use Rattle.v_values.specs.Writes.{writes_in};

    ghost Value = { QueueValue };

    ghost view = { λ q. record { writes = writes_in q.writes.items; room = vec_capacity q.writes } };
}

impl Queue {
    /// An empty queue with room for so many writes. `OutOfMemory` is the only other answer.
    pub fn new(alloc: Global, room: usize) -> Result<Queue, OutOfMemory>
        ensures { IfOk result (λ q. q ≡ record { writes = []; room = room }) }
    {
        Ok(Queue {
            writes: Vec::with_capacity(alloc, room)?,
        })
    }

    /// How many writes wait.
    pub fn len(&self) -> usize
        ensures { result ≡ length self.now.writes }
    {
        self.writes.len()
    }

    // Puts a write behind the others.
    pub(crate) fn push(&mut self, write: Write)
        requires room { length self.old.writes < self.old.room }
        ensures writes { self.new.writes ≡ self.old.writes ++ write_in write ∷ [] }
        ensures room { self.new.room ≡ self.old.room }
    {
        self.writes.push_reserved(write);
    }

    /// Takes all writes off without doing them.
    pub fn clear(&mut self)
        ensures writes { self.new.writes ≡ [] }
        ensures room { self.new.room ≡ self.old.room }
    {
        self.writes.clear();
    }

    /// Does the writes from the one of a number on, one after another, and takes them off (9.2).
    pub fn apply_from(&mut self, first: usize, now: &mut Moment)
        requires within { first ≤ length self.old.writes }
        requires fit { all_fit now.old.shape (drop first self.old.writes) ≡ true }
        ensures view { now.new.view ≡ applied now.old.view (drop first self.old.writes) }
        ensures shape { now.new.shape ≡ now.old.shape }
        ensures writes { self.new.writes ≡ take first self.old.writes }
        ensures room { self.new.room ≡ self.old.room }
    {
        apply(now, &self.writes[first..]);
        self.writes.truncate(first);
    }
}
