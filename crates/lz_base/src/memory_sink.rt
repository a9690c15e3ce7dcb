ghost use Rattle.std.specs.Prelude.{◌≡◌, ◌<◌, ◌≤◌, ◌-◌, [], ◌++◌, length, take, min, Some, IfOk, IsErr, OnErr, ◌↔◌, is_some};
ghost use Rattle.std.specs.Io.{WritesAtMost};
ghost use Rattle.std.specs.Io.KnownBytes.{WriteAppends};
ghost use Rattle.lz_base.specs.Causes.{HasCause, raised};

use crate::{Failed, OutOfMemory, Sink};
use std::alloc::Global;
use std::marker::Model;

/// A sink in memory, which tells its bytes. It holds at most `room` bytes, and a call takes at most `piece`.
#[derive(Drop)]
pub struct MemSink {
    bytes: Vec<u8>,
    room: usize,
    piece: usize,
    faults: u64,
}

impl Model for MemSink {
    ghost use Rattle.std.specs.Prelude.{◌≤◌, vec_len, vec_capacity};
    ghost use Rattle.lz_base.specs.MemorySink.{SinkValue};

    ghost Value = { SinkValue };

    ghost view = { λ s. record { bytes = s.bytes.items; room = s.room; piece = s.piece; faults = s.faults } };

    ghost invariant = { λ s. (vec_len s.bytes ≤ s.room) × (s.room ≤ vec_capacity s.bytes) × (1 ≤ s.piece) };
}

impl MemSink {
    /// An empty sink, whose room is reserved. `OutOfMemory` is the only other answer.
    pub fn new(alloc: Global, room: usize, piece: usize) -> Result<MemSink, OutOfMemory>
        requires { 1 ≤ piece }
        ensures { IfOk result (λ s. s ≡ record { bytes = []; room = room; piece = piece; faults = 0 }) }
    {
        Ok(MemSink {
            bytes: Vec::with_capacity(alloc, room)?,
            room,
            piece,
            faults: 0,
        })
    }

    /// The bytes so far. It takes no memory.
    pub fn bytes(&self) -> &[u8]
        ensures value { result.now ≡ self.now.bytes }
        ensures fits { length self.now.bytes ≤ self.now.room }
    {
        self.bytes.as_slice()
    }
}

impl Sink for MemSink {
    ghost use Rattle.std.specs.Prelude.{Some};

    ghost written = { λ s. Some s.bytes };

    ghost faults = { λ s. s.faults };

    /// It takes the least of the piece's length, the sink's piece and the room left, and fails exactly where the
    /// piece is not empty and no room is left.
    fn write(&mut self, piece: &[u8]) -> Result<usize, Failed>
        ensures bound { WritesAtMost result piece.now }
        ensures progress { IfOk result (λ n. 0 < length piece.now → 0 < n) }
        ensures bytes { WriteAppends (Some self.old.bytes) (Some self.new.bytes) result piece.now }
        ensures tells { is_some (Some self.new.bytes) ≡ is_some (Some self.old.bytes) }
        ensures cause { HasCause self.old.faults self.new.faults result }

        // The answer, how much is taken, and the whole object after either.
        ensures fails { IsErr result ↔ ((0 < length piece.now) × (self.old.room ≤ length self.old.bytes)) }
        ensures count { IfOk result (λ n. n ≡ min (length piece.now) (min self.old.piece (self.old.room - length self.old.bytes))) }
        ensures ok { IfOk result (λ n. self.new ≡ record self.old { bytes = self.old.bytes ++ take n piece.now }) }
        ensures err { OnErr result (self.new ≡ record self.old { faults = raised self.old.faults }) }
    {
        let left = self.room - self.bytes.len();
        if left == 0 && !piece.is_empty() {
            self.faults = self.faults.saturating_add(1);
            return Err(Failed);
        }
        let count = piece.len().min(self.piece.min(left));
        if self.bytes.extend_from_slice(&piece[..count]).is_err() {
            unreachable!();
        }
        Ok(count)
    }
}
