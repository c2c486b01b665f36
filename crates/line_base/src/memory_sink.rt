//! A sink in memory, which has room for so many bytes and fails at chosen puts.
ghost use Rattle.std.specs.Prelude.{◌≡◌, ◌+◌, ◌<◌, ◌≤◌, ◌↔◌, ◌⊎◌, length, [], Some, Contains, IsErr, IfOk, OnErr};
ghost use Rattle.line_base.specs.Causes.{Counts, HasCause, next_count};
ghost use Rattle.line_base.specs.Streams.{PutAppends};

use crate::{Failed, Sink};
use std::alloc::{AllocError, Global};
use std::marker::Model;

/// A sink in memory. Contracts see the bytes taken, the room, the numbers of the puts that fail, and how
/// many puts and faults there were.
#[derive(Drop)]
pub struct MemorySink {
    taken: Vec<u8>,
    room: usize,
    failing: Vec<u64>,
    puts: u64,
    faults: u64,
}

impl Model for MemorySink {
    ghost use Rattle.std.specs.Prelude.{◌≤◌, vec_len, vec_capacity};
    ghost use Rattle.line_base.specs.Memory.{Holding};

    ghost Value = { Holding };

    ghost view = { λ s. record {
      got = s.taken.items;
      room = s.room;
      failing = s.failing.items;
      puts = s.puts;
      faults = s.faults;
    } };

    ghost invariant = { λ s. (vec_len s.taken ≤ s.room) × (s.room ≤ vec_capacity s.taken) };
}

impl MemorySink {
    /// An empty sink for `room` bytes, reserved at once, or the error where there is no such memory. The
    /// puts with a number in `failing`, counted from 1, fail.
    pub fn new(alloc: Global, room: usize, failing: Vec<u64>) -> Result<MemorySink, AllocError>
        ensures got { IfOk result (λ sink. sink.got ≡ []) }
        ensures room { IfOk result (λ sink. sink.room ≡ room) }
        ensures failing { IfOk result (λ sink. sink.failing ≡ failing.items) }
        ensures puts { IfOk result (λ sink. sink.puts ≡ 0) }
        ensures faults { IfOk result (λ sink. sink.faults ≡ 0) }
    {
        let taken = Vec::with_capacity(alloc, room)?;
        Ok(MemorySink {
            taken,
            room,
            failing,
            puts: 0,
            faults: 0,
        })
    }

    /// The bytes taken.
    pub fn bytes(&self) -> &[u8]
        ensures { result.now ≡ self.now.got }
    {
        &self.taken
    }
}

impl Sink for MemorySink {
    ghost got = { λ s. Some s.got };

    ghost faults = { λ s. s.faults };

    /// Takes all of the bytes. A put that fails takes nothing.
    fn put(&mut self, bytes: &[u8]) -> Result<(), Failed>
        ensures bytes { PutAppends (Some self.old.got) (Some self.new.got) result bytes.now }
        ensures cause { HasCause self.old.faults self.new.faults result }
        ensures number { self.new.puts ≡ next_count self.old.puts }
        ensures fails { IsErr result ↔ (Contains self.old.failing self.new.puts ⊎ (self.old.room < length self.old.got + length bytes.now)) }
        ensures nothing_taken { OnErr result (self.new.got ≡ self.old.got) }
        ensures faults { Counts self.old.faults self.new.faults result }
        ensures room { self.new.room ≡ self.old.room }
        ensures failing { self.new.failing ≡ self.old.failing }
    {
        self.puts = self.puts.saturating_add(1);
        let spare = self.room - self.taken.len();
        if self.failing.contains(&self.puts) || spare < bytes.len() {
            self.faults = self.faults.saturating_add(1);
            return Err(Failed);
        }
        // The room was reserved, so no memory is taken here.
        let _ = self.taken.extend_from_slice(bytes);
        Ok(())
    }
}
