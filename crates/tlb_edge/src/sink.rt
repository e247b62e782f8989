//! Where output is written.
ghost use Rattle.std.specs.Prelude.{◌≡◌, ◌≤◌, ◌<◌, ◌⊎◌, ◌↔◌, ◌++◌, ℕ, List, [], length, Option, Some, None, IsOk, IsErr, IfOk, OnOk, OnErr, Contains, vec_len, vec_capacity};
ghost use Rattle.tlb_edge.specs.Causes.{HasCause, counted, counted_once, faults_after};
ghost use Rattle.tlb_edge.specs.Moves.{Writes, WritesPrefix};

use crate::shelf::{Failed, is_listed};
use std::alloc::Global;
use tlb_memory::NoMemory;

/// What takes the output.
pub trait Sink {
    /// All that was written, where reported.
    ghost written: { Self → Option (List ℕ) };

    /// How many calls of `put` there were, where reported, up to the last value of u64.
    ghost puts: { Self → Option ℕ };

    /// How many calls have failed, which stays at the last value of u64.
    ghost faults: { Self → ℕ };

    /// Appends the bytes. At `Failed` a prefix of them may have been appended.
    fn put(&mut self, bytes: &[u8]) -> Result<(), Failed>
        ensures ok { OnOk result (Writes (written self.old) (written self.new) bytes.now) }
        ensures err { OnErr result (WritesPrefix (written self.old) (written self.new) bytes.now) }
        ensures puts { puts self.new ≡ counted_once (puts self.old) }
        ensures cause { HasCause (faults self.old) (faults self.new) result };
}

/// Output in memory, whose puts fail by their numbers.
#[derive(Drop)]
pub struct MemSink {
    written: Vec<u8>,
    room: u32,
    failing: Vec<u32>,
    puts: u64,
    faults: u64,
    ghost in_room: { vec_len written ≤ room },
    ghost has_room: { room ≤ vec_capacity written },
}

impl MemSink {
    ghost use Rattle.tlb_edge.specs.MemSink.{written_by, room_of, capacity_of, puts_of, faults_of, failing_of};

    /// A sink with room for so many bytes, which is taken here. Its puts are numbered from 1, and one
    /// fails where its number is in `failing` or its piece is longer than the room left.
    pub fn new(alloc: Global, room: u32, failing: Vec<u32>) -> Result<MemSink, NoMemory>
        ensures written { IfOk result (λ sink. written_by sink ≡ []) }
        ensures room { IfOk result (λ sink. room_of sink ≡ room) }
        ensures taken { IfOk result (λ sink. room ≤ capacity_of sink) }
        ensures failing { IfOk result (λ sink. failing_of sink ≡ failing.items) }
        ensures puts { IfOk result (λ sink. puts_of sink ≡ 0) }
        ensures faults { IfOk result (λ sink. faults_of sink ≡ 0) }
    {
        let written = Vec::with_capacity(alloc, room as usize)?;
        Ok(MemSink {
            written,
            room,
            failing,
            puts: 0,
            faults: 0,
        })
    }

    /// What was written.
    pub fn bytes(&self) -> &[u8]
        ensures { result.now ≡ written_by self.now }
    {
        &self.written
    }
}

impl Sink for MemSink {
    ghost use Rattle.tlb_edge.specs.MemSink.{written_by, room_of, room_left, puts_of, faults_of, failing_of};

    ghost written = { λ s. Some (written_by s) };

    ghost puts = { λ s. Some (puts_of s) };

    ghost faults = { faults_of };

    /// Appends the whole piece or nothing, and takes no memory.
    fn put(&mut self, bytes: &[u8]) -> Result<(), Failed>
        ensures ok { OnOk result (written_by self.new ≡ written_by self.old ++ bytes.now) }
        ensures err { OnErr result (written_by self.new ≡ written_by self.old) }
        ensures cause { HasCause (faults_of self.old) (faults_of self.new) result }

        ensures fails { IsErr result
            ↔ (Contains (failing_of self.old) (puts_of self.new)
            ⊎ (room_left self.old < length bytes.now)) }
        ensures puts { puts_of self.new ≡ counted (puts_of self.old) 1 }
        ensures faults { faults_of self.new ≡ faults_after (faults_of self.old) result }
        ensures room { room_of self.new ≡ room_of self.old }
        ensures failing { failing_of self.new ≡ failing_of self.old }
    {
        self.puts = self.puts.saturating_add(1);
        if is_listed(&self.failing, self.puts)
            || bytes.len() > self.room as usize - self.written.len()
        {
            self.faults = self.faults.saturating_add(1);
            return Err(Failed);
        }
        match self.written.extend_from_slice(bytes) {
            Ok(()) => Ok(()),
            // The room was taken when the sink was made.
            Err(_) => unreachable!(),
        }
    }
}

/// Drops the bytes, counts its calls, and never fails.
#[derive(Clone, Copy, Debug, Default, PartialEq, Eq)]
pub struct SureSink {
    puts: u64,
}

impl SureSink {
    ghost use Rattle.tlb_edge.specs.SureSink.{puts_of};

    /// A sink of which no call was made.
    pub fn new() -> SureSink
        ensures { puts_of result ≡ 0 }
    {
        SureSink { puts: 0 }
    }
}

impl Sink for SureSink {
    ghost use Rattle.tlb_edge.specs.SureSink.{puts_of};

    ghost written = { λ _. None };

    ghost puts = { λ s. Some (puts_of s) };

    ghost faults = { λ _. 0 };

    fn put(&mut self, _bytes: &[u8]) -> Result<(), Failed>
        ensures ok { IsOk result }
        ensures puts { puts_of self.new ≡ counted (puts_of self.old) 1 }
    {
        self.puts = self.puts.saturating_add(1);
        Ok(())
    }
}
