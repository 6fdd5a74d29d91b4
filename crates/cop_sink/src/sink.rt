//! What bytes are written to, and a sink in memory.

ghost use Rattle.std.specs.Prelude.{◌≡◌, ◌+◌, ◌<◌, ◌≤◌, ℕ, Option, Some, List, [], ◌∷◌, length, take};
ghost use Rattle.std.specs.Prelude.{IfOk, IfSome, OnOk, OnErr, IsErr, ◌↔◌, IsTrue, option_copied};
ghost use Rattle.std.specs.Option.{option_map};
ghost use Rattle.cop_base.specs.Outside.{Rose};
ghost use Rattle.cop_sink.specs.Memory.{after_put, failure_in, put_fails};
ghost use Rattle.cop_sink.specs.Output.{with_bytes};

use crate::record::PutRecord;
use cop_base::{NoMemory, count_up};
use std::alloc::{AllocError, Global};
use std::marker::Model;

/// Why bytes were not written.
#[derive(Clone, Copy, PartialEq, Eq)]
pub enum PutFault {
    Failed,
}

/// Where bytes are written.
pub trait Sink {
    // the bytes written so far, where the sink tells them
    ghost written: { Self → Option (List ℕ) };

    // how many puts failed
    ghost faults: { Self → ℕ };

    // the pieces that went out, put by put, the last one first
    ghost puts: { Self → List (List ℕ) };

    /// Writes the bytes. A put that fails has written a prefix of them.
    fn put(&mut self, bytes: &[u8]) -> Result<(), PutFault>
        ensures more_faults { faults self.old ≤ faults self.new }
        ensures ok { OnOk result (written self.new ≡ with_bytes (written self.old) bytes.now) }
        ensures whole { OnOk result (puts self.new ≡ bytes.now ∷ puts self.old) }
        ensures failed { OnErr result (Rose (faults self.old) (faults self.new)) }
        ensures part { OnErr result ((n : ℕ)
            × (written self.new ≡ with_bytes (written self.old) (take n bytes.now))
            × (puts self.new ≡ take n bytes.now ∷ puts self.old)) };
}

/// A sink in memory.
#[derive(Drop)]
pub struct MemSink {
    bytes: Vec<u8>,
    room: usize,
    failing: Vec<(u64, u64)>,
    calls: u64,
    faults: u64,
    history: PutRecord,
}

impl Model for MemSink {
    ghost use Rattle.std.specs.Prelude.{◌≤◌, ◌+◌, vec_len, vec_capacity};
    ghost use Rattle.cop_sink.specs.Memory.{BytesInMemory};

    ghost Value = { BytesInMemory };

    ghost view = { λ s. record {
      written = s.bytes.items;
      capacity = vec_len s.bytes + s.room;
      failing = s.failing.items;
      calls = s.calls;
      faults = s.faults;
      puts = s.history.puts;
    } };

    ghost invariant = { λ s. vec_len s.bytes + s.room ≤ vec_capacity s.bytes };
}

// How many bytes the call of this number takes before it fails, if it is to fail.
fn failure(failing: &[(u64, u64)], call: u64) -> Option<u64>
    ensures { result ≡ failure_in failing.now call }
{
    for (number, taken) in failing.iter() {
        if *number == call {
            return Some(*taken);
        }
    }
    None
}

impl MemSink {
    /// An empty sink that takes `capacity` bytes in all, which it reserves at once. In a pair (k,
    /// n) of `failing` the put of number k, from 1, takes n bytes, or all if fewer, and fails.
    pub fn new(
        alloc: Global,
        capacity: usize,
        failing: Vec<(u64, u64)>,
    ) -> Result<MemSink, NoMemory>
        ensures { IfOk result (λ s. s ≡ record {
          written = [];
          capacity = capacity;
          failing = failing.items;
          calls = 0;
          faults = 0;
          puts = [];
        }) }
    {
        Ok(MemSink {
            bytes: Vec::with_capacity(alloc, capacity)?,
            room: capacity,
            failing,
            calls: 0,
            faults: 0,
            history: PutRecord::new(),
        })
    }

    /// The bytes that were written.
    pub fn written(&self) -> &[u8]
        ensures { result.now ≡ self.now.written }
    {
        self.bytes.as_slice()
    }
}

impl Sink for MemSink {
    ghost written = { λ s. Some s.written };

    ghost faults = { λ s. s.faults };

    ghost puts = { λ s. s.puts };

    fn put(&mut self, bytes: &[u8]) -> Result<(), PutFault>
        ensures after { self.new ≡ after_put self.old bytes.now }
        ensures fails { IsErr result ↔ IsTrue (put_fails self.old (length bytes.now)) }
        ensures more_faults { self.old.faults ≤ self.new.faults }
        ensures ok { OnOk result
            (Some self.new.written ≡ with_bytes (Some self.old.written) bytes.now) }
        ensures whole { OnOk result (self.new.puts ≡ bytes.now ∷ self.old.puts) }
        ensures failed { OnErr result (Rose self.old.faults self.new.faults) }
        ensures part { OnErr result ((n : ℕ)
            × (Some self.new.written ≡ with_bytes (Some self.old.written) (take n bytes.now))
            × (self.new.puts ≡ take n bytes.now ∷ self.old.puts)) }
    {
        self.calls = count_up(self.calls);
        let fits = bytes.len().min(self.room);
        let failure = failure(self.failing.as_slice(), self.calls);
        let taken = match failure {
            Some(n) if n < fits as u64 => n as usize,
            _ => fits,
        };
        let piece = &bytes[..taken];
        self.history = self.history.and(piece);
        let added = self.bytes.extend_from_slice(piece);
        self.room -= taken;
        if added.is_ok() && failure.is_none() && taken == bytes.len() {
            return Ok(());
        }
        self.faults = count_up(self.faults);
        Err(PutFault::Failed)
    }
}
