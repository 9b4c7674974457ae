//! A sink in memory, whose puts fail where a test names them.
ghost use Rattle.std.specs.Prelude.{◌≡◌, ◌≤◌, ◌⊎◌, ◌+◌, [], ◌++◌, Some, IsErr, OnOk, OnErr, Contains, IsTrue, ◌↔◌};
ghost use Rattle.lufs_base.specs.Causes.{counted};
ghost use Rattle.host_io.specs.Outside.{Puts};
ghost use Rattle.host_io.specs.MemSink.{new_state, after_put, failed_put, starved_put, told_of};

use crate::{Sink, SinkFault};
use std::marker::Model;

/// A sink in memory. A put fails where a test named it, or where memory runs out.
#[derive(Drop)]
pub struct MemSink {
    bytes: Vec<u8>,
    fails: Vec<u64>,
    puts: u64,
    faults: u64,
    starved: u64,
}

impl Model for MemSink {
    ghost use Rattle.host_io.specs.MemSink.{State};

    ghost Value = { State };

    ghost view = { λ k. record { bytes = k.bytes.items; fails = k.fails.items; puts = k.puts; faults = k.faults; starved = k.starved } };
}

impl MemSink {
    /// An empty sink. The k-th put fails for each k of the list, from 1.
    pub fn new(fails: Vec<u64>) -> Self
        ensures { result ≡ new_state fails.items }
    {
        MemSink {
            bytes: Vec::new(*fails.allocator()),
            fails,
            puts: 0,
            faults: 0,
            starved: 0,
        }
    }

    /// The bytes so far.
    pub fn bytes(&self) -> &[u8]
        ensures { result.now ≡ self.now.bytes }
    {
        self.bytes.as_slice()
    }

    /// How many puts failed because memory ran out.
    pub fn starved(&self) -> u64
        ensures { result ≡ self.now.starved }
    {
        self.starved
    }
}

// Whether the call is among those that are to fail.
pub(crate) fn is_named(fails: &[u64], call: u64) -> bool
    ensures { IsTrue result ↔ Contains fails.now call }
{
    fails.contains(&call)
}

impl Sink for MemSink {
    ghost use Rattle.host_io.specs.MemSink.{told_of};

    ghost told = { λ k. told_of k };

    fn faults(&self) -> u64 {
        self.faults
    }

    /// Fails exactly where the put was named or memory ran out.
    fn put(&mut self, bytes: &[u8]) -> Result<(), SinkFault>
        ensures named { Contains self.old.fails (counted self.old.puts) → IsErr result }
        ensures ok { OnOk result (self.new ≡ after_put bytes.now self.old) }
        ensures err { OnErr result ((Contains self.old.fails (counted self.old.puts) × (self.new ≡ failed_put self.old)) ⊎ (self.new ≡ starved_put self.old)) }
        ensures told { Puts bytes.now result (told_of self.old) (told_of self.new) }
    {
        self.puts = self.puts.saturating_add(1);
        if is_named(&self.fails, self.puts) {
            self.faults = self.faults.saturating_add(1);
            return Err(SinkFault);
        }
        if self.bytes.extend_from_slice(bytes).is_err() {
            self.starved = self.starved.saturating_add(1);
            self.faults = self.faults.saturating_add(1);
            return Err(SinkFault);
        }
        Ok(())
    }
}
