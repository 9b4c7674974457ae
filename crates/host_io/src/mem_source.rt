//! A source in memory, whose takes fail where a test names them.
ghost use Rattle.std.specs.Prelude.{◌≡◌, ◌≤◌, ◌<◌, ◌↔◌, drop, length, min, IsErr, IfOk, OnErr, Contains};
ghost use Rattle.lufs_base.specs.Causes.{counted};
ghost use Rattle.host_io.specs.Source.{Takes};
ghost use Rattle.host_io.specs.MemSource.{new_state, after_take, failed_take, set_to_fail, told_of};

use crate::mem_sink::is_named;
use crate::{Source, SourceFault};
use lufs_base::{Bytes, Mem};
use std::alloc::Global;
use std::marker::Model;

/// A source in memory. A take fails exactly where a test named it.
#[derive(Drop)]
pub struct MemSource {
    bytes: Bytes,
    // How many of the bytes were taken.
    taken: usize,
    fails: Vec<u64>,
    takes: u64,
    faults: u64,
}

impl Model for MemSource {
    ghost use Rattle.std.specs.Prelude.{◌≤◌, drop, length};
    ghost use Rattle.host_io.specs.MemSource.{State};

    ghost Value = { State };

    ghost view = { λ s. record { left = drop s.taken s.bytes; fails = s.fails.items; takes = s.takes; faults = s.faults } };

    ghost invariant = { λ s. s.taken ≤ length s.bytes };
}

impl MemSource {
    /// A source of these bytes, no take of which fails.
    pub(crate) fn from_slice(alloc: Global, bytes: &[u8]) -> Result<Self, Mem>
        ensures { IfOk result (λ source. source ≡ new_state bytes.now) }
    {
        let bytes = Bytes::from_slice(alloc, bytes)?;
        Ok(MemSource {
            bytes,
            taken: 0,
            fails: Vec::new(alloc),
            takes: 0,
            faults: 0,
        })
    }

    /// The same source, whose k-th take from now on fails for each k of the list, from 1.
    pub(crate) fn failing(self, fails: Vec<u64>) -> Self
        ensures { result ≡ set_to_fail fails.items self }
    {
        MemSource {
            bytes: self.bytes,
            taken: self.taken,
            fails,
            takes: 0,
            faults: self.faults,
        }
    }
}

impl Source for MemSource {
    ghost use Rattle.host_io.specs.MemSource.{told_of};

    ghost told = { λ s. told_of s };

    fn faults(&self) -> u64 {
        self.faults
    }

    /// Gives as many bytes as are left and find room. Fails exactly where the take was named.
    fn take(&mut self, out: &mut [u8]) -> Result<usize, SourceFault>
        requires { 0 < length out.old }
        ensures named { IsErr result ↔ Contains self.old.fails (counted self.old.takes) }
        ensures most { IfOk result (λ n. n ≡ min (length out.old) (length self.old.left)) }
        ensures ok { IfOk result (λ n. self.new ≡ after_take n self.old) }
        ensures err { OnErr result (self.new ≡ failed_take self.old) }
        ensures told { Takes result out.new (told_of self.old) (told_of self.new) }
    {
        self.takes = self.takes.saturating_add(1);
        if is_named(&self.fails, self.takes) {
            self.faults = self.faults.saturating_add(1);
            return Err(SourceFault);
        }
        let left = &self.bytes.as_slice()[self.taken..];
        let n = out.len().min(left.len());
        out[..n].copy_from_slice(&left[..n]);
        self.taken += n;
        Ok(n)
    }
}
