//! A disk in memory that lists its calls, fails where a test names it, and tells what a crash leaves.
ghost use Rattle.std.specs.Prelude.{◌≡◌, ◌≤◌, ◌<◌, ◌⊎◌, ◌↔◌, ℕ, ◌+◌, ◌*◌, ◌%◌, ◌/◌, [], ◌∷◌, ◌++◌, length, IfSome, IsSome, Some, IsErr, is_ok, is_err, if◌then◌else◌, OnOk, OnErr, List, Contains, IsTrue, IfOk, IfErr, Ok, Err};
ghost use Rattle.volume_model.specs.Crash.{Outcome};
ghost use Rattle.sector_disk.specs.Chosen.{crash_of};
ghost use Rattle.lufs_base.specs.Causes.{counted};
ghost use Rattle.volume_model.specs.Format.{sectors_of, overwritten};
ghost use Rattle.volume_model.specs.declared.device_call.DeviceCall.TheVariants.{Write, Flush};
ghost use Rattle.sector_disk.specs.Disk.{IsWhole, IsRead, IsUnwritten, HasMade, HasMadePartly, CountsFailure, failed_again};
ghost use Rattle.sector_disk.specs.MemDisk.{new_state, opening_of, starved_more, faulted_more, after_read, after_write, after_flush, record_of, told_of};

use crate::crash::crash_image;
use crate::image::put;
use crate::{CrashError, Disk};
use lufs_base::{Bytes, DiskFault, Mem};
use std::alloc::Global;
use std::marker::Model;
use volume_model::DeviceCall;

/// The k-th call of its kind, from 1, which is to fail.
#[derive(Clone, Copy, Debug, PartialEq, Eq)]
pub enum Fail {
    Read(u64),
    Write(u64),
    Flush(u64),
}

/// A disk in memory. A call fails where a test named it, and a write or a flush also where memory runs out.
#[derive(Drop)]
pub struct MemDisk {
    image: Vec<u8>,
    // None before the first listed call: until then the image is as it was.
    opening: Option<Vec<u8>>,
    calls: Vec<DeviceCall>,
    fails: Vec<Fail>,
    reads: u64,
    writes: u64,
    flushes: u64,
    faults: u64,
    // Only contracts read these two.
    failures: u64,
    failed_at: u64,
    starved: u64,
}

impl Model for MemDisk {
    ghost use Rattle.sector_disk.specs.Disk.{GoesWith};
    ghost use Rattle.sector_disk.specs.MemDisk.{State, opening_of, told_record};

    ghost Value = { State };

    ghost view = { λ d. record {
      image = d.image.items;
      opening = opening_of d.opening d.image.items;
      calls = d.calls.items;
      fails = d.fails.items;
      reads = d.reads;
      writes = d.writes;
      flushes = d.flushes;
      faults = d.faults;
      failures = d.failures;
      failed_at = d.failed_at;
      starved = d.starved;
    } };

    ghost invariant = { λ d. GoesWith (told_record d.opening d.image.items d.calls.items) d.faults d.image.items };
}

// Whether the call is among those that are to fail.
fn is_named(fails: &[Fail], call: Fail) -> bool
    ensures { IsTrue result ↔ Contains fails.now call }
{
    fails.contains(&call)
}

// Adds a call to the list, after the image before the first one. An `Err` adds nothing.
fn list(
    image: &Vec<u8>,
    opening: &mut Option<Vec<u8>>,
    calls: &mut Vec<DeviceCall>,
    call: DeviceCall,
) -> Result<(), Mem>
    ensures calls { calls.new.items ≡ (if is_ok result then calls.old.items ++ call ∷ [] else calls.old.items) }
    ensures opening { opening_of opening.new image.now.items ≡ opening_of opening.old image.now.items }
    // From now on the image may change.
    ensures kept { OnOk result ((later : List ℕ) → opening_of opening.new later ≡ opening_of opening.old image.now.items) }
{
    if opening.is_none() {
        *opening = Some(image.to_vec(*image.allocator())?);
    }
    calls.push(call)?;
    Ok(())
}

impl MemDisk {
    /// A disk of this image, of which these calls fail.
    pub fn new(image: Vec<u8>, fails: Vec<Fail>) -> Self
        requires { length image.items % 512 ≡ 0 }
        ensures { result ≡ new_state image.items fails.items }
    {
        MemDisk {
            calls: Vec::new(*image.allocator()),
            image,
            opening: None,
            fails,
            reads: 0,
            writes: 0,
            flushes: 0,
            faults: 0,
            failures: 0,
            failed_at: 0,
            starved: 0,
        }
    }

    /// What a crash after the first n listed calls leaves. Each pair `(sector, j)` of `choice` gives that sector the
    /// j-th value that was written to it since the last flush, counted from 1; every other sector has its value at
    /// that flush. Where no flush is among these calls, the first image counts as one. Of two pairs that name one
    /// sector the later counts. `NoSuch` names the first pair whose value isn't there, or whose sector is past the
    /// disk.
    pub fn crash(&self, alloc: Global, n: u64, choice: &[(u64, u32)]) -> Result<Vec<u8>, CrashError>
        requires { n ≤ length self.now.calls }
        ensures ok { IfOk result (λ image. crash_of (record_of self.now) n choice.now ≡ Ok image.items) }
        ensures err { IfErr result (λ e. (e ≡ CrashError.Mem) ⊎ (crash_of (record_of self.now) n choice.now ≡ Err e)) }
        ensures outcome { IfOk result (λ image. Outcome (record_of self.now) n image.items) }
    {
        let opening = match &self.opening {
            Some(kept) => kept.as_slice(),
            None => self.image.as_slice(),
        };
        crash_image(alloc, opening, &self.calls[..n as usize], choice)
    }

    // Counts a call that failed.
    fn fault(&mut self) -> DiskFault
        ensures { self.new ≡ faulted_more self.old }
    {
        self.faults = self.faults.saturating_add(1);
        self.failures = self.failures.wrapping_add(1);
        self.failed_at = self.calls.len() as u64;
        DiskFault
    }

    // Counts a call that failed because memory ran out.
    fn starve(&mut self) -> DiskFault
        ensures { self.new ≡ starved_more self.old }
    {
        self.starved = self.starved.saturating_add(1);
        self.fault()
    }

    /// How many calls failed because memory ran out.
    pub fn starved(&self) -> u64
        ensures { result ≡ self.now.starved }
    {
        self.starved
    }
}

impl Disk for MemDisk {
    ghost use Rattle.std.specs.Prelude.{refl};
    ghost use Rattle.sector_disk.specs.MemDisk.{told_of};

    ghost told = { λ d. told_of d };

    fn sectors(&self) -> u64 {
        self.image.len() as u64 / 512
    }

    fn calls(&self) -> u64 {
        self.calls.len() as u64
    }

    fn faults(&self) -> u64 {
        self.faults
    }

    /// Fails exactly where the call was named.
    fn read(&mut self, first: u64, out: &mut [u8]) -> Result<(), DiskFault>
        requires whole { IsWhole (length out.old) }
        requires inside { 512 * first + length out.old ≤ 512 * sectors_of self.old.image }
        ensures named { Contains self.old.fails (Fail.Read (counted self.old.reads)) → IsErr result }
        ensures only_named { OnErr result (Contains self.old.fails (Fail.Read (counted self.old.reads))) }
        ensures after { self.new ≡ after_read (is_err result) self.old }
        ensures bytes { OnOk result (IsRead first out.new (told_of self.old)) }
        ensures unwritten { IsUnwritten (told_of self.old) (told_of self.new) }
        ensures failure { CountsFailure result (told_of self.old) (told_of self.new) }
    {
        self.reads = self.reads.saturating_add(1);
        if is_named(&self.fails, Fail::Read(self.reads)) {
            return Err(self.fault());
        }
        let at = 512 * first as usize;
        out.copy_from_slice(&self.image[at..at + out.len()]);
        Ok(())
    }

    /// Fails exactly where the call was named, or memory for its place in the list ran out. A named write that
    /// fails is listed, and each sector stays old.
    fn write(&mut self, first: u64, bytes: &[u8]) -> Result<(), DiskFault>
        requires whole { IsWhole (length bytes.now) }
        requires inside { 512 * first + length bytes.now ≤ 512 * sectors_of self.old.image }
        ensures named { Contains self.old.fails (Fail.Write (counted self.old.writes)) → IsErr result }
        ensures ok { OnOk result (self.new ≡ after_write (Write first bytes.now) (overwritten self.old.image first bytes.now) self.old) }
        ensures err { OnErr result (
            (Contains self.old.fails (Fail.Write (counted self.old.writes)) × (self.new ≡ faulted_more (after_write (Write first bytes.now) self.old.image self.old)))
            ⊎ (self.new ≡ starved_more (record self.old { writes = counted self.old.writes }))) }
        ensures made { OnOk result (HasMade (Write first bytes.now ∷ []) (told_of self.old) (told_of self.new)) }
        ensures failed { OnErr result (HasMadePartly first bytes.now (told_of self.old) (told_of self.new) ⊎ IsUnwritten (told_of self.old) (told_of self.new)) }
        ensures failure { CountsFailure result (told_of self.old) (told_of self.new) }
    {
        self.writes = self.writes.saturating_add(1);
        let Ok(kept) = Bytes::from_slice(*self.image.allocator(), bytes) else {
            return Err(self.starve());
        };
        let call = DeviceCall::Write { first, bytes: kept };
        if list(&self.image, &mut self.opening, &mut self.calls, call).is_err() {
            return Err(self.starve());
        }
        if is_named(&self.fails, Fail::Write(self.writes)) {
            // Not by `fault`: until the failure is counted the image doesn't go with the list.
            self.faults = self.faults.saturating_add(1);
            self.failures = self.failures.wrapping_add(1);
            self.failed_at = self.calls.len() as u64;
            return Err(DiskFault);
        }
        put(&mut self.image, first, bytes);
        Ok(())
    }

    /// Fails exactly where the call was named, or memory for its place in the list ran out.
    fn flush(&mut self) -> Result<(), DiskFault>
        ensures named { Contains self.old.fails (Fail.Flush (counted self.old.flushes)) → IsErr result }
        ensures ok { OnOk result (self.new ≡ after_flush self.old) }
        ensures err { OnErr result (
            (Contains self.old.fails (Fail.Flush (counted self.old.flushes)) × (self.new ≡ faulted_more (record self.old { flushes = counted self.old.flushes })))
            ⊎ (self.new ≡ starved_more (record self.old { flushes = counted self.old.flushes }))) }
        ensures made { OnOk result (HasMade (Flush ∷ []) (told_of self.old) (told_of self.new)) }
        ensures unwritten { OnErr result (IsUnwritten (told_of self.old) (told_of self.new)) }
        ensures failure { CountsFailure result (told_of self.old) (told_of self.new) }
    {
        self.flushes = self.flushes.saturating_add(1);
        if is_named(&self.fails, Fail::Flush(self.flushes)) {
            return Err(self.fault());
        }
        if list(
            &self.image,
            &mut self.opening,
            &mut self.calls,
            DeviceCall::Flush,
        )
        .is_err()
        {
            return Err(self.starve());
        }
        Ok(())
    }

    ghost size = { λ d. refl };

    ghost counted = { λ d. (refl, refl) };
}
