//! A disk over an open file or block device.
ghost use Rattle.std.specs.Prelude.{◌≡◌, ◌*◌, ◌<◌, ◌^◌, None};
ghost use Rattle.lufs_base.specs.Causes.{counted};
ghost use Rattle.sector_disk.specs.Disk.{failed_again};

use sector_disk::{Disk, DiskFault};
use std::fs::OpenFile;
use std::io;
use std::io::{Seek, SeekFrom};
use std::os::unix::fs::FileExt;

/// A disk in an open file or block device, with as many sectors as the file had whole when it was opened. It
/// tells nothing of their content.
#[derive(Drop)]
pub struct FileDisk<F> {
    file: F,
    sectors: u64,
    calls: u64,
    faults: u64,
    // Only contracts read these two.
    failures: u64,
    failed_at: u64,
    ghost fits: { 512 * sectors < 2 ^ 64 },
}

impl<F: Seek + Drop> FileDisk<F> {
    // The end is sought, since a block device has no length in its metadata.
    pub fn new(mut file: F) -> io::Result<Self> {
        let bytes = file.seek(SeekFrom::End(0))?;
        Ok(FileDisk {
            file,
            sectors: bytes / 512,
            calls: 0,
            faults: 0,
            failures: 0,
            failed_at: 0,
        })
    }
}

impl<F> FileDisk<F> {
    // Counts a call that failed.
    fn fault(&mut self) -> DiskFault
        ensures faults { self.new.faults ≡ counted self.old.faults }
        ensures failures { self.new.failures ≡ failed_again self.old.failures }
        ensures last { self.new.failed_at ≡ self.new.calls }
        ensures calls { self.new.calls ≡ self.old.calls }
        ensures sectors { self.new.sectors ≡ self.old.sectors }
    {
        self.faults = self.faults.saturating_add(1);
        self.failures = self.failures.wrapping_add(1);
        self.failed_at = self.calls;
        DiskFault
    }
}

impl<F: FileExt + OpenFile + Drop> Disk for FileDisk<F> {
    ghost told = { λ d. record {
      sectors = d.sectors;
      present = None;
      listed = None;
      calls = d.calls;
      failures = d.failures;
      failed_at = d.failed_at;
      faults = d.faults;
    } };

    ghost size = { λ _. tt };

    ghost counted = { λ _. tt };

    fn sectors(&self) -> u64 {
        self.sectors
    }

    fn calls(&self) -> u64 {
        self.calls
    }

    fn faults(&self) -> u64 {
        self.faults
    }

    fn read(&mut self, first: u64, out: &mut [u8]) -> Result<(), DiskFault> {
        if self.file.read_exact_at(out, 512 * first).is_err() {
            return Err(self.fault());
        }
        Ok(())
    }

    fn write(&mut self, first: u64, bytes: &[u8]) -> Result<(), DiskFault> {
        self.calls = self.calls.saturating_add(1);
        if self.file.write_all_at(bytes, 512 * first).is_err() {
            return Err(self.fault());
        }
        Ok(())
    }

    /// Syncs the file fully.
    fn flush(&mut self) -> Result<(), DiskFault> {
        if self.file.sync_all().is_err() {
            return Err(self.fault());
        }
        self.calls = self.calls.saturating_add(1);
        Ok(())
    }
}
