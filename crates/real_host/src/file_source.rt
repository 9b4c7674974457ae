//! A source over an open file.
ghost use Rattle.std.specs.Prelude.{None};

use host_io::{Source, SourceFault};
use std::io::Read;

/// An open file, read from its front on. It tells nothing of what is left.
#[derive(Drop)]
pub struct FileSource<F> {
    file: F,
    faults: u64,
}

impl<F: Drop> FileSource<F> {
    pub fn new(file: F) -> Self {
        FileSource { file, faults: 0 }
    }
}

impl<F: Read + Drop> Source for FileSource<F> {
    ghost told = { λ s. record { left = None; faults = s.faults } };

    fn faults(&self) -> u64 {
        self.faults
    }

    fn take(&mut self, out: &mut [u8]) -> Result<usize, SourceFault> {
        match self.file.read(out) {
            Ok(n) => Ok(n),
            Err(_) => {
                self.faults = self.faults.saturating_add(1);
                Err(SourceFault)
            },
        }
    }
}
