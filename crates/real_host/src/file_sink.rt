//! A sink over standard output or a file.
ghost use Rattle.std.specs.Prelude.{None};

use host_io::{Sink, SinkFault};
use std::io;
use std::io::Write;

#[derive(Drop)]
enum Output<R, F> {
    Standard(R),
    File(F),
}

/// Standard output or a file. It tells nothing of what it was given.
#[derive(Drop)]
pub struct FileSink<R, F> {
    output: Output<R, F>,
    faults: u64,
}

impl<R: Drop, F: Drop> FileSink<R, F> {
    pub fn standard(rt: R) -> Self {
        FileSink {
            output: Output::Standard(rt),
            faults: 0,
        }
    }

    pub fn file(file: F) -> Self {
        FileSink {
            output: Output::File(file),
            faults: 0,
        }
    }
}

fn write<R: Print, F: Write>(output: &mut Output<R, F>, bytes: &[u8]) -> io::Result<()> {
    match output {
        Output::Standard(rt) => rt.write_all(bytes),
        Output::File(file) => file.write_all(bytes),
    }
}

impl<R: Print + Drop, F: Write + Drop> Sink for FileSink<R, F> {
    ghost told = { λ k. record { held = None; faults = k.faults } };

    fn faults(&self) -> u64 {
        self.faults
    }

    fn put(&mut self, bytes: &[u8]) -> Result<(), SinkFault> {
        if write(&mut self.output, bytes).is_err() {
            self.faults = self.faults.saturating_add(1);
            return Err(SinkFault);
        }
        Ok(())
    }
}
