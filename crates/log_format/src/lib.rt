//! The bytes of the log, each read and written exactly as the format says (`docs/FORMAT.md`): its
//! header, the trailer of a log sector, and the records of a transaction.
//!
//! A run is read in one of two ways. `read_run` takes the whole payload and gives its deltas. `RunReader`
//! takes the payload in pieces, as the ring is read, and keeps of the deltas a tally: their number, their
//! bytes, and the head of the last one, which alone decides what may stand after them. Of the bytes it
//! keeps those of the record that isn't whole yet, at most 4112 and a piece.
#![tactic(auto)]

mod bodies;
mod header;
mod kinds;
mod loggable;
mod records;
mod run_reader;
mod trailer;
mod transaction;

pub use header::{BadHeader, read_header, write_header};
pub use loggable::are_loggable;
pub use records::{Run, RunError, read_run};
pub use run_reader::{RunReader, Tally};
pub use trailer::{read_trailer, write_trailer};
pub use transaction::write_tx;
pub use volume_model::{Header, Trailer, Tx, TxList};

#[cfg(test)]
mod tests;
