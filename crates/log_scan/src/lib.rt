//! Reads the geometry of a volume, and its log: the header, and the committed transactions in the ring after
//! it, exactly as the format says (`docs/FORMAT.md`).
#![tactic(auto)]

mod geometry;
mod log;
mod ring;
mod runs;
mod summaries;
mod summary;

pub use geometry::{GeometryError, read_geometry};
pub use log::{ScanError, scan};
pub use log_format::{Header, Tx, TxList};
pub use summaries::list;
pub use summary::{TxSummaries, TxSummary};

#[cfg(test)]
mod tests;
