//! What follows from the definitions of the log (`docs/DEFINITIONS.md`): what is written is read back, a
//! mount reads just the transactions that were not trimmed, and a journal keeps it so.
#![tactic(auto)]

mod crashes;
mod images;
mod listing;
mod reading;
mod steps;

pub use crashes::{crashed_logs, ring_writes};
pub use images::{header_writes, tx_writes, writes_beside};
pub use listing::{mount_lists, untrimmed_are_listed};
pub use reading::{header_read_back, header_spelled_again, tx_read_back, whole_run_is_loggable};
pub use steps::ring_steps;
