//! What bytes on a disk mean. The definitions stand in `specs/`, one file for each notion
//! (`docs/DEFINITIONS.md`); the types of the values that they speak of stand here.
#![tactic(auto)]

mod crashes;
mod device_call;
mod directory;
mod finding;
mod hand;
mod inode;
mod inode_mode;
mod log;

pub use crashes::{outcomes_by_call, outcomes_by_record, replays};
pub use device_call::DeviceCall;
pub use directory::Slot;
pub use finding::{Counts, Kind, Verdict};
pub use hand::{BlockList, Hand};
pub use inode::Dinode;
pub use log::{Header, Trailer, Tx, TxList};

#[cfg(test)]
mod tests;
