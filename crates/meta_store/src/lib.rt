//! Where the metadata of a volume is read: a block at a time, from an image in memory or from a disk whose log
//! is laid over it (`docs/DEFINITIONS.md`, "What a store tells").
#![tactic(auto)]

mod change;
mod error;
mod image;
mod laid;
mod laws;
mod lay;
mod merge;
mod plain;
mod read;
mod replayed;
mod store;

pub use change::{Change, Freed, FreedList, RawList, RawWrite};
pub use error::StoreError;
pub use laid::{LaidDeltas, recovered_content};
pub use laws::merged_is_loggable;
pub use lay::lay_delta;
pub use merge::merged;
pub use plain::PlainStore;
pub use read::MetaRead;
pub use replayed::ReplayedDisk;
pub use store::MetaStore;

#[cfg(test)]
mod tests;
