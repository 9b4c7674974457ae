//! What calls do with the inode that their path ends in: those that change nothing, with the stores that they read
//! (`docs/definitions/changes.md`, "Replies that are read").
#![tactic(auto)]

mod listing;
mod stats;

pub use listing::list;
pub use stats::stat;

#[cfg(test)]
mod tests;
