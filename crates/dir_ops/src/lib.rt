//! Directories, changed by a call: names entered, led to another inode and removed (`docs/definitions/changes.md`,
//! "Directories in a draft").
#![tactic(auto)]

mod chunk_put;
mod edits;
mod entry;
mod growth;

pub use edits::{remove, replace, set_parent};
pub use entry::enter;
