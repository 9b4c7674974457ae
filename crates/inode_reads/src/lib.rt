//! Inodes of a store, read as the tree has them that its content stands for
//! (`docs/definitions/changes.md`, "Inodes read by the tree").
#![tactic(auto)]

mod facts;
mod read;

pub use facts::{is_directory, is_link, may};
pub use read::read_inode;
