//! The record of an inode, both ways: from its 128 bytes and to them (`docs/FORMAT.md`, "Inode
//! record").
#![tactic(auto)]

mod numbers;
mod record;

pub use numbers::put_numbers;
pub use record::{BadInode, read_dinode, write_dinode};
pub use volume_model::Dinode;

#[cfg(test)]
mod tests;
