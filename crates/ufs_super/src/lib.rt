//! The superblock of a volume, read and written (`docs/FORMAT.md`, "Superblock").
#![tactic(auto)]

mod superblock;

pub use superblock::{
    NotVolume, read_super, superblock_read_back, superblock_spelled_again, write_super,
};

#[cfg(test)]
mod tests;
