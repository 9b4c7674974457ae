//! Makes an empty volume on a disk. Its writes come in such an order that a crash at any moment leaves what was
//! there, no volume, or the whole new one (`docs/FORMAT.md`, "A new volume").
#![tactic(auto)]

mod blocks;
mod laws;
mod make;

pub use laws::{mkfs_outcomes, new_volumes};
pub use make::{MkfsError, mkfs};

#[cfg(test)]
mod tests;
