//! The record of a group, both ways, and what it says is free (`docs/FORMAT.md`, "Group record").
#![tactic(auto)]

mod bits;
mod group;
mod record;

pub use bits::{is_set, set};
pub use group::Group;
pub use record::{BadGroup, read_group, write_group};

#[cfg(test)]
mod tests;
