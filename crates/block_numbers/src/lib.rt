//! The numbers of an inode's blocks, read with the change that a call is making.
#![tactic(auto)]

mod numbers;

pub use numbers::read_numbers;
