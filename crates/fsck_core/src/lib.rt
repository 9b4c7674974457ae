//! The check of a volume: whether it is sound, and else the first rule that it breaks (`docs/FORMAT.md`, "What
//! sound means").
#![tactic(auto)]

mod bits;
mod claims;
mod directory;
mod entries;
mod fields;
mod inodes;
mod names;
mod numbers;
mod parents;
mod records;
mod slots;
mod stop;
mod survey;
mod verdict;

pub use verdict::check;
