//! Pointer blocks, and where the number of a file's block stands (`docs/FORMAT.md`, "Pointer blocks").
#![tactic(auto)]

mod place;
mod pointers;

pub use place::{Place, place_of};
pub use pointers::{
    Pointers, numbers_read_back, numbers_spelled_again, read_pointers, write_pointers,
};

#[cfg(test)]
mod tests;
