//! The image of a volume, read whole into memory and written back to its disk.
#![tactic(auto)]

mod laws;
mod read;
mod write;

pub use laws::{same_homes, written_images};
pub use read::read_image;
pub use write::write_image;

#[cfg(test)]
mod tests;
