//! Directory chunks: read, written, searched and changed (`docs/FORMAT.md`, "Directory chunks").
#![tactic(auto)]

mod chunk;
mod edits;
mod fill;
mod slot;

pub use chunk::{Chunk, ChunkError, chunk_read_back, chunk_writable, read_chunk, write_chunk};

#[cfg(test)]
mod tests;
