//! The change that a call is making, over a store that doesn't have it yet (`docs/definitions/changes.md`, "Drafts").
#![tactic(auto)]

mod blocks;
mod draft;
mod laws;

pub use draft::Draft;
pub use laws::{drafted_block, merged_bytes, merged_laid};
