//! A whole small session, built step by step (`docs/DEFINITIONS.md`).
#![tactic(auto)]

mod built;

pub use built::block_used_again;
