//! Calls of scripts, asked and planned over a store, each by what serves it (`docs/definitions/changes.md`, "Plans").
#![tactic(auto)]

mod asked;
mod asking;
mod ends;
mod laws;
mod planning;

pub use asked::Asked;
pub use asking::ask;
pub use laws::lines_have_right_words;
pub use planning::plan;
