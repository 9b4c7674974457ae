//! One call of a script, served over a volume whose image is in memory (`docs/CALLS.md`).
#![tactic(auto)]

mod carrying;
mod hands;
mod serving;

pub use serving::{Served, serve};
