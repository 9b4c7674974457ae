//! The top call of the program: `run`, over a host that stands for the outside.
#![tactic(auto)]

mod check;
mod ending;
mod mkfs;
mod numbers;
mod report;
mod scan;
mod top;
mod words;

pub use top::{NO_MEMORY, run};
