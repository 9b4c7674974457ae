//! How a command ends for whoever reads its output: the lines that commands share, and how a text is put to a sink
//! (`docs/FORMAT.md`, "Statuses"). No put takes memory, so that each ending has its text.
#![tactic(auto)]

mod put;
mod verdict;

pub use put::{put_bad_log, put_both, put_line, put_number};
pub use verdict::{put_unsound, put_verdict};
