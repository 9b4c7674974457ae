//! What a line of a script asks for, what it is answered, and what a session keeps of it
//! (`docs/CALLS.md`, `docs/SCRIPTS.md`).
#![tactic(auto)]

mod call;
mod credentials;
mod history;
mod names;
mod path;
mod reply;
mod waiting;

pub use call::{Call, Line};
pub use credentials::{Attr, Cred, permits};
pub use history::{Commit, Entry, RollNote};
pub use names::NameList;
pub use path::PathText;
pub use reply::{Refusal, Reply, StatInfo};
pub use waiting::{Cause, Wait};

#[cfg(test)]
mod tests;
