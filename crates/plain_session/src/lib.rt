//! The lines of one script, served over a volume in memory by a number of turns, with their history and their replies
//! (`docs/SCRIPTS.md`).
#![tactic(auto)]

mod entered;
mod replies;
mod session;
mod turns;

pub use session::{Session, serve_lines};
pub use turns::turns_in;
