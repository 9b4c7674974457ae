//! What a plan needs besides its deltas: the inode and the blocks of its hand, times, the test whether its change may
//! be recorded, and the laws of its end (`docs/definitions/changes.md`, "Plans").
#![tactic(auto)]

mod ending;
mod hands;
mod plans;
mod recorded;
mod removed;
mod time;

pub use ending::finished;
pub use hands::{blocks_in, inode_in};
pub use plans::{call_planned, links_made, tree_told};
pub use recorded::is_recorded;
pub use removed::links_removed;
pub use time::set_time;
