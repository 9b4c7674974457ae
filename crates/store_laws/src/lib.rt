//! What a store takes is a step of a mounted volume (`docs/DEFINITIONS.md`).
#![tactic(auto)]

mod back;
mod begins;
mod steps;
mod volumes;

pub use back::{amends_are_steps, hands_go_back};
pub use begins::{drafts_are_changes, volumes_open_read};
pub use steps::{changes_are_steps, fills_are_writes, reads_stay, writes_come_first};
pub use volumes::{entries_are_applied, hands_are_changed};
