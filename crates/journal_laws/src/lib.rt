//! The laws of the journal's state machine (`docs/DEFINITIONS.md`): its steps keep it safe, and whatever a crash
//! leaves, a mount recovers a version of it.
#![tactic(auto)]

mod keeps;
mod mount;
mod recovery;
mod release;
mod rolls;
mod worked;

pub use keeps::{changes_give, failed_steps, raw_blocks, steps_keep, versions_stay};
pub use mount::{
    failed_calls_of_mounts, mount_ends, mount_outcomes, mount_steps, mounts_of_outcomes,
};
pub use recovery::{failed_calls, recovered_versions};
pub use release::released_blocks;
pub use rolls::rolls_change_nothing;
pub use worked::changes_of_a_directory;
