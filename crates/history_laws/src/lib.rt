//! The laws by which a volume that keeps some facts now is crash safe at every moment.
#![tactic(auto)]

mod bytes;
mod entries;
mod now;
mod past;
mod sessions;
mod touched;
mod volumes;
mod worked;
mod writes;

pub use bytes::{bytes_stay, raw_writes, settled_now};
pub use entries::applied_entries;
pub use now::present_moment;
pub use past::earlier_moments;
pub use sessions::{
    crashes_are_mounted_again, failed_calls_of_sessions, mounts_are_crash_safe,
    opened_volumes_keep, sessions_are_crash_safe, sessions_begin, sessions_keep,
    volumes_have_roles,
};
pub use touched::{
    blocks_stay_whole, changes_apply, unchanging_entries_pass, untouched_bytes_stay,
};
pub use volumes::{
    changed_contents, changes_keep, entries_begin, entries_pass, hands_keep, leaving_calls_keep,
    publishes_keep, quiet_steps_keep, raw_writes_keep, replies_are_told, rolls_are_noted,
    seals_keep,
};
pub use worked::directory_block_used_again;
pub use writes::writes_in_place;
