//! What bytes on a disk mean, computed on small logs, records and volumes, so that a reader sees what the definitions of
//! volume_model say.
#![tactic(auto)]

mod blocks;
mod findings;
mod log_bytes;
mod mkfs;
mod records;
mod small_logs;
mod volumes;

pub use blocks::{chunks, pointer_blocks};
pub use findings::{
    findings_beside_hands, findings_come_in_order, findings_of_bits, findings_of_fields,
    findings_of_names, findings_of_pointer_blocks, findings_of_records, findings_of_two_groups,
};
pub use log_bytes::written;
pub use mkfs::new_volume;
pub use records::{groups, inodes};
pub use small_logs::{logs, replays_of_four_bytes, rings, superblocks, texts, values_after_crash};
pub use volumes::{bytes_read, check_texts, numbers_and_claims, trees, volumes_that_are_sound};
