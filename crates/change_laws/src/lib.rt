//! The laws by which a change of a volume is proved once: what an inode claims is exchanged with what is held, and what is
//! held is marked in the bits of its group (`docs/DEFINITIONS.md`).
#![tactic(auto)]

mod bits;
mod claims;
mod exchange;
mod hands;
mod marks;
mod plans;
mod plans_chunks;
mod plans_cut;
mod plans_files;
mod plans_growth;
mod plans_inodes;
mod plans_records;
mod plans_writes;
mod worked;

pub use bits::{
    bits_counted, counts_stay_right, group_stays, one_bit_put, one_put_back, one_taken,
};
pub use claims::{body_blocks, claims_are_apart, claims_of_one_inode};
pub use exchange::{exchanged, state_replaced};
pub use hands::{hands_alike, hands_reordered};
pub use marks::{hand_put_back, hand_taken, marked, record_replaced};
pub use plans::{plan_begins, plan_ends};
pub use plans_chunks::chunk_replaced;
pub use plans_cut::{cut_by_pointer, cut_to, file_shortened};
pub use plans_files::{
    file_block_attached, file_block_attached_by_pointer, file_lengthened, file_pointer_attached,
};
pub use plans_growth::{block_attached, block_attached_by_pointer, pointer_attached, size_grown};
pub use plans_inodes::{directory_made, file_made, inode_freed, link_made};
pub use plans_records::{attributes_set, links_set};
pub use plans_writes::{one_inode_exchanged, one_inode_written};
pub use worked::{held_and_claimed, marked_and_free};
