//! What follows from the definitions of records, of a sound volume and of its tree (`docs/DEFINITIONS.md`).
#![tactic(auto)]

mod bridges;
mod changes;
mod contents;
mod pointers;
mod records;
mod soundness;

pub use bridges::{fields_by_node, nodes_in_use, types_by_node};
pub use changes::{
    agreement_in_metadata, laid_bytes, one_chunk, one_group_record, one_inode_record,
    unclaimed_blocks,
};
pub use contents::{bytes_of_file, bytes_of_link};
pub use pointers::{one_number, one_number_past_chunks, several_numbers};
pub use records::{dinode_read_back, dinode_spelled_again, group_read_back, group_spelled_again};
pub use soundness::{
    findings_in_order, free_blocks, free_inodes, laid_claims, one_tree, sound_in_parts, verdicts,
    what_is_read, whole_blocks,
};
