//! What a change of a volume owes to a store that takes it, proved delta by delta (`docs/DEFINITIONS.md`).
#![tactic(auto)]

mod drafts;
mod drawn;
mod files;
mod freeing;
mod growth;
mod laying;
mod raw;

pub use drafts::{draft_begins, draft_ends, node_has_inode};
pub use drawn::{attributes_drawn, chunk_drawn, directory_drawn, file_drawn, link_drawn};
pub use files::{
    file_block_attached, file_block_attached_by_pointer, file_cut, file_cut_by_pointer,
    file_lengthened, file_pointer_attached, file_shortened,
};
pub use freeing::{blocks_of_inode, draft_alike, hand_given_back, inode_freed};
pub use growth::{block_added, block_added_by_pointer, chunk_added, pointer_added};
pub use laying::{one_delta_laid, suited_beside};
pub use raw::raw_written;
