//! The blocks of files, read and changed with the change that a call is making
//! (`docs/definitions/changes.md`, "Files in a draft").
#![tactic(auto)]

mod attachment;
mod block_needs;
mod drop;
mod frees;
mod group_bits;
mod indexes;
mod inode_lookup;
mod laws;
mod mapping;
mod shares;
mod sizes;

pub use attachment::attach;
pub use block_needs::{Needed, blocks_needed};
pub use drop::drop_inode;
pub use indexes::IndexList;
pub use laws::mapped_bytes;
pub use mapping::map;
pub use sizes::cut;
