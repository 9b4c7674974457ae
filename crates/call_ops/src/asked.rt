//! What a call is answered that is asked.
use path_walk::Walked;
use tree_types::Reply;

/// What a call is answered that is asked.
#[derive(Drop)]
pub enum Asked {
    /// The reply of a call that changes nothing.
    Told(Reply),
    /// The call is carried out: where its path ends, and what it wants.
    Wants {
        walked: Walked,
        /// A number for an inode that it makes.
        inode: bool,
        /// How many blocks.
        blocks: u32,
    },
}
