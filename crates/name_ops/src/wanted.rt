//! What a call is answered that is asked for the first time.
use file_map::IndexList;
use tree_types::Refusal;

/// What a call wants before it is planned, or why it is refused.
#[derive(Debug, Drop)]
pub enum Wanted {
    Refused(Refusal),
    Wants {
        /// A number for an inode that it makes.
        inode: bool,
        /// The indexes of a file's blocks that are to be claimed, rising.
        fresh: IndexList,
        /// How many other blocks.
        others: u32,
    },
}
