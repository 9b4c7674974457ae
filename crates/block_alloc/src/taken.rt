//! What a call that wants an inode or blocks is answered.
use tree_types::Wait;
use volume_model::Hand;

/// What a call that wants an inode or blocks is answered.
#[derive(Debug, Drop)]
pub enum Taken {
    /// They are in this hand now.
    Got(Hand),
    /// Not yet.
    Later(Wait),
    /// Every inode is in use.
    NoInodes,
    /// Fewer blocks are free than the call wants.
    NoSpace,
}
