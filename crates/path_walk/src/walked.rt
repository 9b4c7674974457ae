//! Where a walk ends.
use lufs_base::{Ino, Name};

/// Where a walk ends (`docs/CALLS.md`, "Walking a path").
#[derive(Drop)]
pub struct Walked {
    /// The directory that the last name is looked up in.
    pub dir: Ino,
    /// The last name of the path.
    pub name: Name,
    /// The inode that the directory gives this name.
    pub found: Option<Ino>,
}
