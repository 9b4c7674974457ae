//! A slot of a directory chunk as a value.
use lufs_base::Name;

/// A slot of a directory chunk (`docs/FORMAT.md`, "Directory chunks").
#[derive(Debug, Drop)]
pub struct Slot {
    /// The number of the inode that the slot names. An unused slot has 0.
    pub ino: u32,
    /// The bytes of the slot.
    pub len: u16,
    /// The name. That of an unused slot is empty.
    pub name: Name,
}
