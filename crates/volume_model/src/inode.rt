//! An inode in use as a value.

/// An inode in use (`docs/FORMAT.md`, "Inode record"). Block numbers are those of the volume, and 0
/// stands for none.
#[derive(Clone, Copy, Debug, PartialEq, Eq)]
pub struct Dinode {
    /// The bits of its type and of its rights.
    pub mode: u16,
    /// The names that it has.
    pub links: u16,
    pub uid: u32,
    pub gid: u32,
    /// Bytes.
    pub size: u64,
    /// Seconds since 1970.
    pub mtime: u64,
    pub direct: [u32; 12],
    pub indirect: [u32; 3],
    /// Blocks that it claims, pointer blocks among them.
    pub blocks: u32,
}
