//! What a check of a volume answers: the counts of a sound volume, or the first rule that is broken.

/// A rule of a sound volume that is broken (`docs/FORMAT.md`, "What sound means"), in the order in which a check
/// looks for them. Each comes with the number of a group, an inode or a block.
#[derive(Clone, Copy, Debug, PartialEq, Eq)]
pub enum Kind {
    /// The group block of this group doesn't begin with its record.
    Group,
    /// The bytes in the place of this inode's record aren't a record, or inode 0 or 1 is in use.
    Inode,
    /// A number in the record of this inode, or in its pointer block, is out of range.
    Fields,
    /// The root isn't a directory in use.
    Root,
    /// Two places or more claim this block.
    Twice,
    /// A chunk of this directory breaks the format, its first two names aren't `.` and `..`, or a name is in it twice.
    Chunk,
    /// This directory names an inode that isn't in use.
    Name,
    /// This directory doesn't have its one place in the tree.
    Parent,
    /// The number of names of this inode isn't the one in its record.
    Links,
    /// The bit of this inode doesn't say whether it is in use.
    InodeBit,
    /// The bit of this block doesn't say whether it is claimed.
    BlockBit,
    /// The free inodes or free blocks of this group are not those of its bits.
    Count,
}

/// What there is in a sound volume.
#[derive(Clone, Copy, Debug, PartialEq, Eq)]
pub struct Counts {
    /// Inodes in use.
    pub inodes: u32,
    /// Blocks that they claim.
    pub blocks: u32,
    /// Body blocks that are free.
    pub free: u32,
}

/// What a check answers: a sound volume with its counts, or the first rule that is broken, with the lowest number
/// for which it is.
#[derive(Clone, Copy, Debug, PartialEq, Eq)]
pub enum Verdict {
    Clean(Counts),
    Finding(Kind, u32),
}
