//! Numbers of blocks, inodes, transactions and epochs, each in a type of its own.

/// The number of a block of 4,096 bytes, from 0 at the front of the volume.
#[derive(Clone, Copy, Debug, PartialEq, Eq, PartialOrd, Ord)]
pub struct BlockNo(pub u32);

/// The number of an inode. The root is inode 2.
#[derive(Clone, Copy, Debug, PartialEq, Eq, PartialOrd, Ord)]
pub struct Ino(pub u32);

/// The number of a transaction, from 1 in each epoch.
#[derive(Clone, Copy, Debug, PartialEq, Eq, PartialOrd, Ord)]
pub struct Tid(pub u32);

/// The epoch of a volume: 1 when it was made, and one more at each mount. Each log sector names it.
#[derive(Clone, Copy, Debug, PartialEq, Eq, PartialOrd, Ord)]
pub struct Epoch(pub u32);
