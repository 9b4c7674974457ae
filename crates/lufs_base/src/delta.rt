//! One logged change of metadata, and lists of them.
ghost use Rattle.std.specs.Prelude.{◌≡◌, ◌∷◌, ◌++◌, [], length, OnOk, OnErr};
ghost use Rattle.lufs_base.specs.Kinds.{has_bytes, is_zero_block, is_cancel};

use crate::{Bytes, Mem};
use std::alloc::Global;
use std::marker::Model;

/// What a logged change is a change of (`docs/FORMAT.md`, "Log records").
#[derive(Clone, Copy, Debug, PartialEq, Eq)]
pub enum DeltaKind {
    /// A group record.
    Group,
    /// An inode record.
    Inode,
    /// A directory chunk.
    Chunk,
    /// A range of block numbers in a pointer block.
    Pointers,
    /// A whole block of zeros, whose bytes are not logged.
    Zero,
    /// The text of a symbolic link.
    LinkText,
    /// A freed metadata block: older deltas on it are void.
    Cancel,
}

impl DeltaKind {
    /// Whether the bytes of such a delta stand in the log (`docs/FORMAT.md`, "Log records").
    pub fn has_bytes(self) -> bool
        ensures { result ≡ has_bytes self }
    {
        !matches!(self, DeltaKind::Zero | DeltaKind::Cancel)
    }

    /// Whether it is a block of zeros.
    pub fn is_zero_block(self) -> bool
        ensures { result ≡ is_zero_block self }
    {
        matches!(self, DeltaKind::Zero)
    }

    /// Whether it makes older deltas of its block void.
    pub fn is_cancel(self) -> bool
        ensures { result ≡ is_cancel self }
    {
        matches!(self, DeltaKind::Cancel)
    }
}

/// One logged change: `len` bytes at the byte address `home`. A zero block and a cancel log no bytes.
#[derive(Debug, Drop)]
pub struct Delta {
    pub kind: DeltaKind,
    pub home: u64,
    pub len: u32,
    pub bytes: Bytes,
}

/// Deltas in the order in which they are logged.
#[derive(Debug, Drop)]
pub struct DeltaList {
    deltas: Vec<Delta>,
}

impl Model for DeltaList {
    ghost use Rattle.std.specs.Prelude.{List};
    ghost use Rattle.lufs_base.specs.declared.delta.Delta.{Delta};

    ghost Value = { List Delta };

    ghost view = { λ l. l.deltas.items };
}

impl DeltaList {
    pub fn new(alloc: Global) -> Self
        ensures { result ≡ [] }
    {
        DeltaList {
            deltas: Vec::new(alloc),
        }
    }

    /// Adds a delta at the end. An `Err` leaves the list as it was.
    pub fn push(&mut self, delta: Delta) -> Result<(), Mem>
        ensures ok { OnOk result (self.new ≡ self.old ++ delta ∷ []) }
        ensures err { OnErr result (self.new ≡ self.old) }
    {
        self.deltas.push(delta)?;
        Ok(())
    }

    pub fn as_slice(&self) -> &[Delta]
        ensures { result.now ≡ self.now }
    {
        self.deltas.as_slice()
    }

    pub fn len(&self) -> usize
        ensures { result ≡ length self.now }
    {
        self.deltas.len()
    }
}
