//! What a call changes, all of it applied at once.
ghost use Rattle.std.specs.Prelude.{◌≡◌, ◌∷◌, ◌++◌, [], length, OnOk, OnErr};

use lufs_base::{BlockNo, Bytes, DeltaList, Mem};
use std::alloc::Global;
use std::marker::Model;
use volume_model::BlockList;

/// A block that a call gives up.
#[derive(Clone, Copy, Debug, PartialEq, Eq)]
pub struct Freed {
    pub block: BlockNo,
    /// It held metadata, whose deltas become void.
    pub meta: bool,
}

/// Blocks that a call gives up.
#[derive(Debug, Drop)]
pub struct FreedList {
    blocks: Vec<Freed>,
}

impl Model for FreedList {
    ghost use Rattle.std.specs.Prelude.{List};
    ghost use Rattle.meta_store.specs.declared.change.Freed.{Freed};

    ghost Value = { List Freed };

    ghost view = { λ l. l.blocks.items };
}

impl FreedList {
    pub fn new(alloc: Global) -> Self
        ensures { result ≡ [] }
    {
        FreedList {
            blocks: Vec::new(alloc),
        }
    }

    /// Adds a block at the end. An `Err` leaves the list as it was.
    pub fn push(&mut self, freed: Freed) -> Result<(), Mem>
        ensures ok { OnOk result (self.new ≡ self.old ++ freed ∷ []) }
        ensures err { OnErr result (self.new ≡ self.old) }
    {
        self.blocks.push(freed)?;
        Ok(())
    }

    pub fn as_slice(&self) -> &[Freed]
        ensures { result.now ≡ self.now }
    {
        self.blocks.as_slice()
    }

    pub fn len(&self) -> usize
        ensures { result ≡ length self.now }
    {
        self.blocks.len()
    }
}

/// Bytes of a file that are written in place, whole sectors from sector `first` on.
#[derive(Debug, Drop)]
pub struct RawWrite {
    pub first: u64,
    pub bytes: Bytes,
}

/// Raw writes in their order.
#[derive(Debug, Drop)]
pub struct RawList {
    writes: Vec<RawWrite>,
}

impl Model for RawList {
    ghost use Rattle.std.specs.Prelude.{List};
    ghost use Rattle.meta_store.specs.declared.change.RawWrite.{RawWrite};

    ghost Value = { List RawWrite };

    ghost view = { λ l. l.writes.items };
}

impl RawList {
    pub fn new(alloc: Global) -> Self
        ensures { result ≡ [] }
    {
        RawList {
            writes: Vec::new(alloc),
        }
    }

    /// Adds a write at the end. An `Err` leaves the list as it was.
    pub fn push(&mut self, write: RawWrite) -> Result<(), Mem>
        ensures ok { OnOk result (self.new ≡ self.old ++ write ∷ []) }
        ensures err { OnErr result (self.new ≡ self.old) }
    {
        self.writes.push(write)?;
        Ok(())
    }

    pub fn as_slice(&self) -> &[RawWrite]
        ensures { result.now ≡ self.now }
    {
        self.writes.as_slice()
    }

    pub fn len(&self) -> usize
        ensures { result ≡ length self.now }
    {
        self.writes.len()
    }
}

/// What one call changes: logged deltas, the blocks that it takes and frees, and bytes of files that are
/// written in place before the deltas count.
#[derive(Debug, Drop)]
pub struct Change {
    pub deltas: DeltaList,
    pub taken: BlockList,
    pub freed: FreedList,
    pub raw: RawList,
}

impl Change {
    ghost use Rattle.meta_store.specs.NoChange.{no_change};

    /// A change of nothing.
    pub fn new(alloc: Global) -> Self
        ensures { result ≡ no_change }
    {
        Change {
            deltas: DeltaList::new(alloc),
            taken: BlockList::new(alloc),
            freed: FreedList::new(alloc),
            raw: RawList::new(alloc),
        }
    }
}
