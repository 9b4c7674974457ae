//! Lists of indexes of a file's blocks.
ghost use Rattle.std.specs.Prelude.{◌≡◌, ◌∷◌, ◌++◌, [], length, OnOk, OnErr};

use lufs_base::Mem;
use std::alloc::Global;
use std::marker::Model;

/// Indexes of the blocks of a file.
#[derive(Debug, Drop)]
pub struct IndexList {
    indexes: Vec<u32>,
}

impl Model for IndexList {
    ghost use Rattle.std.specs.Prelude.{ℕ, List};

    ghost Value = { List ℕ };

    ghost view = { λ l. l.indexes.items };
}

impl IndexList {
    pub fn new(alloc: Global) -> Self
        ensures { result ≡ [] }
    {
        IndexList {
            indexes: Vec::new(alloc),
        }
    }

    /// Adds an index at the end. An `Err` leaves the list as it was.
    pub fn push(&mut self, index: u32) -> Result<(), Mem>
        ensures ok { OnOk result (self.new ≡ self.old ++ index ∷ []) }
        ensures err { OnErr result (self.new ≡ self.old) }
    {
        self.indexes.push(index)?;
        Ok(())
    }

    pub fn as_slice(&self) -> &[u32]
        ensures { result.now ≡ self.now }
    {
        self.indexes.as_slice()
    }

    pub fn len(&self) -> usize
        ensures { result ≡ length self.now }
    {
        self.indexes.len()
    }
}
