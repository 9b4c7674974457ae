//! What a call that is under way holds of a volume, and lists of blocks.
ghost use Rattle.std.specs.Prelude.{◌≡◌, ◌∷◌, ◌++◌, [], length, OnOk, OnErr};

use lufs_base::{BlockNo, Mem};
use std::alloc::Global;
use std::marker::Model;

/// The numbers of blocks.
#[derive(Debug, Drop)]
pub struct BlockList {
    blocks: Vec<u32>,
}

impl Model for BlockList {
    ghost use Rattle.std.specs.Prelude.{ℕ, List};

    ghost Value = { List ℕ };

    ghost view = { λ l. l.blocks.items };
}

impl BlockList {
    pub fn new(alloc: Global) -> Self
        ensures { result ≡ [] }
    {
        BlockList {
            blocks: Vec::new(alloc),
        }
    }

    /// Adds a block at the end. An `Err` leaves the list as it was.
    pub fn push(&mut self, block: BlockNo) -> Result<(), Mem>
        ensures ok { OnOk result (self.new ≡ self.old ++ block.0 ∷ []) }
        ensures err { OnErr result (self.new ≡ self.old) }
    {
        self.blocks.push(block.0)?;
        Ok(())
    }

    pub fn as_slice(&self) -> &[u32]
        ensures { result.now ≡ self.now }
    {
        self.blocks.as_slice()
    }

    pub fn len(&self) -> usize
        ensures { result ≡ length self.now }
    {
        self.blocks.len()
    }
}

/// What a call that is under way holds of a volume: an inode and blocks that are still free, but that no other call
/// may take.
#[derive(Debug, Drop)]
pub struct Hand {
    pub inode: Option<u32>,
    pub blocks: BlockList,
}
