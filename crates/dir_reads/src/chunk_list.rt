//! The chunks of a directory: how many there are, and the numbers of the blocks that they lie in.
ghost use Rattle.std.specs.Prelude.{◌≡◌, ◌<◌, ◌/◌, min, slice_index, IfSome, IfOk, IsErrOf};
ghost use Rattle.lufs_base.specs.Layout.{blocks_of};
ghost use Rattle.volume_model.specs.Format.{block};
ghost use Rattle.volume_model.specs.Sound.{chunk_at};
ghost use Rattle.sector_disk.specs.Disk.{FailsJustAt};
ghost use Rattle.meta_store.specs.Store.{IsUnchanged};
ghost use Rattle.meta_store.specs.Changing.{IsKept};
ghost use Rattle.meta_draft.specs.Drafted.{drafted};
ghost use Rattle.meta_store.specs.declared.error.StoreError.TheVariants.{Disk};
ghost use Rattle.dir_reads.specs.Chunks.{AreOfBlock};

use crate::window::Window;
use dir_blocks::{Chunk, ChunkError, read_chunk};
use meta_draft::Draft;
use meta_store::{MetaRead, StoreError};
use std::alloc::Global;

/// The bytes of a chunk.
const CHUNK: usize = 512;

/// How many chunks a block has.
pub const CHUNKS: u32 = 8;

/// The most chunks of a directory.
pub const MOST_CHUNKS: u32 = 2048;

/// The chunks of a directory that was opened.
#[derive(Drop)]
pub struct Opened {
    /// How many chunks it has.
    pub count: u32,
    /// The number of the block at each index.
    pub numbers: Vec<u32>,
}

/// How many chunks a directory of so many bytes has, but no more than a directory may have.
pub(crate) fn count_of(size: u64) -> u32
    ensures { result ≡ min (size / 512) 2048 }
{
    (size / CHUNK as u64).min(u64::from(MOST_CHUNKS)) as u32
}

impl Opened {
    /// The number of the block at an index.
    pub fn number_at(&self, index: usize) -> u32
        ensures { result ≡ slice_index self.now.numbers.items index }
    {
        self.numbers.get(index).copied().unwrap_or(0)
    }

    /// Reads chunk `k`, None where it is no chunk.
    pub(crate) fn chunk<S: MetaRead>(
        &self,
        alloc: Global,
        draft: &Draft,
        store: &mut S,
        window: &mut Window,
        k: u32,
    ) -> Result<Option<Chunk>, StoreError>
        requires inside { slice_index self.now.numbers.items (k / 8) < blocks_of (S.store store.old).geometry }
        requires held { AreOfBlock (drafted draft.now.change (S.store store.old)).content window.old.number window.old.bytes }
        ensures value { IfSome (drafted draft.now.change (S.store store.old)).content (λ image. IfOk result (λ chunk. chunk ≡ chunk_at (block image) self.now.numbers.items k)) }
        ensures held { AreOfBlock (drafted draft.now.change (S.store store.old)).content window.new.number window.new.bytes }
        ensures unchanged { IsUnchanged (S.store store.old) (S.store store.new) }
        ensures kept { IsKept (S.changing store.old) (S.changing store.new) }
        ensures failure { FailsJustAt (IsErrOf result Disk) (S.store store.old).disk (S.store store.new).disk }
    {
        let number = self.number_at((k / CHUNKS) as usize);
        if number == 0 {
            return Ok(None);
        }
        window.show(draft, store, number)?;
        let at = CHUNK * (k % CHUNKS) as usize;
        match read_chunk(alloc, &window.bytes[at..at + CHUNK]) {
            Ok(chunk) => Ok(Some(chunk)),
            Err(ChunkError::Bad) => Ok(None),
            Err(ChunkError::Mem) => Err(StoreError::Mem),
        }
    }
}
