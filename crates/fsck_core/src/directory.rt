//! The slots of a directory, read from a store.
ghost use Rattle.std.specs.Prelude.{◌≡◌, ◌≤◌, ◌<◌, ℕ, ◌+◌, ◌*◌, ◌/◌, map, take, drop, length, slice_index, option_map, IfOk, IfSome, IsErrOf};
ghost use Rattle.lufs_base.specs.Layout.{blocks_of};
ghost use Rattle.volume_model.specs.Format.{block};
ghost use Rattle.sector_disk.specs.Disk.{FailsJustAt};
ghost use Rattle.meta_store.specs.Store.{IsUnchanged};
ghost use Rattle.meta_store.specs.declared.error.StoreError.TheVariants.{Disk};
ghost use Rattle.fsck_core.specs.Slots.{slot_of, chunks_in, AreSlots};

use crate::entries::{Entry, push_chunk};
use lufs_base::{BLOCK, BlockNo, Mem};
use meta_store::{MetaRead, StoreError};
use std::alloc::Global;
use volume_model::Dinode;

// The bytes of a chunk.
const CHUNK: usize = 512;

/// The bytes of the blocks of a directory. Each of its blocks is read once, through `buffer`.
pub(crate) fn read_blocks<S: MetaRead>(
    alloc: Global,
    store: &mut S,
    d: &Dinode,
    numbers: &[u32],
    buffer: &mut [u8],
) -> Result<Vec<u8>, StoreError>
    requires size { d.now.size ≤ 4096 * 256 }
    requires numbers { (d.now.size + 4095) / 4096 ≤ length numbers.now }
    requires inside { (k : ℕ) → k < (d.now.size + 4095) / 4096 → (0 < slice_index numbers.now k) × (slice_index numbers.now k < blocks_of (S.store store.old).geometry) }
    requires buffer { length buffer.old ≡ 4096 }
    ensures size { IfOk result (λ bytes. length bytes.items ≡ 4096 * ((d.now.size + 4095) / 4096)) }
    ensures bytes { IfSome (S.store store.old).content (λ image. IfOk result (λ bytes.
        (k : ℕ) → k < (d.now.size + 4095) / 4096 → take 4096 (drop (4096 * k) bytes.items) ≡ block image (slice_index numbers.now k))) }
    ensures buffer { length buffer.new ≡ 4096 }
    ensures unchanged { IsUnchanged (S.store store.old) (S.store store.new) }
    ensures failure { FailsJustAt (IsErrOf result Disk) (S.store store.old).disk (S.store store.new).disk }
{
    let count = ((d.size + 4095) / 4096) as usize;
    let mut bytes = Vec::with_capacity(alloc, BLOCK * count)?;
    for k in 0..count {
        store.block(BlockNo(numbers[k]), buffer)?;
        bytes.extend_from_slice(buffer)?;
    }
    Ok(bytes)
}

/// The slots in so many chunks at the front of these blocks, in the order of the chunks, or None where one of these is
/// no chunk.
pub(crate) fn entries_in<'a>(
    alloc: Global,
    bytes: &'a [u8],
    chunks: usize,
) -> Result<Option<Vec<Entry<'a>>>, Mem>
    requires { 512 * chunks ≤ length bytes.now }
    ensures { IfOk result (λ found. AreSlots (chunks_in bytes.now chunks) (option_map (λ v. map slot_of v.items) found)) }
{
    let mut entries = Vec::new(alloc);
    for k in 0..chunks {
        let at = CHUNK * k;
        if !push_chunk(&bytes[at..at + CHUNK], &mut entries)? {
            return Ok(None);
        }
    }
    Ok(Some(entries))
}
