//! The block numbers of an inode, by index.
ghost use Rattle.std.specs.Prelude.{◌≡◌, ◌<◌, ℕ, slice_index, IfSome, IfOk, IsErrOf};
ghost use Rattle.lufs_base.specs.Layout.{IsGeometry, blocks_of};
ghost use Rattle.volume_model.specs.Format.{block, pointers_of};
ghost use Rattle.volume_model.specs.Sound.{numbers_of};
ghost use Rattle.sector_disk.specs.Disk.{FailsJustAt};
ghost use Rattle.meta_store.specs.Store.{IsUnchanged};
ghost use Rattle.meta_store.specs.Changing.{IsKept};
ghost use Rattle.meta_draft.specs.Drafted.{drafted};
ghost use Rattle.meta_store.specs.declared.error.StoreError.TheVariants.{Disk};
ghost use Rattle.block_numbers.specs.Needed.{needs_pointers};

use indirect_blocks::{Pointers, read_pointers};
use lufs_base::{BLOCK, BlockNo, Geometry};
use meta_draft::Draft;
use meta_store::{MetaRead, StoreError};
use std::alloc::Global;
use volume_model::Dinode;

/// Direct numbers of an inode.
const DIRECT: u64 = 12;

// The numbers of the pointer block of this number.
fn read_pointer_block<S: MetaRead>(
    alloc: Global,
    draft: &Draft,
    store: &mut S,
    number: u32,
) -> Result<Pointers, StoreError>
    requires inside { number < blocks_of (S.store store.old).geometry }
    ensures numbers { IfSome (drafted draft.now.change (S.store store.old)).content (λ image. IfOk result (λ pointers. pointers ≡ pointers_of (block image number))) }
    ensures unchanged { IsUnchanged (S.store store.old) (S.store store.new) }
    ensures kept { IsKept (S.changing store.old) (S.changing store.new) }
    ensures failure { FailsJustAt (IsErrOf result Disk) (S.store store.old).disk (S.store store.new).disk }
{
    let mut bytes = [0; BLOCK];
    draft.block(store, BlockNo(number), &mut bytes)?;
    let pointers = read_pointers(alloc, &bytes)?;
    Ok(pointers)
}

// Whether the pointer block is needed for so many numbers, and is a block of the volume.
fn needs_pointers(g: &Geometry, d: &Dinode, count: u64) -> bool
    requires { IsGeometry g.now }
    ensures { result ≡ needs_pointers (blocks_of g.now) d.now count }
{
    count > DIRECT && d.indirect[0] != 0 && d.indirect[0] < g.total()
}

/// The number of the block at each index below `count`, 0 for none. The pointer block is read only where such an index
/// needs it. Where its number isn't one of a block of the volume, it has no numbers. It answers `Disk` exactly where a
/// read failed.
pub fn read_numbers<S: MetaRead>(
    alloc: Global,
    draft: &Draft,
    store: &mut S,
    d: &Dinode,
    count: u64,
) -> Result<Vec<u32>, StoreError>
    ensures numbers { IfSome (drafted draft.now.change (S.store store.old)).content (λ image. slice_index d.now.indirect 0 < blocks_of (S.store store.old).geometry
        → IfOk result (λ numbers. (k : ℕ) → k < count → slice_index numbers.items k ≡ slice_index (numbers_of (block image) d.now) k)) }
    ensures unchanged { IsUnchanged (S.store store.old) (S.store store.new) }
    ensures kept { IsKept (S.changing store.old) (S.changing store.new) }
    ensures failure { FailsJustAt (IsErrOf result Disk) (S.store store.old).disk (S.store store.new).disk }
{
    let mut numbers = Vec::from_slice(alloc, &d.direct)?;
    if !needs_pointers(store.geometry(), d, count) {
        return Ok(numbers);
    }
    let pointers = read_pointer_block(alloc, draft, store, d.indirect[0])?;
    numbers.extend_from_slice(pointers.as_slice())?;
    Ok(numbers)
}
