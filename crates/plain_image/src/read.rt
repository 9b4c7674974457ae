//! The image of a volume, read from a store.
ghost use Rattle.std.specs.Prelude.{◌≡◌, ◌<◌, ◌*◌, ℕ, length, IfSome, IfOk, OnOk, IsErrOf};
ghost use Rattle.lufs_base.specs.Layout.{blocks_of};
ghost use Rattle.volume_model.specs.Format.{block};
ghost use Rattle.sector_disk.specs.Disk.{FailsJustAt};
ghost use Rattle.meta_store.specs.Store.{IsUnchanged};
ghost use Rattle.meta_store.specs.Changing.{IsKept};
ghost use Rattle.meta_store.specs.declared.error.StoreError.TheVariants.{Disk};

use lufs_base::{BLOCK, BlockNo};
use meta_store::{MetaRead, StoreError};
use std::alloc::Global;

/// The blocks of the volume, one after the other.
///
/// # Errors
///
/// `Disk` exactly where a call of the disk under the store failed, and `Mem` where memory ran out.
pub fn read_image<S: MetaRead>(alloc: Global, store: &mut S) -> Result<Vec<u8>, StoreError>
    ensures size { IfOk result (λ read. length read.items ≡ 4096 * blocks_of (S.store store.old).geometry) }
    ensures blocks { IfOk result (λ read. IfSome (S.store store.old).content (λ image.
        (b : ℕ) → b < blocks_of (S.store store.old).geometry → block read.items b ≡ block image b)) }
    ensures unchanged { IsUnchanged (S.store store.old) (S.store store.new) }
    ensures kept { IsKept (S.changing store.old) (S.changing store.new) }
    ensures failure { FailsJustAt (IsErrOf result StoreError.Disk) (S.store store.old).disk (S.store store.new).disk }
{
    let total = store.geometry().total();
    let mut read = Vec::with_capacity(alloc, BLOCK * total as usize)?;
    let mut bytes = [0; BLOCK];
    for b in 0..total {
        store.block(BlockNo(b), &mut bytes)?;
        read.extend_from_slice(&bytes)?;
    }
    Ok(read)
}
