//! The block numbers of a directory, by index.
ghost use Rattle.std.specs.Prelude.{◌≡◌, ◌<◌, ℕ, nat_lt, slice_index, IfSome, IfOk, IsErrOf};
ghost use Rattle.std.specs.List.{list_all};
ghost use Rattle.lufs_base.specs.Layout.{blocks_of};
ghost use Rattle.volume_model.specs.Format.{block};
ghost use Rattle.volume_model.specs.Sound.{numbers_of};
ghost use Rattle.sector_disk.specs.Disk.{FailsJustAt};
ghost use Rattle.meta_store.specs.Store.{IsUnchanged};
ghost use Rattle.meta_store.specs.Changing.{IsKept};
ghost use Rattle.meta_draft.specs.Drafted.{drafted};
ghost use Rattle.meta_store.specs.declared.error.StoreError.TheVariants.{Disk};

use meta_draft::Draft;
use meta_store::{MetaRead, StoreError};
use std::alloc::Global;
use volume_model::Dinode;

/// The number of the block at each index, 0 for none. Where the number of the pointer block isn't one of a block of
/// the volume, the direct ones alone.
pub(crate) fn read_numbers<S: MetaRead>(
    alloc: Global,
    draft: &Draft,
    store: &mut S,
    d: Dinode,
) -> Result<Vec<u32>, StoreError>
    ensures numbers { IfSome (drafted draft.now.change (S.store store.old)).content (λ image. slice_index d.indirect 0 < blocks_of (S.store store.old).geometry
        → IfOk result (λ numbers. (k : ℕ) → slice_index numbers.items k ≡ slice_index (numbers_of (block image) d) k)) }
    ensures unchanged { IsUnchanged (S.store store.old) (S.store store.new) }
    ensures kept { IsKept (S.changing store.old) (S.changing store.new) }
    ensures failure { FailsJustAt (IsErrOf result Disk) (S.store store.old).disk (S.store store.new).disk }
{
    let numbers = block_numbers::read_numbers(alloc, draft, store, &d, u64::MAX)?;
    Ok(numbers)
}

/// Whether each number is one of so many blocks.
pub(crate) fn are_inside(total: u32, numbers: &[u32]) -> bool
    ensures { result ≡ list_all (λ n. nat_lt n total) numbers.now }
{
    numbers.iter().all(|number| *number < total)
}
