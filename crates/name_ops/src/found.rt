//! What a store says of the inode that a walk found.
ghost use Rattle.std.specs.Prelude.{◌≡◌, List, IfSome, IfOk, IsErrOf};
ghost use Rattle.volume_model.specs.declared.hand.Hand.{Hand};
ghost use Rattle.volume_model.specs.Format.{block};
ghost use Rattle.volume_model.specs.Sound.{Tree, StandsFor};
ghost use Rattle.sector_disk.specs.Disk.{FailsJustAt, CountsFailure};
ghost use Rattle.history_model.specs.Places.{is_directory_in};
ghost use Rattle.history_model.specs.Refusals.{is_empty_in};
ghost use Rattle.meta_store.specs.Store.{IsUnchanged};
ghost use Rattle.meta_store.specs.Changing.{IsKept};
ghost use Rattle.meta_store.specs.declared.error.StoreError.TheVariants.{Disk};

use dir_reads::is_empty;
use inode_reads::{is_directory, read_inode};
use lufs_base::{DiskFault, Ino};
use meta_draft::Draft;
use meta_store::{MetaRead, StoreError};
use std::alloc::Global;

/// Whether inode `i` is a directory.
pub(crate) fn is_directory_at<S: MetaRead>(
    alloc: Global,
    store: &mut S,
    i: Ino,
) -> Result<bool, DiskFault>
    ensures value { (tree : Tree) (hands : List Hand) → IfSome (S.store store.old).content (λ image. StandsFor (S.store store.old).geometry (block image) tree hands
        → IfOk result (λ is. is ≡ is_directory_in tree i.0)) }
    ensures unchanged { IsUnchanged (S.store store.old) (S.store store.new) }
    ensures kept { IsKept (S.changing store.old) (S.changing store.new) }
    ensures failure { CountsFailure result (S.store store.old).disk (S.store store.new).disk }
{
    let Some(d) = read_inode(alloc, store, i)? else {
        return Ok(false);
    };
    Ok(is_directory(&d))
}

/// Whether inode `i` names nothing besides itself and the one above it.
pub(crate) fn is_empty_at<S: MetaRead>(
    alloc: Global,
    store: &mut S,
    i: Ino,
) -> Result<bool, StoreError>
    ensures value { (tree : Tree) (hands : List Hand) → IfSome (S.store store.old).content (λ image. StandsFor (S.store store.old).geometry (block image) tree hands
        → IfOk result (λ empty. empty ≡ is_empty_in tree i.0)) }
    ensures unchanged { IsUnchanged (S.store store.old) (S.store store.new) }
    ensures kept { IsKept (S.changing store.old) (S.changing store.new) }
    ensures failure { FailsJustAt (IsErrOf result Disk) (S.store store.old).disk (S.store store.new).disk }
{
    let empty = is_empty(alloc, &Draft::new(alloc), store, i)?;
    Ok(empty)
}
