//! An inode that is asked for, if the volume has it.
ghost use Rattle.std.specs.Prelude.{◌≡◌, ◌<◌, option_map, IfSome, IfOk};
ghost use Rattle.volume_model.specs.Format.{block, inodes_of, IsDinode};
ghost use Rattle.volume_model.specs.Sound.{reading_of, used_at, used_inode};
ghost use Rattle.sector_disk.specs.Disk.{CountsFailure};
ghost use Rattle.meta_store.specs.Store.{IsUnchanged};
ghost use Rattle.meta_store.specs.Changing.{IsKept};
ghost use Rattle.meta_draft.specs.Drafted.{drafted};

use lufs_base::{DiskFault, Ino};
use meta_draft::Draft;
use meta_store::MetaRead;
use volume_model::Dinode;

/// Inode `i`, if it is in use.
pub(crate) fn used_inode<S: MetaRead>(
    draft: &Draft,
    store: &mut S,
    i: Ino,
) -> Result<Option<Dinode>, DiskFault>
    ensures value { IfSome (drafted draft.now.change (S.store store.old)).content (λ image. IfOk result (λ found.
        option_map (used_inode (block image)) found ≡ used_at (reading_of (S.store store.old).geometry (block image)) i.0)) }
    ensures inode { IfOk result (λ found. IfSome found (IsDinode (S.store store.old).geometry.version)) }
    ensures inside { IfOk result (λ found. IfSome found (λ d. i.0 < inodes_of (S.store store.old).geometry)) }
    ensures unchanged { IsUnchanged (S.store store.old) (S.store store.new) }
    ensures kept { IsKept (S.changing store.old) (S.changing store.new) }
    ensures failure { CountsFailure result (S.store store.old).disk (S.store store.new).disk }
{
    if !store.geometry().is_inode(i) {
        return Ok(None);
    }
    let found = draft.inode(store, i)?;
    Ok(found)
}
