//! Inodes that lose a name, in a draft.
ghost use Rattle.std.specs.Prelude.{◌≡◌, ◌≢◌, ◌≤◌, ◌+◌, ◌*◌, OnOk, IsErrOf};
ghost use Rattle.volume_model.specs.Log.{delta_bytes};
ghost use Rattle.sector_disk.specs.Disk.{FailsJustAt};
ghost use Rattle.meta_store.specs.Store.{IsUnchanged};
ghost use Rattle.meta_store.specs.Changing.{IsKept};
ghost use Rattle.meta_store.specs.declared.error.StoreError.TheVariants.{Disk};
ghost use Rattle.file_map.specs.Dropped.{IsDropped};
ghost use Rattle.name_ops.specs.LostNames.{LosesLink};

use file_map::drop_inode;
use lufs_base::Ino;
use meta_draft::Draft;
use meta_store::{MetaRead, StoreError};
use std::alloc::Global;

/// Takes one link from the record of inode `i`. One that isn't in use stays so. After an `Err` the draft is of no use.
pub(crate) fn lose_link<S: MetaRead>(
    alloc: Global,
    draft: &mut Draft,
    store: &mut S,
    i: Ino,
) -> Result<(), StoreError>
    ensures drawn { LosesLink (S.store store.old) draft.old.change draft.new.change i.0 result }
    ensures taken { OnOk result (draft.new.change.taken ≡ draft.old.change.taken) }
    ensures growth { delta_bytes draft.new.change.deltas ≤ delta_bytes draft.old.change.deltas + 144 }
    ensures unchanged { IsUnchanged (S.store store.old) (S.store store.new) }
    ensures kept { IsKept (S.changing store.old) (S.changing store.new) }
    ensures failure { FailsJustAt (IsErrOf result Disk) (S.store store.old).disk (S.store store.new).disk }
{
    let g = *store.geometry();
    if !g.is_inode(i) {
        return Ok(());
    }
    let Some(mut d) = draft.inode(store, i)? else {
        return Ok(());
    };
    d.links = d.links.saturating_sub(1);
    draft.put_inode(alloc, &g, i, Some(&d))?;
    Ok(())
}

/// What becomes of inode `i`, which had so many links before it lost a name: it goes with its last one. After an `Err`
/// the draft is of no use.
pub(crate) fn lose_name<S: MetaRead>(
    alloc: Global,
    draft: &mut Draft,
    store: &mut S,
    i: Ino,
    links: u16,
) -> Result<(), StoreError>
    ensures dropped { links ≡ 1 → IsDropped (S.store store.old) draft.old.change draft.new.change i.0 result }
    ensures kept_link { links ≢ 1 → LosesLink (S.store store.old) draft.old.change draft.new.change i.0 result }
    ensures taken { OnOk result (draft.new.change.taken ≡ draft.old.change.taken) }
    ensures growth { delta_bytes draft.new.change.deltas ≤ delta_bytes draft.old.change.deltas + (4256 + 432 * (S.store store.old).geometry.groups) }
    ensures unchanged { IsUnchanged (S.store store.old) (S.store store.new) }
    ensures kept { IsKept (S.changing store.old) (S.changing store.new) }
    ensures failure { FailsJustAt (IsErrOf result Disk) (S.store store.old).disk (S.store store.new).disk }
{
    if links == 1 {
        return drop_inode(alloc, draft, store, i);
    }
    lose_link(alloc, draft, store, i)
}
