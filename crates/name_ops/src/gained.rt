//! Inodes that get a name more, in a draft.
ghost use Rattle.std.specs.Prelude.{◌≡◌, ◌≤◌, ◌+◌, OnOk, IsErrOf};
ghost use Rattle.volume_model.specs.Log.{delta_bytes};
ghost use Rattle.sector_disk.specs.Disk.{FailsJustAt};
ghost use Rattle.meta_store.specs.Store.{IsUnchanged};
ghost use Rattle.meta_store.specs.Changing.{IsKept};
ghost use Rattle.meta_store.specs.declared.error.StoreError.TheVariants.{Disk};
ghost use Rattle.dir_ops.specs.Edits.{PutsDeltas};
ghost use Rattle.name_ops.specs.GainedNames.{GainsLink};

use lufs_base::Ino;
use meta_draft::Draft;
use meta_store::{MetaRead, StoreError};
use std::alloc::Global;

/// Adds one link to the record of inode `i`, if it has room for one. One that isn't in use stays so. After an `Err` the
/// draft is of no use.
pub(crate) fn gain_link<S: MetaRead>(
    alloc: Global,
    draft: &mut Draft,
    store: &mut S,
    i: Ino,
) -> Result<(), StoreError>
    ensures drawn { GainsLink (S.store store.old) draft.old.change draft.new.change i.0 result }
    ensures rest { OnOk result (PutsDeltas draft.old.change draft.new.change) }
    ensures growth { delta_bytes draft.new.change.deltas ≤ delta_bytes draft.old.change.deltas + 144 }
    ensures unchanged { IsUnchanged (S.store store.old) (S.store store.new) }
    ensures kept { IsKept (S.changing store.old) (S.changing store.new) }
    ensures failure { FailsJustAt (IsErrOf result Disk) (S.store store.old).disk (S.store store.new).disk }
{
    let g = *store.geometry();
    if !g.is_inode(i) {
        return Ok(());
    }
    let Some(mut d) = draft.inode(store, i)? else {
        return Ok(());
    };
    if d.links == u16::MAX {
        return Ok(());
    }
    d.links += 1;
    draft.put_inode(alloc, &g, i, Some(&d))?;
    Ok(())
}
