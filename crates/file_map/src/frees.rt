//! Blocks that a call gives up, and perhaps an inode: each group's share of them is freed, one group after the other.
ghost use Rattle.std.specs.Prelude.{◌≡◌, ◌<◌, ◌≤◌, ◌+◌, ◌*◌, ◌∷◌, [], true, IfSome, OnOk, IsErrOf, All};
ghost use Rattle.lufs_base.specs.Layout.{IsGeometry};
ghost use Rattle.volume_model.specs.Format.{group_bytes};
ghost use Rattle.volume_model.specs.Log.{delta_bytes};
ghost use Rattle.sector_disk.specs.Disk.{FailsJustAt};
ghost use Rattle.cyl_groups.specs.Group.{record_of};
ghost use Rattle.meta_store.specs.Store.{IsUnchanged};
ghost use Rattle.meta_store.specs.Changing.{IsKept};
ghost use Rattle.meta_store.specs.declared.error.StoreError.TheVariants.{Disk};
ghost use Rattle.meta_store.specs.Deltas.{group_delta};
ghost use Rattle.meta_draft.specs.Drafted.{with_delta, with_freed};
ghost use Rattle.draft_laws.specs.Freeing.{with_all_freed};
ghost use Rattle.file_map.specs.Freed.{metadata_among, is_block_of, IsInodeOf, GivesBack};

use crate::group_bits::cleared;
use crate::shares::{inode_in, share_of};
use cyl_groups::Group;
use lufs_base::{Geometry, Ino, Mem};
use meta_draft::Draft;
use meta_store::{Freed, MetaRead, StoreError};
use std::alloc::Global;

// Frees one block.
fn free_block(alloc: Global, draft: &mut Draft, freed: Freed) -> Result<(), Mem>
    ensures ok { OnOk result (draft.new.change ≡ with_freed draft.old.change freed) }
    ensures growth { delta_bytes draft.new.change.deltas ≤ delta_bytes draft.old.change.deltas + 16 * metadata_among (freed ∷ []) }
{
    draft.free(alloc, freed)
}

// Frees these blocks, in their order.
fn free_blocks(alloc: Global, draft: &mut Draft, freed: &[Freed]) -> Result<(), Mem>
    ensures ok { OnOk result (draft.new.change ≡ with_all_freed draft.old.change freed.now) }
    ensures growth { delta_bytes draft.new.change.deltas ≤ delta_bytes draft.old.change.deltas + 16 * metadata_among freed.now }
{
    for f in freed {
        free_block(alloc, draft, *f)?;
    }
    Ok(())
}

// Frees these blocks, and then puts the record of their group.
fn put_share(
    alloc: Global,
    draft: &mut Draft,
    g: &Geometry,
    n: u32,
    group: &Group,
    freed: &[Freed],
) -> Result<(), Mem>
    requires geometry { IsGeometry g.now }
    requires inside { n < g.now.groups }
    ensures ok { OnOk result (draft.new.change ≡ with_delta (with_all_freed draft.old.change freed.now) (group_delta g.now n (group_bytes (record_of group.now)))) }
    ensures growth { delta_bytes draft.new.change.deltas ≤ delta_bytes draft.old.change.deltas + (432 + 16 * metadata_among freed.now) }
{
    free_blocks(alloc, draft, freed)?;
    draft.put_group(alloc, g, n, group)
}

/// Frees blocks of group `n`, and perhaps an inode of it. After an `Err` the draft is of no use.
pub(crate) fn free_in_group<S: MetaRead>(
    alloc: Global,
    draft: &mut Draft,
    store: &mut S,
    n: u32,
    inode: Option<Ino>,
    freed: &[Freed],
) -> Result<(), StoreError>
    requires inside { n < (S.store store.old).geometry.groups }
    requires inode { IfSome inode (IsInodeOf (S.store store.old).geometry n) }
    requires blocks { All (λ f. is_block_of (S.store store.old).geometry n f ≡ true) freed.now }
    ensures back { GivesBack (S.store store.old) draft.old.change draft.new.change inode freed.now result }
    ensures taken { OnOk result (draft.new.change.taken ≡ draft.old.change.taken) }
    ensures growth { delta_bytes draft.new.change.deltas ≤ delta_bytes draft.old.change.deltas + (432 + 16 * metadata_among freed.now) }
    ensures unchanged { IsUnchanged (S.store store.old) (S.store store.new) }
    ensures kept { IsKept (S.changing store.old) (S.changing store.new) }
    ensures failure { FailsJustAt (IsErrOf result Disk) (S.store store.old).disk (S.store store.new).disk }
{
    if inode.is_none() && freed.is_empty() {
        return Ok(());
    }
    let g = *store.geometry();
    let Some(group) = draft.group(store, n)? else {
        return Ok(());
    };
    let cleared = cleared(&g, &group, inode, freed);
    put_share(alloc, draft, &g, n, &cleared, freed)?;
    Ok(())
}

/// Frees these blocks, and perhaps an inode. Each is held in the draft, and the volume claimed the blocks when the call
/// began. After an `Err` the draft is of no use.
pub(crate) fn free_all<S: MetaRead>(
    alloc: Global,
    draft: &mut Draft,
    store: &mut S,
    inode: Option<Ino>,
    freed: &[Freed],
) -> Result<(), StoreError>
    requires { IfSome inode (λ i. 2 ≤ i.0) }
    ensures back { GivesBack (S.store store.old) draft.old.change draft.new.change inode freed.now result }
    ensures taken { OnOk result (draft.new.change.taken ≡ draft.old.change.taken) }
    ensures growth { delta_bytes draft.new.change.deltas ≤ delta_bytes draft.old.change.deltas + (432 * (S.store store.old).geometry.groups + 16 * metadata_among freed.now) }
    ensures unchanged { IsUnchanged (S.store store.old) (S.store store.new) }
    ensures kept { IsKept (S.changing store.old) (S.changing store.new) }
    ensures failure { FailsJustAt (IsErrOf result Disk) (S.store store.old).disk (S.store store.new).disk }
{
    let g = *store.geometry();
    for n in 0..g.groups {
        let share = share_of(alloc, &g, n, freed)?;
        free_in_group(alloc, draft, store, n, inode_in(&g, n, inode), &share)?;
    }
    Ok(())
}
