//! Blocks that a file gets.
ghost use Rattle.std.specs.Prelude.{◌≡◌, ◌≢◌, ◌≤◌, ◌<◌, ◌+◌, ◌/◌, ◌∷◌, [], length, OnOk, IfSome, IfNone, IsErrOf};
ghost use Rattle.lufs_base.specs.Layout.{IsGeometry, inode_address};
ghost use Rattle.volume_model.specs.Format.{inodes_of};
ghost use Rattle.volume_model.specs.Log.{delta_bytes};
ghost use Rattle.sector_disk.specs.Disk.{FailsJustAt};
ghost use Rattle.meta_store.specs.Store.{IsUnchanged};
ghost use Rattle.meta_store.specs.Changing.{IsKept};
ghost use Rattle.meta_store.specs.Changes.{numbers_in};
ghost use Rattle.meta_store.specs.declared.error.StoreError.TheVariants.{Disk};
ghost use Rattle.file_map.specs.Attached.{with_one_more, with_direct, with_pointers, with_block_put, with_entry_put, with_pointers_put, PutsBlock, AttachesBlock, AttachesPointers, LeavesAllBut, IsAttached};

use crate::inode_lookup::used_inode;
use indirect_blocks::{Place, place_of};
use lufs_base::{BlockNo, Geometry, Ino, Mem};
use meta_draft::Draft;
use meta_store::{MetaRead, StoreError};
use std::alloc::Global;
use volume_model::Dinode;

// The one block, if there is just one.
fn one_of(pointers: &[BlockNo]) -> Option<BlockNo>
    ensures some { IfSome result (λ p. pointers.now ≡ p ∷ []) }
    ensures none { IfNone result (length pointers.now ≢ 1) }
{
    match pointers {
        [p] => Some(*p),
        _ => None,
    }
}

// The record with one block more.
fn with_one_more(d: &Dinode) -> Dinode
    ensures { result ≡ with_one_more d.now }
{
    let mut new = *d;
    new.blocks = d.blocks.saturating_add(1);
    new
}

// The same with block `b` at a direct index.
fn with_direct(d: &Dinode, index: u32, b: BlockNo) -> Dinode
    requires { index < 12 }
    ensures { result ≡ with_direct d.now index b.0 }
{
    let mut new = with_one_more(d);
    new.direct[index as usize] = b.0;
    new
}

// The same with pointer block `p`.
fn with_pointers(d: &Dinode, p: BlockNo) -> Dinode
    ensures { result ≡ with_pointers d.now p.0 }
{
    let mut new = with_one_more(d);
    new.indirect[0] = p.0;
    new
}

// Puts block `b` at a direct index of inode `i`, which has this record.
fn put_direct(
    alloc: Global,
    draft: &mut Draft,
    g: &Geometry,
    i: Ino,
    d: &Dinode,
    index: u32,
    b: BlockNo,
) -> Result<(), Mem>
    requires geometry { IsGeometry g.now }
    requires inside { i.0 < inodes_of g.now }
    requires index { index < 12 }
    ensures ok { OnOk result (draft.new.change ≡ with_block_put g.now draft.old.change i.0 d.now index b.0) }
    ensures growth { delta_bytes draft.new.change.deltas ≤ delta_bytes draft.old.change.deltas + 144 }
{
    let new = with_direct(d, index, b);
    draft.put_inode(alloc, g, i, Some(&new))
}

// Puts block `b` into an entry of the pointer block of inode `i`.
fn put_entry(
    alloc: Global,
    draft: &mut Draft,
    g: &Geometry,
    i: Ino,
    d: &Dinode,
    entry: u32,
    b: BlockNo,
) -> Result<(), Mem>
    requires geometry { IsGeometry g.now }
    requires inside { i.0 < inodes_of g.now }
    requires entry { entry < 1024 }
    ensures ok { OnOk result (draft.new.change ≡ with_entry_put g.now draft.old.change i.0 d.now entry b.0) }
    ensures growth { delta_bytes draft.new.change.deltas ≤ delta_bytes draft.old.change.deltas + 164 }
{
    draft.put_pointers(alloc, BlockNo(d.indirect[0]), entry, &[b.0])?;
    let new = with_one_more(d);
    draft.put_inode(alloc, g, i, Some(&new))
}

// Puts block `b` at an index of inode `i`, if its record has a place for the number.
fn put_block(
    alloc: Global,
    draft: &mut Draft,
    g: &Geometry,
    i: Ino,
    d: &Dinode,
    index: u32,
    b: BlockNo,
) -> Result<(), Mem>
    requires geometry { IsGeometry g.now }
    requires inside { i.0 < inodes_of g.now }
    ensures ok { OnOk result (PutsBlock g.now draft.old.change draft.new.change i.0 d.now index b.0) }
    ensures growth { delta_bytes draft.new.change.deltas ≤ delta_bytes draft.old.change.deltas + 164 }
{
    match place_of(index) {
        Place::Direct(k) => put_direct(alloc, draft, g, i, d, k, b),
        Place::Single(entry) if d.indirect[0] != 0 => put_entry(alloc, draft, g, i, d, entry, b),
        _ => Ok(()),
    }
}

// Puts pointer block `p`, without numbers, into inode `i`.
fn put_pointers(
    alloc: Global,
    draft: &mut Draft,
    g: &Geometry,
    i: Ino,
    d: &Dinode,
    p: BlockNo,
) -> Result<(), Mem>
    requires geometry { IsGeometry g.now }
    requires inside { i.0 < inodes_of g.now }
    ensures ok { OnOk result (draft.new.change ≡ with_pointers_put g.now draft.old.change i.0 d.now p.0) }
    ensures growth { delta_bytes draft.new.change.deltas ≤ delta_bytes draft.old.change.deltas + 160 }
{
    draft.put_zeros(alloc, p)?;
    let new = with_pointers(d, p);
    draft.put_inode(alloc, g, i, Some(&new))
}

// Block `b` of a hand becomes that of file `i` at an index where it has a hole and a place for the number.
fn attach_block<S: MetaRead>(
    alloc: Global,
    draft: &mut Draft,
    store: &mut S,
    i: Ino,
    index: u32,
    b: BlockNo,
) -> Result<(), StoreError>
    ensures drawn { OnOk result (AttachesBlock (S.store store.old) draft.old.change draft.new.change i.0 index b.0) }
    ensures growth { delta_bytes draft.new.change.deltas ≤ delta_bytes draft.old.change.deltas + 164 }
    ensures unchanged { IsUnchanged (S.store store.old) (S.store store.new) }
    ensures kept { IsKept (S.changing store.old) (S.changing store.new) }
    ensures failure { FailsJustAt (IsErrOf result Disk) (S.store store.old).disk (S.store store.new).disk }
{
    let Some(d) = used_inode(draft, store, i)? else {
        return Ok(());
    };
    let g = *store.geometry();
    put_block(alloc, draft, &g, i, &d, index, b)?;
    Ok(())
}

// Block `p` of a hand becomes the pointer block of file `i`, which has none and whose size needs it.
fn attach_pointers<S: MetaRead>(
    alloc: Global,
    draft: &mut Draft,
    store: &mut S,
    i: Ino,
    p: BlockNo,
) -> Result<(), StoreError>
    ensures drawn { OnOk result (AttachesPointers (S.store store.old) draft.old.change draft.new.change i.0 p.0) }
    ensures others { OnOk result (LeavesAllBut p.0 (inode_address (S.store store.old).geometry i.0 / 4096) draft.old.change draft.new.change) }
    ensures growth { delta_bytes draft.new.change.deltas ≤ delta_bytes draft.old.change.deltas + 160 }
    ensures unchanged { IsUnchanged (S.store store.old) (S.store store.new) }
    ensures kept { IsKept (S.changing store.old) (S.changing store.new) }
    ensures failure { FailsJustAt (IsErrOf result Disk) (S.store store.old).disk (S.store store.new).disk }
{
    let Some(d) = used_inode(draft, store, i)? else {
        return Ok(());
    };
    let g = *store.geometry();
    put_pointers(alloc, draft, &g, i, &d, p)?;
    Ok(())
}

/// Block `b` of a hand becomes that of file `i` at an index below its size where it has a hole. `pointers` has the
/// pointer block that the file lacks for this index, if it lacks one. What is no inode in use, and an inode without a
/// place for the number, stay as they are. It answers `Disk` exactly where a read failed; after an `Err` the draft is
/// of no use.
pub fn attach<S: MetaRead>(
    alloc: Global,
    draft: &mut Draft,
    store: &mut S,
    i: Ino,
    index: u32,
    b: BlockNo,
    pointers: &[BlockNo],
) -> Result<(), StoreError>
    ensures drawn { OnOk result (IsAttached (S.store store.old) draft.old.change draft.new.change i.0 index b.0 (numbers_in pointers.now)) }
    ensures growth { delta_bytes draft.new.change.deltas ≤ delta_bytes draft.old.change.deltas + 324 }
    ensures unchanged { IsUnchanged (S.store store.old) (S.store store.new) }
    ensures kept { IsKept (S.changing store.old) (S.changing store.new) }
    ensures failure { FailsJustAt (IsErrOf result Disk) (S.store store.old).disk (S.store store.new).disk }
{
    let Some(p) = one_of(pointers) else {
        return attach_block(alloc, draft, store, i, index, b);
    };
    attach_pointers(alloc, draft, store, i, p)?;
    attach_block(alloc, draft, store, i, index, b)
}
