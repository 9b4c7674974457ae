//! Names of a directory that lead to another inode, or are removed.
ghost use Rattle.std.specs.Prelude.{◌≡◌, ◌≢◌, ◌<◌, ◌≤◌, ◌+◌, ℕ, true, slice_index, option_map, IfSome, OnOk, IsErrOf};
ghost use Rattle.lufs_base.specs.Layout.{blocks_of};
ghost use Rattle.volume_model.specs.Format.{IsUsed};
ghost use Rattle.volume_model.specs.Log.{delta_bytes};
ghost use Rattle.volume_model.specs.Sound.{dot_dot};
ghost use Rattle.sector_disk.specs.Disk.{FailsJustAt};
ghost use Rattle.history_model.specs.Edits.{TakeOut, Point, SetParent, edited};
ghost use Rattle.meta_store.specs.Store.{IsUnchanged};
ghost use Rattle.meta_store.specs.Changing.{IsKept};
ghost use Rattle.meta_store.specs.declared.error.StoreError.TheVariants.{Disk};
ghost use Rattle.dir_reads.specs.Directories.{serves};
ghost use Rattle.dir_ops.specs.Slots.{PutsSlot};
ghost use Rattle.dir_reads.specs.declared.directory.Wanted.TheVariants.{Named};
ghost use Rattle.dir_ops.specs.Opened.{IsEditedAt};
ghost use Rattle.dir_ops.specs.Edits.{IsEdited, PutsDeltas, slot_changed, with_slot_changed};

use crate::chunk_put::put_chunk;
use dir_blocks::Chunk;
use dir_reads::{Directory, Found, Wanted};
use lufs_base::{Ino, Mem, Name};
use meta_draft::Draft;
use meta_store::{MetaRead, StoreError};
use std::alloc::Global;

// Lets the slot at this place name another inode, or removes it.
fn change_at(chunk: &mut Chunk, place: usize, to: Option<Ino>)
    requires used { IsUsed chunk.old place }
    requires number { IfSome to (λ i. i.0 ≢ 0) }
    ensures { chunk.new ≡ slot_changed (option_map (λ i. i.0) to) chunk.old place }
{
    match to {
        Some(i) => chunk.set(place, i),
        None => chunk.take_out(place),
    }
}

// Changes the first slot with the name in a chunk that was found.
fn change_in(
    alloc: Global,
    draft: &mut Draft,
    directory: &Directory,
    found: Found,
    name: &Name,
    to: Option<Ino>,
) -> Result<(), Mem>
    requires number { IfSome to (λ i. i.0 ≢ 0) }
    ensures ok { OnOk result (PutsSlot directory.now found name.now (option_map (λ i. i.0) to) draft.old.change draft.new.change) }
    ensures rest { OnOk result (PutsDeltas draft.old.change draft.new.change) }
    ensures growth { delta_bytes draft.new.change.deltas ≤ delta_bytes draft.old.change.deltas + 528 }
{
    let mut chunk = found.chunk;
    if let Some(place) = chunk.find(name) {
        change_at(&mut chunk, place, to);
        put_chunk(alloc, draft, directory, found.place, &chunk)?;
    }
    Ok(())
}

// Changes the first slot with the name in a directory that was opened.
fn change_in_directory<S: MetaRead>(
    alloc: Global,
    draft: &mut Draft,
    store: &mut S,
    directory: &Directory,
    name: &Name,
    to: Option<Ino>,
) -> Result<(), StoreError>
    requires number { IfSome to (λ i. i.0 ≢ 0) }
    requires inside { (k : ℕ) → slice_index directory.now.opened.numbers.items k < blocks_of (S.store store.old).geometry }
    ensures drawn { IsEditedAt (S.store store.old).content (S.store store.old).geometry draft.old.change draft.new.change directory.now (λ i. with_slot_changed i name.now (option_map (λ i. i.0) to)) result }
    ensures rest { OnOk result (PutsDeltas draft.old.change draft.new.change) }
    ensures growth { delta_bytes draft.new.change.deltas ≤ delta_bytes draft.old.change.deltas + 528 }
    ensures unchanged { IsUnchanged (S.store store.old) (S.store store.new) }
    ensures kept { IsKept (S.changing store.old) (S.changing store.new) }
    ensures failure { FailsJustAt (IsErrOf result Disk) (S.store store.old).disk (S.store store.new).disk }
{
    let Some(found) = directory.find(alloc, draft, store, Wanted::Named, name)? else {
        return Ok(());
    };
    change_in(alloc, draft, directory, found, name, to)?;
    Ok(())
}

// Changes the first slot with the name in directory `dir`.
fn change_slot<S: MetaRead>(
    alloc: Global,
    draft: &mut Draft,
    store: &mut S,
    dir: Ino,
    name: &Name,
    to: Option<Ino>,
) -> Result<(), StoreError>
    requires number { IfSome to (λ i. i.0 ≢ 0) }
    ensures drawn { IsEdited (S.store store.old) draft.old.change draft.new.change dir.0 (with_slot_changed dir.0 name.now (option_map (λ i. i.0) to)) result }
    ensures rest { OnOk result (PutsDeltas draft.old.change draft.new.change) }
    ensures growth { delta_bytes draft.new.change.deltas ≤ delta_bytes draft.old.change.deltas + 528 }
    ensures unchanged { IsUnchanged (S.store store.old) (S.store store.new) }
    ensures kept { IsKept (S.changing store.old) (S.changing store.new) }
    ensures failure { FailsJustAt (IsErrOf result Disk) (S.store store.old).disk (S.store store.new).disk }
{
    match Directory::open(alloc, draft, store, dir)? {
        Some(directory) => change_in_directory(alloc, draft, store, &directory, name, to),
        None => Ok(()),
    }
}

/// Lets the name in directory `dir` lead to inode `i`, from 1 on. A name that isn't there, or a `dir` that is no
/// directory, changes nothing. After an `Err` the draft is of no use.
pub fn replace<S: MetaRead>(
    alloc: Global,
    draft: &mut Draft,
    store: &mut S,
    dir: Ino,
    name: &Name,
    i: Ino,
) -> Result<(), StoreError>
    ensures drawn { i.0 ≢ 0 → IsEdited (S.store store.old) draft.old.change draft.new.change dir.0 (edited (Point dir.0 name.now i.0)) result }
    ensures rest { OnOk result (PutsDeltas draft.old.change draft.new.change) }
    ensures growth { delta_bytes draft.new.change.deltas ≤ delta_bytes draft.old.change.deltas + 528 }
    ensures unchanged { IsUnchanged (S.store store.old) (S.store store.new) }
    ensures kept { IsKept (S.changing store.old) (S.changing store.new) }
    ensures failure { FailsJustAt (IsErrOf result Disk) (S.store store.old).disk (S.store store.new).disk }
{
    if i.0 == 0 {
        return Ok(());
    }
    change_slot(alloc, draft, store, dir, name, Some(i))
}

/// Removes the name from directory `dir`. A name that isn't there, or a `dir` that is no directory, changes nothing.
/// After an `Err` the draft is of no use.
pub fn remove<S: MetaRead>(
    alloc: Global,
    draft: &mut Draft,
    store: &mut S,
    dir: Ino,
    name: &Name,
) -> Result<(), StoreError>
    ensures drawn { IsEdited (S.store store.old) draft.old.change draft.new.change dir.0 (edited (TakeOut dir.0 name.now)) result }
    ensures rest { OnOk result (PutsDeltas draft.old.change draft.new.change) }
    ensures growth { delta_bytes draft.new.change.deltas ≤ delta_bytes draft.old.change.deltas + 528 }
    ensures unchanged { IsUnchanged (S.store store.old) (S.store store.new) }
    ensures kept { IsKept (S.changing store.old) (S.changing store.new) }
    ensures failure { FailsJustAt (IsErrOf result Disk) (S.store store.old).disk (S.store store.new).disk }
{
    change_slot(alloc, draft, store, dir, name, None)
}

/// Lets directory `dir` have directory `parent`, from 1 on, above it. After an `Err` the draft is of no use.
pub fn set_parent<S: MetaRead>(
    alloc: Global,
    draft: &mut Draft,
    store: &mut S,
    dir: Ino,
    parent: Ino,
) -> Result<(), StoreError>
    ensures drawn { parent.0 ≢ 0 → IsEdited (S.store store.old) draft.old.change draft.new.change dir.0 (edited (SetParent dir.0 parent.0)) result }
    ensures rest { OnOk result (PutsDeltas draft.old.change draft.new.change) }
    ensures growth { delta_bytes draft.new.change.deltas ≤ delta_bytes draft.old.change.deltas + 528 }
    ensures unchanged { IsUnchanged (S.store store.old) (S.store store.new) }
    ensures kept { IsKept (S.changing store.old) (S.changing store.new) }
    ensures failure { FailsJustAt (IsErrOf result Disk) (S.store store.old).disk (S.store store.new).disk }
{
    let name = Name::from_slice(alloc, b"..")?;
    replace(alloc, draft, store, dir, &name, parent)
}
