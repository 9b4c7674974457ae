//! Names that are entered in a directory.
ghost use Rattle.std.specs.Prelude.{◌≡◌, ◌≢◌, ◌<◌, ◌≤◌, ◌+◌, ◌/◌, ℕ, true, min, slice_index, IfSome, OnOk, IsErrOf};
ghost use Rattle.lufs_base.specs.Layout.{IsGeometry, blocks_of};
ghost use Rattle.lufs_base.specs.Name.{IsName};
ghost use Rattle.volume_model.specs.Format.{inodes_of, IsDinode};
ghost use Rattle.volume_model.specs.Log.{delta_bytes};
ghost use Rattle.meta_store.specs.Changes.{numbers_in};
ghost use Rattle.sector_disk.specs.Disk.{FailsJustAt};
ghost use Rattle.history_model.specs.Edits.{Enter, edited};
ghost use Rattle.meta_store.specs.Store.{IsUnchanged};
ghost use Rattle.meta_store.specs.Changing.{IsKept};
ghost use Rattle.meta_store.specs.declared.error.StoreError.TheVariants.{Disk};
ghost use Rattle.dir_reads.specs.Directories.{serves};
ghost use Rattle.dir_ops.specs.Slots.{PutsName};
ghost use Rattle.dir_reads.specs.declared.directory.Wanted.TheVariants.{Roomy};
ghost use Rattle.dir_ops.specs.Edits.{IsEntered, PutsDeltas};
ghost use Rattle.dir_ops.specs.Opened.{IsEnteredAt, GrowsByName, PutsEntry};

use crate::chunk_put::put_chunk;
use crate::growth::grow;
use dir_blocks::Chunk;
use dir_reads::{Directory, Found, Wanted};
use lufs_base::{BlockNo, Geometry, Ino, Mem, Name};
use meta_draft::Draft;
use meta_store::{MetaRead, StoreError};
use std::alloc::Global;

// Enters the name in a chunk that has room.
fn enter_in(
    alloc: Global,
    draft: &mut Draft,
    directory: &Directory,
    found: Found,
    name: Name,
    i: Ino,
) -> Result<(), Mem>
    requires room { serves Roomy name found.chunk ≡ true }
    requires allowed { IsName name }
    requires number { i.0 ≢ 0 }
    ensures ok { OnOk result (PutsName directory.now found name i.0 draft.old.change draft.new.change) }
    ensures rest { OnOk result (PutsDeltas draft.old.change draft.new.change) }
    ensures growth { delta_bytes draft.new.change.deltas ≤ delta_bytes draft.old.change.deltas + 528 }
{
    let mut chunk = found.chunk;
    chunk.put(name, i)?;
    put_chunk(alloc, draft, directory, found.place, &chunk)
}

// Enters the name in a new chunk.
fn enter_new(
    alloc: Global,
    draft: &mut Draft,
    g: &Geometry,
    dir: Ino,
    directory: &Directory,
    name: Name,
    i: Ino,
    fresh: &[BlockNo],
) -> Result<(), Mem>
    requires geometry { IsGeometry g.now }
    requires inside { dir.0 < inodes_of g.now }
    requires counted { directory.now.opened.count ≡ min (directory.now.dinode.size / 512) 2048 }
    requires allowed { IsName name }
    requires number { i.0 ≢ 0 }
    ensures ok { OnOk result (GrowsByName g.now dir.0 directory.now name i.0 (numbers_in fresh.now) draft.old.change draft.new.change) }
    ensures rest { OnOk result (PutsDeltas draft.old.change draft.new.change) }
    ensures growth { delta_bytes draft.new.change.deltas ≤ delta_bytes draft.old.change.deltas + 724 }
{
    let chunk = Chunk::of_one(alloc, name, i)?;
    grow(alloc, draft, g, dir, directory, &chunk, fresh)
}

// Enters the name in the chunk that was found, or in a new one.
fn enter_found(
    alloc: Global,
    draft: &mut Draft,
    g: &Geometry,
    dir: Ino,
    directory: &Directory,
    found: Option<Found>,
    name: &Name,
    i: Ino,
    fresh: &[BlockNo],
) -> Result<(), Mem>
    requires geometry { IsGeometry g.now }
    requires inside { dir.0 < inodes_of g.now }
    requires counted { directory.now.opened.count ≡ min (directory.now.dinode.size / 512) 2048 }
    requires room { IfSome found (λ f. serves Roomy name.now f.chunk ≡ true) }
    requires allowed { IsName name.now }
    requires number { i.0 ≢ 0 }
    ensures ok { OnOk result (PutsEntry g.now dir.0 directory.now found name.now i.0 (numbers_in fresh.now) draft.old.change draft.new.change) }
    ensures rest { OnOk result (PutsDeltas draft.old.change draft.new.change) }
    ensures growth { delta_bytes draft.new.change.deltas ≤ delta_bytes draft.old.change.deltas + 724 }
{
    let name = Name::from_slice(alloc, name.as_slice())?;
    match found {
        Some(found) => enter_in(alloc, draft, directory, found, name, i),
        None => enter_new(alloc, draft, g, dir, directory, name, i, fresh),
    }
}

// Enters the name in a directory that was opened.
fn enter_in_directory<S: MetaRead>(
    alloc: Global,
    draft: &mut Draft,
    store: &mut S,
    dir: Ino,
    directory: &Directory,
    name: &Name,
    i: Ino,
    fresh: &[BlockNo],
) -> Result<(), StoreError>
    requires inside { dir.0 < inodes_of (S.store store.old).geometry }
    requires inode { IsDinode (S.store store.old).geometry.version directory.now.dinode }
    requires numbers { (k : ℕ) → slice_index directory.now.opened.numbers.items k < blocks_of (S.store store.old).geometry }
    requires counted { directory.now.opened.count ≡ min (directory.now.dinode.size / 512) 2048 }
    requires allowed { IsName name.now }
    requires number { i.0 ≢ 0 }
    ensures drawn { IsEnteredAt (S.store store.old).content (S.store store.old).geometry draft.old.change draft.new.change dir.0 directory.now name.now (numbers_in fresh.now) (edited (Enter dir.0 name.now i.0)) result }
    ensures rest { OnOk result (PutsDeltas draft.old.change draft.new.change) }
    ensures growth { delta_bytes draft.new.change.deltas ≤ delta_bytes draft.old.change.deltas + 724 }
    ensures unchanged { IsUnchanged (S.store store.old) (S.store store.new) }
    ensures kept { IsKept (S.changing store.old) (S.changing store.new) }
    ensures failure { FailsJustAt (IsErrOf result Disk) (S.store store.old).disk (S.store store.new).disk }
{
    let g = *store.geometry();
    let found = directory.find(alloc, draft, store, Wanted::Roomy, name)?;
    enter_found(alloc, draft, &g, dir, directory, found, name, i, fresh)?;
    Ok(())
}

// The same for an inode that has a number.
fn enter_some<S: MetaRead>(
    alloc: Global,
    draft: &mut Draft,
    store: &mut S,
    dir: Ino,
    name: &Name,
    i: Ino,
    fresh: &[BlockNo],
) -> Result<(), StoreError>
    requires allowed { IsName name.now }
    requires number { i.0 ≢ 0 }
    ensures drawn { IsEntered (S.store store.old) draft.old.change draft.new.change dir.0 name.now fresh.now (edited (Enter dir.0 name.now i.0)) result }
    ensures rest { OnOk result (PutsDeltas draft.old.change draft.new.change) }
    ensures growth { delta_bytes draft.new.change.deltas ≤ delta_bytes draft.old.change.deltas + 724 }
    ensures unchanged { IsUnchanged (S.store store.old) (S.store store.new) }
    ensures kept { IsKept (S.changing store.old) (S.changing store.new) }
    ensures failure { FailsJustAt (IsErrOf result Disk) (S.store store.old).disk (S.store store.new).disk }
{
    match Directory::open(alloc, draft, store, dir)? {
        Some(directory) => {
            enter_in_directory(alloc, draft, store, dir, &directory, name, i, fresh)
        }
        None => Ok(()),
    }
}

/// Enters a name for inode `i`, from 1 on, in directory `dir`: in the first chunk with room, or in a new chunk. `fresh`
/// has just the blocks that are wanted for it: a block of the directory, and then a pointer block. Where the directory
/// can't have one chunk more, or the blocks are others, nothing changes. After an `Err` the draft is of no use.
pub fn enter<S: MetaRead>(
    alloc: Global,
    draft: &mut Draft,
    store: &mut S,
    dir: Ino,
    name: &Name,
    i: Ino,
    fresh: &[BlockNo],
) -> Result<(), StoreError>
    requires allowed { IsName name.now }
    ensures drawn { i.0 ≢ 0 → IsEntered (S.store store.old) draft.old.change draft.new.change dir.0 name.now fresh.now (edited (Enter dir.0 name.now i.0)) result }
    ensures rest { OnOk result (PutsDeltas draft.old.change draft.new.change) }
    ensures growth { delta_bytes draft.new.change.deltas ≤ delta_bytes draft.old.change.deltas + 724 }
    ensures unchanged { IsUnchanged (S.store store.old) (S.store store.new) }
    ensures kept { IsKept (S.changing store.old) (S.changing store.new) }
    ensures failure { FailsJustAt (IsErrOf result Disk) (S.store store.old).disk (S.store store.new).disk }
{
    if i.0 == 0 {
        return Ok(());
    }
    enter_some(alloc, draft, store, dir, name, i, fresh)
}
