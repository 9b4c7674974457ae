//! An inode that no name leads to any more is freed, with all its blocks.
ghost use Rattle.std.specs.Prelude.{◌≡◌, ◌<◌, ◌≤◌, ◌+◌, ◌*◌, ◌++◌, nat_le, nat_lt, ◌&&◌, slice_index, IfSome, IfOk, OnOk, IsErrOf};
ghost use Rattle.lufs_base.specs.Layout.{IsGeometry, blocks_of};
ghost use Rattle.volume_model.specs.Format.{block, inodes_of};
ghost use Rattle.volume_model.specs.Log.{delta_bytes};
ghost use Rattle.volume_model.specs.Sound.{numbers_of};
ghost use Rattle.sector_disk.specs.Disk.{FailsJustAt};
ghost use Rattle.meta_store.specs.Store.{IsUnchanged};
ghost use Rattle.meta_store.specs.Changing.{IsKept};
ghost use Rattle.meta_store.specs.declared.error.StoreError.TheVariants.{Disk};
ghost use Rattle.meta_draft.specs.Drafted.{drafted};
ghost use Rattle.file_map.specs.Freed.{metadata_among};
ghost use Rattle.file_map.specs.Dropped.{IsDropped, most_indexes, freed_block, freed_of};

use crate::frees::free_all;
use crate::mapping::number_at;
use block_numbers::read_numbers;
use lufs_base::{BlockNo, Geometry, Ino, Mem};
use meta_draft::Draft;
use meta_store::{Freed, MetaRead, StoreError};
use std::alloc::Global;
use volume_model::Dinode;

/// The first inode that may be in use.
const FIRST: u32 = 2;

/// How many blocks the numbers of a file may name, by its record and its pointer block.
const MOST_OF_FILE: u32 = 1036;

/// The same of a directory, which may have more than a link.
const MOST_OF_DIRECTORY: u32 = 256;

// How many numbers of the inode may name blocks.
fn most_indexes(d: &Dinode) -> u32
    ensures { result ≡ most_indexes d.now }
{
    if d.is_file() {
        MOST_OF_FILE
    } else {
        MOST_OF_DIRECTORY
    }
}

// Adds the block of this number, if it isn't 0.
fn push_block(list: &mut Vec<Freed>, number: u32, meta: bool) -> Result<(), Mem>
    ensures { OnOk result (list.new.items ≡ list.old.items ++ freed_block meta number) }
{
    if number != 0 {
        let block = BlockNo(number);
        list.push(Freed { block, meta })?;
    }
    Ok(())
}

// The blocks of an inode by its numbers. Its pointer block holds metadata, and so does each block of an inode that
// is no file.
fn blocks_by_numbers(alloc: Global, d: &Dinode, numbers: &[u32]) -> Result<Vec<Freed>, Mem>
    ensures { IfOk result (λ list. list.items ≡ freed_of d.now numbers.now) }
{
    let meta = !d.is_file();
    let mut list = Vec::new(alloc);
    push_block(&mut list, d.indirect[0], true)?;
    for k in 0..most_indexes(d) {
        push_block(&mut list, number_at(numbers, k as usize), meta)?;
    }
    Ok(list)
}

// The blocks of an inode.
fn blocks_of_record<S: MetaRead>(
    alloc: Global,
    draft: &Draft,
    store: &mut S,
    d: &Dinode,
) -> Result<Vec<Freed>, StoreError>
    ensures blocks { IfSome (drafted draft.now.change (S.store store.old)).content (λ image. slice_index d.now.indirect 0 < blocks_of (S.store store.old).geometry
        → IfOk result (λ list. list.items ≡ freed_of d.now (numbers_of (block image) d.now))) }
    ensures few { IfOk result (λ list. metadata_among list.items ≤ 257) }
    ensures unchanged { IsUnchanged (S.store store.old) (S.store store.new) }
    ensures kept { IsKept (S.changing store.old) (S.changing store.new) }
    ensures failure { FailsJustAt (IsErrOf result Disk) (S.store store.old).disk (S.store store.new).disk }
{
    let most = most_indexes(d);
    let numbers = read_numbers(alloc, draft, store, d, u64::from(most))?;
    let list = blocks_by_numbers(alloc, d, &numbers)?;
    Ok(list)
}

// Whether the volume has an inode of this number that may be in use.
fn may_be_used(g: &Geometry, i: Ino) -> bool
    requires { IsGeometry g.now }
    ensures { result ≡ (nat_le 2 i.0 && nat_lt i.0 (inodes_of g.now)) }
{
    FIRST <= i.0 && i.0 < g.groups * g.ipg
}

/// Frees inode `i`, to which no name leads any more, with all its blocks. The change so far is to have left the inode
/// itself as it was. One that isn't in use changes nothing. After an `Err` the draft is of no use.
pub fn drop_inode<S: MetaRead>(
    alloc: Global,
    draft: &mut Draft,
    store: &mut S,
    i: Ino,
) -> Result<(), StoreError>
    ensures dropped { IsDropped (S.store store.old) draft.old.change draft.new.change i.0 result }
    ensures taken { OnOk result (draft.new.change.taken ≡ draft.old.change.taken) }
    ensures growth { delta_bytes draft.new.change.deltas ≤ delta_bytes draft.old.change.deltas + (4256 + 432 * (S.store store.old).geometry.groups) }
    ensures unchanged { IsUnchanged (S.store store.old) (S.store store.new) }
    ensures kept { IsKept (S.changing store.old) (S.changing store.new) }
    ensures failure { FailsJustAt (IsErrOf result Disk) (S.store store.old).disk (S.store store.new).disk }
{
    let g = *store.geometry();
    if !may_be_used(&g, i) {
        return Ok(());
    }
    let Some(d) = draft.inode(store, i)? else {
        return Ok(());
    };
    let freed = blocks_of_record(alloc, draft, store, &d)?;
    draft.put_inode(alloc, &g, i, None)?;
    free_all(alloc, draft, store, Some(i), &freed)
}
