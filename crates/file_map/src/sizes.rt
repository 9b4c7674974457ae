//! Files that get another size.
ghost use Rattle.std.specs.Prelude.{◌≡◌, ◌≤◌, ◌<◌, ◌+◌, ◌-◌, ◌*◌, ◌++◌, min, length, true, if◌then◌else◌, nat_le, [], OnOk, IfOk, IsErrOf};
ghost use Rattle.lufs_base.specs.Layout.{IsGeometry};
ghost use Rattle.volume_model.specs.Format.{inodes_of, IsDinode};
ghost use Rattle.volume_model.specs.Log.{delta_bytes};
ghost use Rattle.volume_model.specs.Sound.{size_in_blocks};
ghost use Rattle.sector_disk.specs.Disk.{FailsJustAt};
ghost use Rattle.history_model.specs.FileBytes.{greatest_size};
ghost use Rattle.meta_store.specs.Store.{IsUnchanged};
ghost use Rattle.meta_store.specs.Changing.{IsKept};
ghost use Rattle.meta_store.specs.declared.error.StoreError.TheVariants.{Disk};
ghost use Rattle.file_map.specs.Attached.{with_record};
ghost use Rattle.file_map.specs.Cut.{sized, sized_to_direct, lost_block, lost, with_numbers_cleared, PutsCut, IsShortened, IsCut};

use crate::frees::free_all;
use crate::inode_lookup::used_inode;
use crate::mapping::number_at;
use block_numbers::read_numbers;
use lufs_base::{BLOCK, BlockNo, Geometry, Ino, Mem};
use meta_draft::Draft;
use meta_store::{Freed, MetaRead, StoreError};
use std::alloc::Global;
use volume_model::Dinode;

/// Direct blocks of an inode.
const DIRECT: u32 = 12;

/// The blocks that a file may have.
const MOST: u64 = 1036;

// How many blocks so many bytes take, up to those of a file.
fn blocks_for(size: u64) -> u32
    ensures { result ≡ min (size_in_blocks size) 1036 }
{
    size.div_ceil(BLOCK as u64).min(MOST) as u32
}

// The record with another size, and so many blocks fewer.
fn sized(d: &Dinode, size: u64, lost: u32) -> Dinode
    ensures { result ≡ sized d.now size lost }
{
    let mut new = *d;
    new.size = size;
    new.blocks = d.blocks.saturating_sub(lost);
    new
}

// The same with just the first direct blocks, and without a pointer block.
fn sized_to_direct(d: &Dinode, size: u64, lost: u32, kept: u32) -> Dinode
    requires { kept ≤ 12 }
    ensures { result ≡ sized_to_direct d.now size lost kept }
{
    let mut new = sized(d, size, lost);
    new.direct[kept as usize..].fill(0);
    new.indirect[0] = 0;
    new
}

// Adds a block, if the number isn't 0.
fn push_lost(list: &mut Vec<Freed>, meta: bool, number: u32) -> Result<(), Mem>
    ensures list { OnOk result (list.new.items ≡ list.old.items ++ lost_block meta number) }
    ensures few { OnOk result (length list.new.items ≤ length list.old.items + 1) }
{
    if number != 0 {
        list.push(Freed {
            block: BlockNo(number),
            meta,
        })?;
    }
    Ok(())
}

// The pointer block of this number, if the direct blocks are enough for what is left.
fn lost_pointers(alloc: Global, number: u32, kept: u32) -> Result<Vec<Freed>, Mem>
    ensures list { IfOk result (λ list. list.items ≡ (if nat_le kept 12 then lost_block true number else [])) }
    ensures few { IfOk result (λ list. length list.items ≤ 1) }
{
    let mut list = Vec::new(alloc);
    if kept <= DIRECT {
        push_lost(&mut list, true, number)?;
    }
    Ok(list)
}

// The blocks that an inode of this record and with these numbers loses.
fn lost(alloc: Global, d: &Dinode, numbers: &[u32], kept: u32, past: u32) -> Result<Vec<Freed>, Mem>
    requires { kept ≤ past }
    ensures list { IfOk result (λ list. list.items ≡ lost d.now numbers.now kept past) }
    ensures few { IfOk result (λ list. length list.items ≤ 1 + (past - kept)) }
{
    let mut list = lost_pointers(alloc, d.indirect[0], kept)?;
    for index in kept..past {
        push_lost(&mut list, false, number_at(numbers, index as usize))?;
    }
    Ok(list)
}

// Clears numbers of the pointer block of inode `i`, and puts its size.
fn clear_numbers(
    alloc: Global,
    draft: &mut Draft,
    g: &Geometry,
    i: Ino,
    d: &Dinode,
    size: u64,
    lost: u32,
    entry: u32,
    count: u32,
) -> Result<(), Mem>
    requires geometry { IsGeometry g.now }
    requires inside { i.0 < inodes_of g.now }
    requires count { entry + count ≤ 1024 }
    ensures ok { OnOk result (draft.new.change ≡ with_numbers_cleared g.now draft.old.change i.0 d.now size lost entry count) }
    ensures growth { delta_bytes draft.new.change.deltas ≤ delta_bytes draft.old.change.deltas + 4256 }
{
    let zeros = vec![in alloc; 0u32; count as usize]?;
    draft.put_pointers(alloc, BlockNo(d.indirect[0]), entry, zeros.as_slice())?;
    let new = sized(d, size, lost);
    draft.put_inode(alloc, g, i, Some(&new))
}

// Puts an inode cut to its first blocks.
fn put_cut(
    alloc: Global,
    draft: &mut Draft,
    g: &Geometry,
    i: Ino,
    d: &Dinode,
    size: u64,
    lost: u32,
    kept: u32,
    past: u32,
) -> Result<(), Mem>
    requires geometry { IsGeometry g.now }
    requires inside { i.0 < inodes_of g.now }
    requires order { kept ≤ past }
    requires most { past ≤ 1036 }
    ensures ok { OnOk result (PutsCut g.now draft.old.change draft.new.change i.0 d.now size lost kept past) }
    ensures growth { delta_bytes draft.new.change.deltas ≤ delta_bytes draft.old.change.deltas + 4256 }
{
    if kept <= DIRECT {
        let new = sized_to_direct(d, size, lost, kept);
        return draft.put_inode(alloc, g, i, Some(&new));
    }
    if d.indirect[0] == 0 {
        let new = sized(d, size, lost);
        return draft.put_inode(alloc, g, i, Some(&new));
    }
    clear_numbers(
        alloc,
        draft,
        g,
        i,
        d,
        size,
        lost,
        kept - DIRECT,
        past - kept,
    )
}

// Shortens file `i`, which has this record and loses blocks.
fn shorten<S: MetaRead>(
    alloc: Global,
    draft: &mut Draft,
    store: &mut S,
    i: Ino,
    d: &Dinode,
    size: u64,
    kept: u32,
    past: u32,
) -> Result<(), StoreError>
    requires inside { i.0 < inodes_of (S.store store.old).geometry }
    requires dinode { IsDinode (S.store store.old).geometry.version d.now }
    requires kept { kept ≡ size_in_blocks size }
    requires past { past ≡ min (size_in_blocks d.now.size) 1036 }
    requires order { kept < past }
    ensures drawn { OnOk result (IsShortened (S.store store.old) draft.old.change draft.new.change i.0 d.now size) }
    ensures growth { delta_bytes draft.new.change.deltas ≤ delta_bytes draft.old.change.deltas + (4272 + 432 * (S.store store.old).geometry.groups) }
    ensures unchanged { IsUnchanged (S.store store.old) (S.store store.new) }
    ensures kept { IsKept (S.changing store.old) (S.changing store.new) }
    ensures failure { FailsJustAt (IsErrOf result Disk) (S.store store.old).disk (S.store store.new).disk }
{
    let g = *store.geometry();
    let numbers = read_numbers(alloc, draft, store, d, u64::from(past))?;
    let lost = lost(alloc, d, &numbers, kept, past)?;
    put_cut(alloc, draft, &g, i, d, size, lost.len() as u32, kept, past)?;
    free_all(alloc, draft, store, None, &lost)
}

/// File `i` gets another size. It keeps just the blocks below it, with their bytes, and the pointer block only where it
/// needs more than the direct blocks; all others are freed. A file that loses blocks is to be as it was when the call
/// began. What is no inode in use stays as it is. It answers `Disk` exactly where a read failed; after an `Err` the
/// draft is of no use.
pub fn cut<S: MetaRead>(
    alloc: Global,
    draft: &mut Draft,
    store: &mut S,
    i: Ino,
    size: u64,
) -> Result<(), StoreError>
    requires { size ≤ greatest_size }
    ensures drawn { OnOk result (IsCut (S.store store.old) draft.old.change draft.new.change i.0 size) }
    ensures growth { delta_bytes draft.new.change.deltas ≤ delta_bytes draft.old.change.deltas + (4272 + 432 * (S.store store.old).geometry.groups) }
    ensures unchanged { IsUnchanged (S.store store.old) (S.store store.new) }
    ensures kept { IsKept (S.changing store.old) (S.changing store.new) }
    ensures failure { FailsJustAt (IsErrOf result Disk) (S.store store.old).disk (S.store store.new).disk }
{
    let Some(d) = used_inode(draft, store, i)? else {
        return Ok(());
    };
    let kept = blocks_for(size);
    let past = blocks_for(d.size);
    if kept < past {
        return shorten(alloc, draft, store, i, &d, size, kept, past);
    }
    let g = *store.geometry();
    draft.put_inode(alloc, &g, i, Some(&sized(&d, size, 0)))?;
    Ok(())
}
