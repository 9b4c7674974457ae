//! A directory that gets one chunk more.
ghost use Rattle.std.specs.Prelude.{◌≡◌, ◌≢◌, ◌<◌, ◌≤◌, ◌+◌, ◌/◌, ◌%◌, ◌^◌, ◌∷◌, [], min, length, OnOk, IfSome, IfNone, Some};
ghost use Rattle.lufs_base.specs.Layout.{IsGeometry};
ghost use Rattle.volume_model.specs.Format.{inodes_of, dinode_bytes, chunk_bytes};
ghost use Rattle.volume_model.specs.Log.{delta_bytes};
ghost use Rattle.meta_store.specs.Deltas.{inode_delta, chunk_delta, zero_delta, pointers_delta};
ghost use Rattle.meta_draft.specs.Drafted.{with_delta};
ghost use Rattle.meta_store.specs.Changes.{numbers_in};
ghost use Rattle.dir_ops.specs.Edits.{PutsDeltas};
ghost use Rattle.dir_ops.specs.Growth.{with_block, with_number, with_room, with_direct, with_pointer, with_inode, with_chunk_added, AddsBlock, AddsPointer, AddsByPointer, Grows};

use crate::chunk_put::put_chunk;
use dir_blocks::Chunk;
use dir_reads::{CHUNKS, Directory, MOST_CHUNKS};
use lufs_base::{BlockNo, Geometry, Ino, Mem};
use meta_draft::Draft;
use std::alloc::Global;
use volume_model::Dinode;

/// The direct blocks of an inode.
const DIRECT: u32 = 12;

// The one block, if there is just one.
fn one_of(fresh: &[BlockNo]) -> Option<BlockNo>
    ensures some { IfSome result (λ b. fresh.now ≡ b ∷ []) }
    ensures none { IfNone result (length fresh.now ≢ 1) }
{
    match fresh {
        [b] => Some(*b),
        _ => None,
    }
}

// The two blocks, if there are just two.
fn two_of(fresh: &[BlockNo]) -> Option<(BlockNo, BlockNo)>
    ensures some { IfSome result (λ both. fresh.now ≡ both.0 ∷ both.1 ∷ []) }
    ensures none { IfNone result (length fresh.now ≢ 2) }
{
    match fresh {
        [b, p] => Some((*b, *p)),
        _ => None,
    }
}

// The record with room for one chunk more and so many blocks more, if its numbers have room.
fn with_room(d: &Dinode, more: u32) -> Option<Dinode>
    requires { d.now.size < 2 ^ 32 }
    ensures some { IfSome result (λ after. after ≡ with_room more d.now) }
    ensures none { IfNone result (2 ^ 32 ≤ d.now.blocks + more) }
{
    let blocks = d.blocks.checked_add(more)?;
    let mut after = *d;
    after.size += 512;
    after.blocks = blocks;
    Some(after)
}

// Puts block `b` into the change: zeros, and a chunk at its front.
fn put_block(alloc: Global, draft: &mut Draft, b: BlockNo, chunk: &Chunk) -> Result<(), Mem>
    ensures ok { OnOk result (draft.new.change ≡ with_block b.0 chunk.now draft.old.change) }
    ensures growth { delta_bytes draft.new.change.deltas ≤ delta_bytes draft.old.change.deltas + 544 }
{
    draft.put_zeros(alloc, b)?;
    draft.put_chunk(alloc, b, 0, chunk)
}

// Puts a number into pointer block `p`.
fn put_number(alloc: Global, draft: &mut Draft, p: BlockNo, j: u32, b: BlockNo) -> Result<(), Mem>
    requires { j < 1024 }
    ensures ok { OnOk result (draft.new.change ≡ with_number p.0 j b.0 draft.old.change) }
    ensures growth { delta_bytes draft.new.change.deltas ≤ delta_bytes draft.old.change.deltas + 20 }
{
    draft.put_pointers(alloc, p, j, &[b.0])
}

// One chunk more in the last block.
fn add_chunk(
    alloc: Global,
    draft: &mut Draft,
    g: &Geometry,
    dir: Ino,
    directory: &Directory,
    chunk: &Chunk,
) -> Result<(), Mem>
    requires geometry { IsGeometry g.now }
    requires inside { dir.0 < inodes_of g.now }
    requires sized { directory.now.dinode.size < 2 ^ 32 }
    ensures ok { OnOk result (draft.new.change ≡ with_chunk_added g.now dir.0 directory.now chunk.now draft.old.change) }
    ensures growth { delta_bytes draft.new.change.deltas ≤ delta_bytes draft.old.change.deltas + 672 }
{
    let mut d = directory.dinode;
    d.size += 512;
    put_chunk(alloc, draft, directory, directory.opened.count, chunk)?;
    draft.put_inode(alloc, g, dir, Some(&d))
}

// One chunk more in a new block, which is direct block `k`.
fn add_block(
    alloc: Global,
    draft: &mut Draft,
    g: &Geometry,
    dir: Ino,
    directory: &Directory,
    k: u32,
    chunk: &Chunk,
    fresh: &[BlockNo],
) -> Result<(), Mem>
    requires geometry { IsGeometry g.now }
    requires inside { dir.0 < inodes_of g.now }
    requires sized { directory.now.dinode.size < 2 ^ 32 }
    requires direct { k < 12 }
    ensures ok { OnOk result (AddsBlock g.now dir.0 directory.now k chunk.now (numbers_in fresh.now) draft.old.change draft.new.change) }
    ensures rest { OnOk result (PutsDeltas draft.old.change draft.new.change) }
    ensures growth { delta_bytes draft.new.change.deltas ≤ delta_bytes draft.old.change.deltas + 688 }
{
    let Some(b) = one_of(fresh) else {
        return Ok(());
    };
    let Some(mut d) = with_room(&directory.dinode, 1) else {
        return Ok(());
    };
    d.direct[k as usize] = b.0;
    put_block(alloc, draft, b, chunk)?;
    draft.put_inode(alloc, g, dir, Some(&d))
}

// One chunk more in a new block, which is the first one of a new pointer block.
fn add_pointer(
    alloc: Global,
    draft: &mut Draft,
    g: &Geometry,
    dir: Ino,
    directory: &Directory,
    chunk: &Chunk,
    fresh: &[BlockNo],
) -> Result<(), Mem>
    requires geometry { IsGeometry g.now }
    requires inside { dir.0 < inodes_of g.now }
    requires sized { directory.now.dinode.size < 2 ^ 32 }
    ensures ok { OnOk result (AddsPointer g.now dir.0 directory.now chunk.now (numbers_in fresh.now) draft.old.change draft.new.change) }
    ensures rest { OnOk result (PutsDeltas draft.old.change draft.new.change) }
    ensures growth { delta_bytes draft.new.change.deltas ≤ delta_bytes draft.old.change.deltas + 724 }
{
    let Some((b, p)) = two_of(fresh) else {
        return Ok(());
    };
    let Some(mut d) = with_room(&directory.dinode, 2) else {
        return Ok(());
    };
    d.indirect[0] = p.0;
    draft.put_zeros(alloc, p)?;
    put_number(alloc, draft, p, 0, b)?;
    put_block(alloc, draft, b, chunk)?;
    draft.put_inode(alloc, g, dir, Some(&d))
}

// One chunk more in a new block, which is number `j` of the pointer block.
fn add_by_pointer(
    alloc: Global,
    draft: &mut Draft,
    g: &Geometry,
    dir: Ino,
    directory: &Directory,
    j: u32,
    chunk: &Chunk,
    fresh: &[BlockNo],
) -> Result<(), Mem>
    requires geometry { IsGeometry g.now }
    requires inside { dir.0 < inodes_of g.now }
    requires sized { directory.now.dinode.size < 2 ^ 32 }
    requires number { j < 1024 }
    ensures ok { OnOk result (AddsByPointer g.now dir.0 directory.now j chunk.now (numbers_in fresh.now) draft.old.change draft.new.change) }
    ensures rest { OnOk result (PutsDeltas draft.old.change draft.new.change) }
    ensures growth { delta_bytes draft.new.change.deltas ≤ delta_bytes draft.old.change.deltas + 708 }
{
    let p = directory.dinode.indirect[0];
    if p == 0 {
        return Ok(());
    }
    let Some(b) = one_of(fresh) else {
        return Ok(());
    };
    let Some(d) = with_room(&directory.dinode, 1) else {
        return Ok(());
    };
    put_block(alloc, draft, b, chunk)?;
    put_number(alloc, draft, BlockNo(p), j, b)?;
    draft.put_inode(alloc, g, dir, Some(&d))
}

/// Puts one chunk more of a directory into the change. The blocks that it needs are to be given: a new block, and where
/// that is the first one after the direct ones, a pointer block too. After an `Err` the draft is of no use.
pub(crate) fn grow(
    alloc: Global,
    draft: &mut Draft,
    g: &Geometry,
    dir: Ino,
    directory: &Directory,
    chunk: &Chunk,
    fresh: &[BlockNo],
) -> Result<(), Mem>
    requires geometry { IsGeometry g.now }
    requires inside { dir.0 < inodes_of g.now }
    requires counted { directory.now.opened.count ≡ min (directory.now.dinode.size / 512) 2048 }
    ensures ok { OnOk result (Grows g.now dir.0 directory.now chunk.now (numbers_in fresh.now) draft.old.change draft.new.change) }
    ensures rest { OnOk result (PutsDeltas draft.old.change draft.new.change) }
    ensures growth { delta_bytes draft.new.change.deltas ≤ delta_bytes draft.old.change.deltas + 724 }
{
    let count = directory.opened.count;
    if count >= MOST_CHUNKS {
        return Ok(());
    }
    if count % CHUNKS != 0 {
        return add_chunk(alloc, draft, g, dir, directory, chunk);
    }
    let k = count / CHUNKS;
    if k < DIRECT {
        return add_block(alloc, draft, g, dir, directory, k, chunk, fresh);
    }
    if k == DIRECT {
        return add_pointer(alloc, draft, g, dir, directory, chunk, fresh);
    }
    add_by_pointer(alloc, draft, g, dir, directory, k - DIRECT, chunk, fresh)
}
