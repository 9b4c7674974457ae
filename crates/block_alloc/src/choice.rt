//! What a call that wants an inode or blocks is answered, and which it is to get.
ghost use Rattle.std.specs.Prelude.{◌≡◌, ◌<◌, ◌-◌, ◌&&◌, ◌==◌, if◌then◌else◌, None, length, take, find, IfSome, IfOk, IsErrOf, unwrap_or};
ghost use Rattle.std.specs.List.{count_by, filter, range_with_len};
ghost use Rattle.lufs_base.specs.Layout.{IsGeometry, blocks_of};
ghost use Rattle.volume_model.specs.declared.hand.Hand.{Hand};
ghost use Rattle.volume_model.specs.Format.{Blocks, block, inodes_of};
ghost use Rattle.volume_model.specs.Sound.{Tree, StandsFor, reading_of};
ghost use Rattle.sector_disk.specs.Disk.{FailsJustAt};
ghost use Rattle.meta_store.specs.declared.error.StoreError.TheVariants.{Disk};
ghost use Rattle.meta_store.specs.Changing.{IsAsBefore, all_told};
ghost use Rattle.block_alloc.specs.declared.taken.Taken.TheVariants.{Got};
ghost use Rattle.block_alloc.specs.Records.{AreRecords, is_clear_inode, may_give};
ghost use Rattle.block_alloc.specs.Choosing.{AreCounts, IfGot, IsChosen};
ghost use Rattle.block_alloc.specs.Taking.{answer_by, answer_of};

use crate::held::{count_blocks, count_inodes, sum_of};
use crate::records::{clear_blocks, clear_inodes, is_clear_block, is_clear_inode, read_records};
use crate::{Hands, Taken};
use cyl_groups::Group;
use lufs_base::{BlockNo, Geometry, Mem};
use meta_store::{MetaStore, StoreError};
use std::alloc::Global;
use tree_types::Wait;
use volume_model::{BlockList, Hand};

/// How many inodes and blocks are free and in hand.
#[derive(Debug, Drop)]
struct Counts {
    free_inodes: u32,
    free_blocks: u32,
    /// The free blocks that are released or in hand.
    released: u32,
    inodes_in_hand: u32,
    blocks_in_hand: u32,
}

// Whether the call wants an inode, and the two counts are the same.
fn wants_inode_of(inode: bool, count: u32, other: u32) -> bool
    ensures { result ≡ (inode && count == other) }
{
    inode && count == other
}

// What a call is answered that wants an inode or none, and n blocks, where it can't have them now.
fn refusal_of(inode: bool, n: u32, counts: &Counts) -> Option<Taken>
    ensures answer { (hand : Hand) → answer_by inode n counts.now.free_inodes counts.now.free_blocks counts.now.released counts.now.inodes_in_hand counts.now.blocks_in_hand hand
        ≡ unwrap_or result (Got hand) }
    ensures nothing_got { IfSome result (λ taken. IfGot taken (λ hand. ⊥)) }
{
    if wants_inode_of(inode, counts.free_inodes, 0) {
        return Some(Taken::NoInodes);
    }
    if counts.free_blocks < n {
        return Some(Taken::NoSpace);
    }
    if wants_inode_of(inode, counts.free_inodes, counts.inodes_in_hand) {
        return Some(Taken::Later(Wait::InHand {
            inode: true,
            wanted: 1,
            free: counts.free_inodes,
            held: counts.inodes_in_hand,
        }));
    }
    if counts.released < n {
        return Some(Taken::Later(Wait::Unreleased {
            released: counts.released,
            free: counts.free_blocks,
            wanted: n,
        }));
    }
    let left = counts.released.saturating_sub(counts.blocks_in_hand);
    if left < n {
        return Some(Taken::Later(Wait::InHand {
            inode: false,
            wanted: n,
            free: counts.released,
            held: counts.blocks_in_hand,
        }));
    }
    None
}

// Whether the block is free by its bit, and may be given out now.
fn may_give<S: MetaStore>(store: &S, records: &[Option<Group>], b: u32) -> bool
    requires size { length records.now ≡ (S.store store.now).geometry.groups }
    requires inside { b < blocks_of (S.store store.now).geometry }
    ensures { result ≡ may_give (S.store store.now).geometry records.now (S.changing store.now).is_released b }
{
    let g = store.geometry();
    g.is_body(BlockNo(b)) && is_clear_block(g, records, b) && store.is_released(BlockNo(b))
}

// How many such blocks there are.
fn count_released<S: MetaStore>(store: &S, records: &[Option<Group>]) -> u32
    requires { length records.now ≡ (S.store store.now).geometry.groups }
    ensures { result ≡ count_by (may_give (S.store store.now).geometry records.now (S.changing store.now).is_released) (range_with_len 0 (blocks_of (S.store store.now).geometry)) }
{
    let mut count = 0;
    for b in 0..store.geometry().total() {
        if may_give(store, records, b) {
            count += 1;
        }
    }
    count
}

// The lowest n of them, or all if there are fewer.
fn lowest_blocks<S: MetaStore>(
    alloc: Global,
    store: &S,
    records: &[Option<Group>],
    n: u32,
) -> Result<BlockList, Mem>
    requires { length records.now ≡ (S.store store.now).geometry.groups }
    ensures { IfOk result (λ blocks. blocks ≡ take n (filter (may_give (S.store store.now).geometry records.now (S.changing store.now).is_released) (range_with_len 0 (blocks_of (S.store store.now).geometry)))) }
{
    let mut blocks = BlockList::new(alloc);
    for b in 0..store.geometry().total() {
        if blocks.len() < n as usize && may_give(store, records, b) {
            blocks.push(BlockNo(b))?;
        }
    }
    Ok(blocks)
}

// The lowest inode from 2 on whose bit is clear.
fn lowest_inode(g: &Geometry, records: &[Option<Group>]) -> Option<u32>
    requires geometry { IsGeometry g.now }
    requires size { length records.now ≡ g.now.groups }
    ensures { result ≡ find (is_clear_inode g.now records.now) (range_with_len 2 (inodes_of g.now - 2)) }
{
    for i in 2..g.groups * g.ipg {
        if is_clear_inode(g, records, i) {
            return Some(i);
        }
    }
    None
}

// The same inode, if the call wants one.
fn wanted_inode(g: &Geometry, records: &[Option<Group>], inode: bool) -> Option<u32>
    requires geometry { IsGeometry g.now }
    requires size { length records.now ≡ g.now.groups }
    ensures { result ≡ (if inode then find (is_clear_inode g.now records.now) (range_with_len 2 (inodes_of g.now - 2)) else None) }
{
    if inode {
        lowest_inode(g, records)
    } else {
        None
    }
}

// What is free and in hand.
fn counts_of<S: MetaStore>(store: &S, records: &[Option<Group>], held: &[Hand]) -> Counts
    requires { length records.now ≡ (S.store store.now).geometry.groups }
    ensures { (blocks : Blocks) (tree : Tree) → AreRecords (reading_of (S.store store.now).geometry blocks) records.now
        → StandsFor (S.store store.now).geometry blocks tree held.now
        → AreCounts (S.store store.now).geometry (reading_of (S.store store.now).geometry blocks) tree (S.changing store.now).is_released held.now result }
{
    let g = store.geometry();
    let inodes = count_inodes(held);
    let blocks = count_blocks(held);
    Counts {
        free_inodes: sum_of(clear_inodes(g, records), inodes),
        free_blocks: sum_of(clear_blocks(g, records), blocks),
        released: sum_of(count_released(store, records), blocks),
        inodes_in_hand: sum_of(0, inodes),
        blocks_in_hand: sum_of(0, blocks),
    }
}

/// What a call is answered that wants an inode or none, and n blocks, by the records of the groups.
pub(crate) fn choose_among<S: MetaStore>(
    alloc: Global,
    store: &S,
    records: &[Option<Group>],
    inode: bool,
    n: u32,
    held: &[Hand],
) -> Result<Taken, Mem>
    requires { length records.now ≡ (S.store store.now).geometry.groups }
    ensures answer { (blocks : Blocks) (tree : Tree) → AreRecords (reading_of (S.store store.now).geometry blocks) records.now
        → StandsFor (S.store store.now).geometry blocks tree held.now
        → IfOk result (λ taken. taken ≡ answer_of (S.store store.now).geometry (reading_of (S.store store.now).geometry blocks) tree (S.changing store.now).is_released held.now inode n) }
    ensures hand { IfOk result (λ taken. IfGot taken (IsChosen (S.store store.now).geometry records.now (S.changing store.now).is_released)) }
{
    let counts = counts_of(store, records, held);
    if let Some(refusal) = refusal_of(inode, n, &counts) {
        return Ok(refusal);
    }
    let blocks = lowest_blocks(alloc, store, records, n)?;
    let inode = wanted_inode(store.geometry(), records, inode);
    Ok(Taken::Got(Hand { inode, blocks }))
}

/// What a call is answered that wants an inode or none, and n blocks; where it can have them, the lowest that
/// are free, may be given out now and are in no hand. Nothing is taken.
pub fn choose<S: MetaStore>(
    alloc: Global,
    store: &mut S,
    inode: bool,
    n: u32,
    held: &Hands,
) -> Result<Taken, StoreError>
    ensures answer { (tree : Tree) → IfSome (S.store store.old).content (λ image. StandsFor (S.store store.old).geometry (block image) tree held.now
        → IfOk result (λ taken. taken ≡ answer_of (S.store store.old).geometry (reading_of (S.store store.old).geometry (block image)) tree (S.changing store.old).is_released held.now inode n)) }
    ensures same { IsAsBefore (all_told (S.store store.old) (S.changing store.old)) (all_told (S.store store.new) (S.changing store.new)) }
    ensures failure { FailsJustAt (IsErrOf result Disk) (S.store store.old).disk (S.store store.new).disk }
{
    let records = read_records(alloc, store)?;
    let taken = choose_among(alloc, store, &records, inode, n, held.as_slice())?;
    Ok(taken)
}
