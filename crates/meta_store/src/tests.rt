//! Tests of reading, laying, merging and applying.
ghost use Rattle.std.specs.Prelude.{◌≡◌, ◌%◌, ◌↔◌, ◌≤◌, ◌+◌, length, take, IfOk, IsTrue, All};
ghost use Rattle.volume_model.specs.Worked.{smallest};
ghost use Rattle.meta_store.specs.Laid.{IsWithinBlock};
ghost use Rattle.meta_store.specs.Worked.{record_with, taking};

use crate::{
    Change, LaidDeltas, MetaRead, MetaStore, PlainStore, ReplayedDisk, StoreError, merged,
};
use lufs_base::{
    BLOCK, BlockNo, Bytes, Delta, DeltaKind, DeltaList, DiskFault, Geometry, Mem, are_zeros,
};
use sector_disk::{Disk, Fail, MemDisk};
use std::alloc::Global;
use volume_model::{Tx, TxList};

/// A volume of 99 blocks: group block 35, inode block 36, and body blocks from 37 on.
const SMALLEST: Geometry = Geometry {
    version: 1,
    groups: 1,
    bpg: 64,
    ipg: 32,
    log: 256,
};

/// A block of each kind, and more body blocks.
const BLOCKS: [u8; 8] = [0, 2, 3, 35, 36, 37, 38, 98];

/// A delta: its transaction, from 1, its kind, its block, its place there, its length, and the byte that
/// fills it.
type Laying = (u32, DeltaKind, u32, u32, u32, u8);

/// The places of a block from one up to another, and the byte that fills them.
type Span = (u8, usize, usize, u8);

/// Deltas of a log, and what is read where they are laid over.
const LAID: &[(&[Laying], &[Span])] = &[
    // No log.
    (&[], &[]),
    // A delta of each kind.
    (
        &[
            (1, DeltaKind::Group, 35, 0, 416, 0xa0),
            (1, DeltaKind::Inode, 36, 256, 128, 0xa1),
            (1, DeltaKind::Chunk, 37, 3584, 512, 0xa2),
            (1, DeltaKind::Pointers, 38, 4092, 4, 0xa3),
            (1, DeltaKind::LinkText, 98, 0, 1, 0xa4),
            (2, DeltaKind::Zero, 3, 0, 4096, 0xa5),
            (3, DeltaKind::Cancel, 2, 0, 4096, 0xa6),
        ],
        &[
            (35, 0, 416, 0xa0),
            (36, 256, 384, 0xa1),
            (37, 3584, 4096, 0xa2),
            (38, 4092, 4096, 0xa3),
            (98, 0, 1, 0xa4),
            (3, 0, 4096, 0),
        ],
    ),
    // The later one of two transactions.
    (
        &[
            (1, DeltaKind::Chunk, 37, 0, 512, 1),
            (1, DeltaKind::Chunk, 37, 512, 512, 2),
            (2, DeltaKind::Pointers, 37, 508, 8, 4),
        ],
        &[(37, 0, 508, 1), (37, 508, 516, 4), (37, 516, 1024, 2)],
    ),
    // A zero block with a chunk laid over it.
    (
        &[
            (1, DeltaKind::Chunk, 38, 0, 512, 7),
            (2, DeltaKind::Zero, 38, 0, 4096, 0),
            (2, DeltaKind::Chunk, 38, 1024, 512, 5),
        ],
        &[(38, 0, 4096, 0), (38, 1024, 1536, 5)],
    ),
    // A cancel makes older deltas of its block void, and no others.
    (
        &[
            (1, DeltaKind::Chunk, 37, 0, 512, 1),
            (1, DeltaKind::Chunk, 38, 0, 512, 2),
            (2, DeltaKind::Cancel, 37, 0, 4096, 0),
        ],
        &[(38, 0, 512, 2)],
    ),
    // What is logged with a cancel or after it is laid.
    (
        &[
            (1, DeltaKind::Chunk, 37, 0, 512, 1),
            (2, DeltaKind::Cancel, 37, 0, 4096, 0),
            (2, DeltaKind::Chunk, 37, 512, 512, 2),
            (3, DeltaKind::Chunk, 37, 1024, 512, 3),
        ],
        &[(37, 512, 1024, 2), (37, 1024, 1536, 3)],
    ),
];

/// A merged delta: its kind, its home, its length, and its first and last bytes.
type Merged = (DeltaKind, u64, u32, Option<u8>, Option<u8>);

/// Deltas, and what they are merged to.
const MERGED: &[(&[Laying], &[Merged])] = &[
    // Homes rise.
    (
        &[
            (0, DeltaKind::Chunk, 37, 512, 512, 1),
            (0, DeltaKind::Group, 35, 0, 416, 2),
            (0, DeltaKind::Chunk, 37, 0, 512, 3),
        ],
        &[
            (DeltaKind::Group, 0x23000, 416, Some(2), Some(2)),
            (DeltaKind::Chunk, 0x25000, 512, Some(3), Some(3)),
            (DeltaKind::Chunk, 0x25200, 512, Some(1), Some(1)),
        ],
    ),
    // A later one replaces.
    (
        &[
            (0, DeltaKind::Inode, 36, 256, 128, 1),
            (0, DeltaKind::Inode, 36, 384, 128, 2),
            (0, DeltaKind::Inode, 36, 256, 128, 3),
        ],
        &[
            (DeltaKind::Inode, 0x24100, 128, Some(3), Some(3)),
            (DeltaKind::Inode, 0x24180, 128, Some(2), Some(2)),
        ],
    ),
    // Pointers that touch or overlap.
    (
        &[
            (0, DeltaKind::Pointers, 38, 16, 8, 1),
            (0, DeltaKind::Pointers, 38, 32, 8, 2),
            (0, DeltaKind::Pointers, 38, 48, 8, 3),
            (0, DeltaKind::Pointers, 38, 24, 12, 4),
        ],
        &[
            (DeltaKind::Pointers, 0x26010, 24, Some(1), Some(2)),
            (DeltaKind::Pointers, 0x26030, 8, Some(3), Some(3)),
        ],
    ),
    // Pointers at the end of a block and the start of the next.
    (
        &[
            (0, DeltaKind::Pointers, 38, 4092, 4, 1),
            (0, DeltaKind::Pointers, 39, 0, 4, 2),
        ],
        &[
            (DeltaKind::Pointers, 0x26ffc, 4, Some(1), Some(1)),
            (DeltaKind::Pointers, 0x27000, 4, Some(2), Some(2)),
        ],
    ),
    // A zero block first.
    (
        &[
            (0, DeltaKind::Chunk, 38, 512, 512, 1),
            (0, DeltaKind::Zero, 38, 0, 4096, 0),
            (0, DeltaKind::Chunk, 38, 0, 512, 2),
        ],
        &[
            (DeltaKind::Zero, 0x26000, 4096, None, None),
            (DeltaKind::Chunk, 0x26000, 512, Some(2), Some(2)),
        ],
    ),
    // Another kind goes.
    (
        &[
            (0, DeltaKind::Chunk, 38, 0, 512, 1),
            (0, DeltaKind::Chunk, 39, 0, 512, 2),
            (0, DeltaKind::Pointers, 38, 512, 8, 3),
        ],
        &[
            (DeltaKind::Pointers, 0x26200, 8, Some(3), Some(3)),
            (DeltaKind::Chunk, 0x27000, 512, Some(2), Some(2)),
        ],
    ),
    // A cancel alone.
    (
        &[
            (0, DeltaKind::Zero, 38, 0, 4096, 0),
            (0, DeltaKind::Chunk, 38, 512, 512, 1),
            (0, DeltaKind::Chunk, 39, 0, 512, 2),
            (0, DeltaKind::Cancel, 38, 0, 4096, 0),
        ],
        &[
            (DeltaKind::Cancel, 0x26000, 4096, None, None),
            (DeltaKind::Chunk, 0x27000, 512, Some(2), Some(2)),
        ],
    ),
];

/// Blocks, and whether each may be given where the blocks up to 37 and the last one are in use.
const RELEASED: &[(u32, bool)] = &[
    (0, false),
    (34, false),
    (35, false),
    (36, false),
    (37, false),
    (38, true),
    (97, true),
    (98, false),
];

// A volume whose blocks are filled with their numbers.
fn numbered_blocks(alloc: Global) -> Result<Vec<u8>, Mem>
    ensures { IfOk result (λ image. length image.items ≡ 405504) }
{
    let mut image = Vec::new(alloc);
    for b in 0..99u8 {
        image.extend_from_slice(&[b; BLOCK])?;
    }
    if image.len() != 405_504 {
        return Err(Mem);
    }
    Ok(image)
}

fn delta_of(alloc: Global, laying: &Laying) -> Result<Delta, Mem> {
    let (_, kind, block, place, len, byte) = *laying;
    let filled = if kind.has_bytes() { len as usize } else { 0 };
    Ok(Delta {
        kind,
        home: 4096 * u64::from(block) + u64::from(place),
        len,
        bytes: Bytes::from_vec(vec![in alloc; byte; filled]?),
    })
}

// The deltas of a transaction.
fn deltas_of(alloc: Global, tid: u32, layings: &[Laying]) -> Result<DeltaList, Mem> {
    let mut deltas = DeltaList::new(alloc);
    for laying in layings {
        if laying.0 == tid {
            deltas.push(delta_of(alloc, laying)?)?;
        }
    }
    Ok(deltas)
}

// A log of three transactions.
fn log_of(alloc: Global, layings: &[Laying]) -> Result<TxList, Mem> {
    let mut log = TxList::new(alloc);
    for tid in 1..4 {
        log.push(Tx {
            tid,
            first: 0,
            sectors: 1,
            deltas: deltas_of(alloc, tid, layings)?,
        })?;
    }
    Ok(log)
}

// The volume of numbered blocks on a disk whose calls fail so, with these deltas laid over it.
fn over(
    alloc: Global,
    fails: &[Fail],
    layings: &[Laying],
) -> Result<ReplayedDisk<MemDisk>, StoreError> {
    let laid = LaidDeltas::new(alloc, &log_of(alloc, layings)?)?;
    let disk = MemDisk::new(numbered_blocks(alloc)?, Vec::from_slice(alloc, fails)?);
    if disk.sectors() < 792 {
        return Err(StoreError::Mem);
    }
    Ok(ReplayedDisk::over(disk, &SMALLEST, laid))
}

// Reads a block, if the volume has it.
fn read<M: MetaRead>(store: &mut M, b: u32) -> Result<[u8; BLOCK], DiskFault> {
    let mut out = [0xee; BLOCK];
    if b < store.geometry().total() {
        store.block(BlockNo(b), &mut out)?;
    }
    Ok(out)
}

// Reads a block as the second of two in a row, if the volume has them.
fn read_second<M: MetaRead>(store: &mut M, b: u32) -> Result<[u8; BLOCK], DiskFault> {
    let mut row = [0xee; 2 * BLOCK];
    if 0 < b && b < store.geometry().total() {
        store.blocks(BlockNo(b - 1), &mut row)?;
    }
    let mut out = [0; BLOCK];
    out.copy_from_slice(&row[BLOCK..]);
    Ok(out)
}

// A numbered block with these spans filled.
fn filled(b: u8, spans: &[Span]) -> [u8; BLOCK] {
    let mut block = [b; BLOCK];
    for (of, from, to, byte) in spans {
        for place in *from..*to {
            if *of == b && place < BLOCK {
                block[place] = *byte;
            }
        }
    }
    block
}

// Whether both reads tell the blocks with just these spans filled.
fn tells<M: MetaRead>(store: &mut M, spans: &[Span]) -> Result<bool, DiskFault> {
    for b in BLOCKS {
        let block = filled(b, spans);
        let b = u32::from(b);
        if read(store, b)? != block {
            return Ok(false);
        }
        if 0 < b && read_second(store, b)? != block {
            return Ok(false);
        }
    }
    Ok(true)
}

fn tells_image(alloc: Global) -> Result<bool, StoreError> {
    let mut store = PlainStore::new(&SMALLEST, numbered_blocks(alloc)?);
    Ok(tells(&mut store, &[])? && !tells(&mut store, &[(98, 0, 4096, 1)])? && store.faults() == 0)
}

fn tells_laid(alloc: Global, layings: &[Laying], spans: &[Span]) -> Result<bool, StoreError> {
    let mut store = over(alloc, &[], layings)?;
    Ok(tells(&mut store, spans)?)
}

// Whether a read of block 37 does so, and leaves so many faults.
fn does<M: MetaRead>(store: &mut M, works: bool, faults: u64) -> bool {
    let right = match read(store, 37) {
        Ok(out) => works && out[511] == 1 && out[512] == 37,
        Err(DiskFault) => !works,
    };
    right && store.faults() == faults
}

// Whether just the second read fails, and is counted.
fn fails_once(alloc: Global) -> Result<bool, StoreError> {
    let mut store = over(
        alloc,
        &[Fail::Read(2)],
        &[(1, DeltaKind::Chunk, 37, 0, 512, 1)],
    )?;
    let told = does(&mut store, true, 0) && does(&mut store, false, 1) && does(&mut store, true, 1);
    Ok(told && store.into_disk().faults() == 1)
}

#[test]
fn blocks_read(rt: HostRuntime) -> Result<(), std::test::Fail> {
    let alloc = rt.alloc();
    assert!(rt; tells_image(alloc)? && fails_once(alloc)?);
    for (layings, spans) in LAID {
        assert!(rt; tells_laid(alloc, layings, spans)?, "{layings:?}");
    }
    Ok(())
}

fn is_within_block(delta: &Delta) -> bool
    ensures { IsTrue result ↔ IsWithinBlock delta.now }
{
    (delta.home % 4096) as usize + delta.len as usize <= BLOCK
}

fn are_within_blocks(deltas: &[Delta]) -> bool
    ensures { IsTrue result → All IsWithinBlock deltas.now }
{
    for delta in deltas {
        if !is_within_block(delta) {
            return false;
        }
    }
    true
}

// These deltas merged, one after another.
fn merged_all(alloc: Global, layings: &[Laying]) -> Result<Vec<Delta>, Mem> {
    let mut all = Vec::new(alloc);
    for laying in layings {
        let delta = delta_of(alloc, laying)?;
        if is_within_block(&delta) && are_within_blocks(all.as_slice()) {
            all = merged(alloc, all.as_slice(), &delta)?;
        }
    }
    Ok(all)
}

fn is_merged(delta: &Delta, want: &Merged) -> bool {
    let bytes = delta.bytes.as_slice();
    let ends = (bytes.first().copied(), bytes.last().copied());
    (delta.kind, delta.home, delta.len, ends.0, ends.1) == *want
}

// Whether these deltas are merged to just those.
fn merges(alloc: Global, layings: &[Laying], want: &[Merged]) -> Result<bool, Mem> {
    let all = merged_all(alloc, layings)?;
    Ok(
        all.len() == want.len()
            && all
                .as_slice()
                .iter()
                .zip(want)
                .all(|(delta, other)| is_merged(delta, other)),
    )
}

// The smallest volume with its group record, in which the blocks up to 37 and the last one are in use, and else zeros.
fn with_group(alloc: Global) -> Result<Vec<u8>, Mem>
    ensures { IfOk result (λ image. length image.items ≡ 405504) }
{
    let mut image = vec![in alloc; 0u8; 405_504]?;
    image[143_360..143_364].copy_from_slice(&[0, 9, 2, 0x55]);
    image[143_392] = 3;
    image[143_520] = 0x07;
    image[143_527] = 0x80;
    Ok(image)
}

// Applies no change.
fn apply_nothing<S: MetaStore>(alloc: Global, store: &mut S) -> Result<(), StoreError> {
    store.apply(alloc, &Change::new(alloc))
}

fn are_released(store: &PlainStore) -> bool {
    RELEASED.iter().all(|(b, want)| *b < store.geometry().total()
        && store.is_released(BlockNo(*b)) == *want)
}

// Whether just the blocks that aren't in use may be given, after a change of nothing.
fn releases(alloc: Global) -> Result<bool, StoreError> {
    let mut store = PlainStore::new(&SMALLEST, with_group(alloc)?);
    apply_nothing(alloc, &mut store)?;
    Ok(are_released(&store))
}

// The record of the smallest volume's group, with these bits of its first blocks.
fn group_record(alloc: Global, first: u8) -> Result<Vec<u8>, Mem>
    ensures { IfOk result (λ bytes. bytes.items ≡ record_with first) }
{
    let mut record = Vec::from_slice(alloc, &[0, 9, 2, 0x55])?;
    record.extend_from_slice(&[0; 28])?;
    record.push(3)?;
    record.extend_from_slice(&[0; 127])?;
    record.push(first)?;
    record.extend_from_slice(&[0; 6])?;
    record.push(0x80)?;
    record.extend_from_slice(&[0; 248])?;
    Ok(record)
}

// The change that takes block 38 where just the first three bits are set.
fn taking(alloc: Global) -> Result<Change, Mem>
    ensures { IfOk result (λ change. change ≡ taking) }
{
    let bytes = Bytes::from_vec(group_record(alloc, 0x0f)?);
    let mut change = Change::new(alloc);
    change.deltas.push(Delta {
        kind: DeltaKind::Group,
        home: 143_360,
        len: 416,
        bytes,
    })?;
    change.taken.push(BlockNo(38))?;
    Ok(change)
}

// Whether a block begins with the bytes of a group record.
fn begins_with(block: &[u8], bytes: &[u8]) -> bool
    requires { 416 ≤ length block.now }
    ensures { IsTrue result → take 416 block.now ≡ bytes.now }
{
    &block[..416] == bytes
}

// Takes block 38 if the volume has no inodes and just its reserved blocks are in use, and answers whether it did.
fn take_block(alloc: Global, store: &mut PlainStore) -> Result<bool, StoreError>
    requires { (⟦<PlainStore as MetaRead>⟧.store store.old).geometry ≡ smallest }
{
    let mut inodes = [0; BLOCK];
    store.block(BlockNo(36), &mut inodes)?;
    let mut group = [0; BLOCK];
    store.block(BlockNo(35), &mut group)?;
    if !are_zeros(&inodes) {
        return Ok(false);
    }
    if !begins_with(&group, group_record(alloc, 0x07)?.as_slice()) {
        return Ok(false);
    }
    if !store.is_released(BlockNo(38)) {
        return Ok(false);
    }
    store.apply(alloc, &taking(alloc)?)?;
    Ok(true)
}

// Whether block 38 is taken.
fn takes(alloc: Global) -> Result<bool, StoreError> {
    let mut store = PlainStore::new(&SMALLEST, with_group(alloc)?);
    let taken = take_block(alloc, &mut store)?;
    let record = group_record(alloc, 0x0f)?;
    let mut group = [0; BLOCK];
    store.block(BlockNo(35), &mut group)?;
    let given = store.is_released(BlockNo(38)) || !store.is_released(BlockNo(39));
    Ok(taken && begins_with(&group, record.as_slice()) && !given)
}

#[test]
fn changes_merged_and_applied(rt: HostRuntime) -> Result<(), std::test::Fail> {
    let alloc = rt.alloc();
    for (layings, want) in MERGED {
        assert!(rt; merges(alloc, layings, want)?, "{layings:?}");
    }
    assert!(rt; releases(alloc)? && takes(alloc)?);
    Ok(())
}
