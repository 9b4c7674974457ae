//! A file with holes, direct blocks and a pointer block, read through a draft.

use crate::volume::{SMALLEST, Words, failing, has_freed, image_of};
use file_map::{attach, blocks_needed, cut, map};
use lufs_base::{BlockNo, Ino};
use meta_draft::Draft;
use meta_store::{MetaRead, PlainStore, StoreError};
use std::alloc::Global;

/// Inode 3 is a file of 14 blocks: at 0 block 38, at 11 block 39, and at 13 block 41, by pointer block 40. Inode 4 is
/// a file of one byte, in block 42, inode 5 an empty one, and inode 6 one of 14 blocks that are all holes.
const MADE: &[Words] = &[
    (35, 0, &[0x0009_0255, 0, 26, 57]),
    (35, 8, &[0x7b00_0000]),
    (35, 40, &[0xfb00_0000]),
    (36, 96, &[0x81a4_0001, 0, 0, 0, 0, 57344, 0, 1000, 38]),
    (36, 115, &[39, 40, 0, 0, 4]),
    (36, 128, &[0x81a4_0001, 0, 0, 0, 0, 1, 0, 1000, 42]),
    (36, 151, &[1]),
    (36, 160, &[0x81a4_0001, 0, 0, 0, 0, 0, 0, 1000]),
    (36, 192, &[0x81a4_0001, 0, 0, 0, 0, 57344, 0, 1000]),
    (40, 1, &[41]),
];

/// The most bytes of a file.
const GREATEST: u64 = 4_243_456;

/// The inode, an index, and the block there, 0 for a hole.
type Mapped = (u32, u32, u32);

const MAPPED: &[Mapped] = &[
    (3, 0, 38),
    (3, 1, 0),
    (3, 11, 39),
    (3, 12, 0),
    (3, 13, 41),
    (3, 1036, 0),
    (4, 0, 42),
    (5, 0, 0),
    (7, 0, 0),
    (40, u32::MAX, 0),
];

/// What is asked and answered of bytes: the inode, the first byte, how many, the indexes, and the pointer blocks.
type Lacks<'a> = (u32, u64, u64, &'a [u32], u32);

const LACKS: &[Lacks] = &[
    (3, 0, 8193, &[1, 2], 0),
    (3, 4095, 1, &[], 0),
    (3, 45056, 12289, &[12, 14], 0),
    (4, 0, 49152, &[1, 2, 3, 4, 5, 6, 7, 8, 9, 10, 11], 0),
    (4, 49151, 2, &[11, 12], 1),
    (5, 4239360, 4096, &[1035], 1),
    (5, 4096, 0, &[], 0),
];

/// A block that a file gets: the inode, the index, the pointer block that it lacks, and an index that stays a hole.
type Attached<'a> = (u32, u32, &'a [BlockNo], u32);

const ATTACHED: &[Attached] = &[
    (3, 1, &[], 2),
    (3, 12, &[], 14),
    (6, 11, &[], 10),
    (6, 12, &[BlockNo(44)], 13),
    (6, 13, &[BlockNo(44)], 12),
];

/// A file that gets another size: the inode, the size, the blocks that are freed with whether they held metadata, an
/// index, and the block that is left there, 0 for a hole.
type Cut<'a> = (u32, u64, &'a [(u32, bool)], u32, u32);

const CUT: &[Cut] = &[
    (3, 61440, &[], 13, 41),
    (3, 57343, &[], 13, 41),
    (3, 53248, &[(41, false)], 13, 0),
    (3, 49152, &[(40, true), (41, false)], 11, 39),
    (3, 45056, &[(40, true), (39, false), (41, false)], 11, 0),
    (
        3,
        0,
        &[(40, true), (38, false), (39, false), (41, false)],
        0,
        0,
    ),
    (4, 0, &[(42, false)], 0, 0),
    (6, 53248, &[], 12, 0),
];

/// An index of inode 3, the read that fails, and the block there. The pointer block is read only where the index needs
/// it.
const FAILING: &[(u32, u64, Result<u32, StoreError>)] = &[
    (11, 1, Err(StoreError::Disk)),
    (11, 2, Ok(39)),
    (13, 1, Err(StoreError::Disk)),
    (13, 2, Err(StoreError::Disk)),
    (13, 3, Ok(41)),
];

// The block at an index, 0 for a hole.
fn block_at<S: MetaRead>(
    alloc: Global,
    draft: &Draft,
    store: &mut S,
    i: u32,
    index: u32,
) -> Result<u32, StoreError> {
    let block = map(alloc, draft, store, Ino(i), index)?;
    Ok(block.unwrap_or(BlockNo(0)).0)
}

fn are_mapped<S: MetaRead>(
    alloc: Global,
    draft: &Draft,
    store: &mut S,
) -> Result<bool, StoreError> {
    for (i, index, block) in MAPPED {
        if block_at(alloc, draft, store, *i, *index)? != *block {
            return Ok(false);
        }
    }
    Ok(true)
}

fn lacks<S: MetaRead>(
    alloc: Global,
    draft: &Draft,
    store: &mut S,
    lacks: &Lacks,
) -> Result<bool, StoreError> {
    let (i, offset, count, indexes, pointers) = *lacks;
    if offset > GREATEST || count > GREATEST - offset {
        return Ok(false);
    }
    let needed = blocks_needed(alloc, draft, store, Ino(i), offset, count)?;
    Ok(needed.indexes.as_slice() == indexes && needed.pointers == pointers)
}

fn are_lacking<S: MetaRead>(
    alloc: Global,
    draft: &Draft,
    store: &mut S,
) -> Result<bool, StoreError> {
    for row in LACKS {
        if !lacks(alloc, draft, store, row)? {
            return Ok(false);
        }
    }
    Ok(true)
}

fn attaches<S: MetaRead>(
    alloc: Global,
    draft: &mut Draft,
    store: &mut S,
    attached: &Attached,
) -> Result<bool, StoreError> {
    let (i, index, pointers, hole) = *attached;
    attach(alloc, draft, store, Ino(i), index, BlockNo(43), pointers)?;
    let there = block_at(alloc, draft, store, i, index)?;
    Ok(there == 43 && block_at(alloc, draft, store, i, hole)? == 0)
}

fn are_attached<S: MetaRead>(alloc: Global, store: &mut S) -> Result<bool, StoreError> {
    for row in ATTACHED {
        if !attaches(alloc, &mut Draft::new(alloc), store, row)? {
            return Ok(false);
        }
    }
    Ok(true)
}

fn cuts<S: MetaRead>(
    alloc: Global,
    draft: &mut Draft,
    store: &mut S,
    row: &Cut,
) -> Result<bool, StoreError> {
    let (i, size, freed, index, left) = *row;
    if size > GREATEST {
        return Ok(false);
    }
    cut(alloc, draft, store, Ino(i), size)?;
    Ok(block_at(alloc, draft, store, i, index)? == left && has_freed(draft, freed))
}

fn are_cut<S: MetaRead>(alloc: Global, store: &mut S) -> Result<bool, StoreError> {
    for row in CUT {
        if !cuts(alloc, &mut Draft::new(alloc), store, row)? {
            return Ok(false);
        }
    }
    Ok(true)
}

// Whether the files are read and changed as the tables say, each change in a draft of its own.
fn are_served(alloc: Global) -> Result<bool, StoreError> {
    let mut store = PlainStore::new(&SMALLEST, image_of(alloc, MADE)?);
    let draft = Draft::new(alloc);
    Ok(
        are_mapped(alloc, &draft, &mut store)?
            && are_lacking(alloc, &draft, &mut store)?
            && are_attached(alloc, &mut store)?
            && are_cut(alloc, &mut store)?,
    )
}

// The block at an index of inode 3, where the disk fails at this read.
fn mapped_after(alloc: Global, index: u32, read: u64) -> Result<u32, StoreError> {
    let mut store = failing(alloc, MADE, read)?;
    block_at(alloc, &Draft::new(alloc), &mut store, 3, index)
}

#[test]
fn files_read_and_changed(rt: HostRuntime) -> Result<(), std::test::Fail> {
    let alloc = rt.alloc();
    assert!(rt; are_served(alloc)?);
    for (index, read, block) in FAILING {
        assert_eq!(rt;
            mapped_after(alloc, *index, *read),
            *block,
            "{index}, {read}"
        );
    }
    Ok(())
}
