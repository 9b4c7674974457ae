//! A directory and a file, freed with their blocks in a draft.
ghost use Rattle.std.specs.Prelude.{◌≡◌, length, IfOk};

use crate::volume::{Bits, group_of, has_deltas, has_freed, has_group, inode};
use file_map::drop_inode;
use lufs_base::{BlockNo, DeltaKind, Geometry, Ino, Mem};
use meta_draft::Draft;
use meta_store::{PlainStore, StoreError};
use std::alloc::Global;
use volume_model::Dinode;

/// A volume of 163 blocks. Group 0 begins with block 35, and group 1 with block 99; an inode block and the body blocks
/// follow.
const OF_TWO: Geometry = Geometry {
    version: 1,
    groups: 2,
    bpg: 64,
    ipg: 32,
    log: 256,
};

/// The groups: of the first inodes 0, 1 and 3 and blocks 0, 1, 5 and 6 are in use, of the second inode 2 and blocks 0, 1, 6,
/// 7 and 8.
const GROUPS: [Bits; 2] = [
    (0, 29, 60, 0x0b, [0x63, 0]),
    (1, 31, 59, 0x04, [0xc3, 0x01]),
];

/// The groups after both inodes were freed.
const CLEARED: [Bits; 2] = [(0, 30, 62, 0x03, [0x03, 0]), (1, 32, 62, 0, [0x03, 0])];

/// Inode 3: a directory in block 40.
const DIRECTORY: Dinode = Dinode {
    mode: 0o040755,
    links: 1,
    uid: 0,
    gid: 0,
    size: 512,
    mtime: 1000,
    direct: [40, 0, 0, 0, 0, 0, 0, 0, 0, 0, 0, 0],
    indirect: [0, 0, 0],
    blocks: 1,
};

/// Inode 34: a file, at 0 block 41, at 11 block 105, and at 13 block 107, by pointer block 106.
const FILE: Dinode = Dinode {
    mode: 0o100644,
    links: 1,
    uid: 0,
    gid: 0,
    size: 57_344,
    mtime: 1000,
    direct: [41, 0, 0, 0, 0, 0, 0, 0, 0, 0, 0, 105],
    indirect: [106, 0, 0],
    blocks: 4,
};

/// What is freed of an inode: the blocks, each with whether it held metadata, and the deltas that are left of the change.
type Gone<'a> = (u32, &'a [(u32, bool)], &'a [(DeltaKind, u64, u32)]);

const GONE: &[Gone] = &[
    (
        3,
        &[(40, true)],
        &[
            (DeltaKind::Group, 0x23000, 416),
            (DeltaKind::Inode, 0x24180, 128),
            (DeltaKind::Cancel, 0x28000, 4096),
            (DeltaKind::Group, 0x63000, 416),
            (DeltaKind::Inode, 0x64100, 128),
            (DeltaKind::Pointers, 0x6a004, 4),
        ],
    ),
    (
        34,
        &[(41, false), (106, true), (105, false), (107, false)],
        &[
            (DeltaKind::Group, 0x23000, 416),
            (DeltaKind::Inode, 0x24180, 128),
            (DeltaKind::Group, 0x63000, 416),
            (DeltaKind::Inode, 0x64100, 128),
            (DeltaKind::Cancel, 0x6a000, 4096),
        ],
    ),
    (4, &[], UNCHANGED),
    (64, &[], UNCHANGED),
];

/// The deltas of the draft before anything is freed.
const UNCHANGED: &[(DeltaKind, u64, u32)] = &[
    (DeltaKind::Group, 0x23000, 416),
    (DeltaKind::Inode, 0x24180, 128),
    (DeltaKind::Group, 0x63000, 416),
    (DeltaKind::Inode, 0x64100, 128),
    (DeltaKind::Pointers, 0x6a004, 4),
];

// Puts the groups, the two inodes and the pointer block into the draft.
fn fill(alloc: Global, draft: &mut Draft) -> Result<(), Mem> {
    draft.put_group(alloc, &OF_TWO, 0, &group_of(&GROUPS[0]))?;
    draft.put_group(alloc, &OF_TWO, 1, &group_of(&GROUPS[1]))?;
    draft.put_inode(alloc, &OF_TWO, Ino(3), Some(&DIRECTORY))?;
    draft.put_inode(alloc, &OF_TWO, Ino(34), Some(&FILE))?;
    draft.put_pointers(alloc, BlockNo(106), 1, &[107])
}

fn image_of(alloc: Global) -> Result<Vec<u8>, Mem>
    ensures { IfOk result (λ image. length image.items ≡ 667648) }
{
    Ok(vec![in alloc; 0u8; 667_648]?)
}

// Whether freeing the inode leaves this of the change.
fn goes(
    alloc: Global,
    draft: &mut Draft,
    store: &mut PlainStore,
    gone: &Gone,
) -> Result<bool, StoreError> {
    let (i, blocks, deltas) = *gone;
    fill(alloc, draft)?;
    drop_inode(alloc, draft, store, Ino(i))?;
    Ok(has_freed(draft, blocks) && has_deltas(draft, deltas))
}

fn are_gone(alloc: Global, store: &mut PlainStore) -> Result<bool, StoreError> {
    for gone in GONE {
        if !goes(alloc, &mut Draft::new(alloc), store, gone)? {
            return Ok(false);
        }
    }
    Ok(true)
}

fn drops(
    alloc: Global,
    draft: &mut Draft,
    store: &mut PlainStore,
    i: u32,
) -> Result<bool, StoreError> {
    drop_inode(alloc, draft, store, Ino(i))?;
    Ok(inode(draft, store, i)?.is_none())
}

// Whether both inodes are freed, and their bits and those of their blocks cleared.
fn are_cleared(
    alloc: Global,
    draft: &mut Draft,
    store: &mut PlainStore,
) -> Result<bool, StoreError> {
    fill(alloc, draft)?;
    Ok(
        drops(alloc, draft, store, 34)?
            && drops(alloc, draft, store, 3)?
            && has_group(draft, store, &CLEARED[0])?
            && has_group(draft, store, &CLEARED[1])?,
    )
}

fn are_freed(alloc: Global) -> Result<bool, StoreError> {
    let mut store = PlainStore::new(&OF_TWO, image_of(alloc)?);
    Ok(are_gone(alloc, &mut store)? && are_cleared(alloc, &mut Draft::new(alloc), &mut store)?)
}

#[test]
fn inodes_freed(rt: HostRuntime) -> Result<(), std::test::Fail> {
    assert!(rt; are_freed(rt.alloc())?);
    Ok(())
}
