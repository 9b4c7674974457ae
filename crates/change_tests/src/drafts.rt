//! What is read with a change, and which deltas it holds.
ghost use Rattle.std.specs.Prelude.{◌≡◌, length, IfOk};

use crate::volume::{Bits, SMALLEST, group_of, has_deltas, has_group, inode};
use dir_blocks::Chunk;
use lufs_base::{BLOCK, BlockNo, Bytes, DeltaKind, DiskFault, Ino, Mem};
use meta_draft::Draft;
use meta_store::{Freed, MetaRead, PlainStore, RawWrite, StoreError};
use std::alloc::Global;
use volume_model::Dinode;

/// The root of a new volume.
const ROOT: Dinode = Dinode {
    mode: 0o040755,
    links: 2,
    uid: 0,
    gid: 0,
    size: 512,
    mtime: 1000,
    direct: [37, 0, 0, 0, 0, 0, 0, 0, 0, 0, 0, 0],
    indirect: [0, 0, 0],
    blocks: 1,
};

/// The group of a new volume.
const GROUP: Bits = (0, 29, 61, 7, [7, 0]);

/// A block, a place in it, and the byte there, where the blocks were filled with their numbers before the change.
const READ: &[(u32, usize, u8)] = &[
    (35, 3, 0x55),
    (35, 415, 0),
    (35, 416, 35),
    (36, 255, 36),
    (36, 256, 0x41),
    (36, 384, 36),
    (37, 0, b't'),
    (37, 1, b'o'),
    (37, 2, 37),
    (38, 0, 0),
    (38, 4087, 0),
    (38, 4088, 1),
    (38, 4091, 4),
    (38, 4092, 0),
    (39, 511, 39),
    (39, 512, 9),
    (39, 1023, 9),
    (39, 1024, 39),
    (40, 0, 40),
    (42, 3583, 42),
    (42, 3587, 2),
];

/// The deltas of the change, by kind, home and length.
const DELTAS: &[(DeltaKind, u64, u32)] = &[
    (DeltaKind::Group, 0x23000, 416),
    (DeltaKind::Inode, 0x24100, 128),
    (DeltaKind::LinkText, 0x25000, 2),
    (DeltaKind::Zero, 0x26000, 4096),
    (DeltaKind::Pointers, 0x26ff8, 4),
    (DeltaKind::Cancel, 0x28000, 4096),
    (DeltaKind::Chunk, 0x2ae00, 512),
];

// A volume whose blocks are filled with their numbers.
fn numbered_blocks(alloc: Global) -> Result<Vec<u8>, Mem>
    ensures { IfOk result (λ image. length image.items ≡ 405504) }
{
    let mut image = Vec::new(alloc);
    for b in 0..99u8 {
        image.extend_from_slice(&[b; BLOCK])?;
    }
    if image.len() != 405_504 {
        return Err(Mem);
    }
    Ok(image)
}

// Reads a byte of a block, if the volume has it.
fn byte<S: MetaRead>(
    draft: &Draft,
    store: &mut S,
    b: u32,
    place: usize,
) -> Result<Option<u8>, DiskFault> {
    let mut out = [0xee; BLOCK];
    if b < store.geometry().total() {
        draft.block(store, BlockNo(b), &mut out)?;
    }
    Ok(out.get(place).copied())
}

fn are_read<S: MetaRead>(draft: &Draft, store: &mut S) -> Result<bool, DiskFault> {
    for (b, place, want) in READ {
        if byte(draft, store, *b, *place)? != Some(*want) {
            return Ok(false);
        }
    }
    Ok(true)
}

// The group, the root, and the last chunk of block 42.
fn put_records(alloc: Global, draft: &mut Draft) -> Result<(), Mem> {
    draft.put_group(alloc, &SMALLEST, 0, &group_of(&GROUP))?;
    draft.put_inode(alloc, &SMALLEST, Ino(2), Some(&ROOT))?;
    let chunk = Chunk::new_directory(alloc, Ino(2), Ino(2))?;
    draft.put_chunk(alloc, BlockNo(42), 7, &chunk)
}

// The text of a link, a pointer block with one number, and a sector of block 39.
fn put_parts(alloc: Global, draft: &mut Draft) -> Result<(), Mem> {
    draft.put_text(alloc, BlockNo(37), b"to")?;
    draft.put_zeros(alloc, BlockNo(38))?;
    draft.put_pointers(alloc, BlockNo(38), 1022, &[0x0102_0304])?;
    let bytes = Bytes::from_slice(alloc, &[9; 512])?;
    draft.write(RawWrite { first: 313, bytes })
}

// Blocks 40 and 41, of which the first one has a text.
fn free_two(alloc: Global, draft: &mut Draft) -> Result<(), Mem> {
    draft.put_text(alloc, BlockNo(40), b"gone")?;
    let block = BlockNo(40);
    draft.free(alloc, Freed { block, meta: true })?;
    let block = BlockNo(41);
    draft.free(alloc, Freed { block, meta: false })?;
    draft.take(BlockNo(37))
}

// Whether the change is read as it is made.
fn is_read<S: MetaRead>(
    alloc: Global,
    draft: &mut Draft,
    store: &mut S,
) -> Result<bool, StoreError> {
    put_records(alloc, draft)?;
    put_parts(alloc, draft)?;
    free_two(alloc, draft)?;
    Ok(
        are_read(draft, store)?
            && inode(draft, store, 2)? == Some(ROOT)
            && inode(draft, store, 3)?.is_none()
            && has_group(draft, store, &GROUP)?
            && has_deltas(draft, DELTAS),
    )
}

fn is_drafted(alloc: Global) -> Result<bool, StoreError> {
    let mut store = PlainStore::new(&SMALLEST, numbered_blocks(alloc)?);
    let mut draft = Draft::new(alloc);
    let read = is_read(alloc, &mut draft, &mut store)?;
    let change = draft.into_change();
    Ok(read && change.freed.len() == 2 && change.taken.as_slice() == &[37][..])
}

#[test]
fn a_change_drafted(rt: HostRuntime) -> Result<(), std::test::Fail> {
    assert!(rt; is_drafted(rt.alloc())?);
    Ok(())
}
