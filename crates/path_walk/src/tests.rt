//! Tests: paths walked over a small volume in memory.
ghost use Rattle.std.specs.Prelude.{◌≡◌, length, IfOk};

use crate::{WalkError, Walked, walk};
use lufs_base::{Geometry, Ino, Mem};
use meta_store::{LaidDeltas, PlainStore, ReplayedDisk, StoreError};
use sector_disk::{Disk, Fail, MemDisk};
use std::alloc::Global;
use tree_types::{Cred, PathText, Refusal};
use volume_model::TxList;

/// A volume of 99 blocks: inode block 36, and body blocks from 37 on.
const SMALLEST: Geometry = Geometry {
    version: 1,
    groups: 1,
    bpg: 64,
    ipg: 32,
    log: 256,
};

/// Numbers of 32 bits that stand in a block, from one place on: the block, which of its numbers the first of them is,
/// and the numbers. The record of inode i begins with number 32 * i of the inode block.
type Words<'a> = (u32, u32, &'a [u32]);

/// The root has directory `d`, which is inode 3, file `f`, which is 4, and the links `l` to `d` and `o` to itself, which are
/// 5 and 6. Only user 5 may search `d`, which has the links `u` to `../f` and `a` to `/f`, which are 7 and 8.
const MADE: &[Words] = &[
    (36, 64, &[0x41ed_0003, 0, 0, 0, 0, 512, 0, 1000, 37]),
    (36, 87, &[1]),
    (36, 96, &[0x41c0_0002, 5, 6, 0, 0, 512, 0, 1000, 38]),
    (36, 119, &[1]),
    (36, 128, &[0x81a4_0001]),
    (36, 160, &[0xa1ff_0001, 0, 0, 0, 0, 1, 0, 1000, 39]),
    (36, 183, &[1]),
    (36, 192, &[0xa1ff_0001, 0, 0, 0, 0, 1, 0, 1000, 40]),
    (36, 215, &[1]),
    (36, 224, &[0xa1ff_0001, 0, 0, 0, 0, 4, 0, 1000, 41]),
    (36, 247, &[1]),
    (36, 256, &[0xa1ff_0001, 0, 0, 0, 0, 2, 0, 1000, 42]),
    (36, 279, &[1]),
    (37, 0, &[2, 0x000c_0001, 0x2e00_0000]),
    (37, 3, &[2, 0x000c_0002, 0x2e2e_0000]),
    (37, 6, &[3, 0x000c_0001, 0x6400_0000]),
    (37, 9, &[4, 0x000c_0001, 0x6600_0000]),
    (37, 12, &[5, 0x000c_0001, 0x6c00_0000]),
    (37, 15, &[6, 0x01c4_0001, 0x6f00_0000]),
    (38, 0, &[3, 0x000c_0001, 0x2e00_0000]),
    (38, 3, &[2, 0x000c_0002, 0x2e2e_0000]),
    (38, 6, &[7, 0x000c_0001, 0x7500_0000]),
    (38, 9, &[8, 0x01dc_0001, 0x6100_0000]),
    (39, 0, &[0x6400_0000]),
    (40, 0, &[0x6f00_0000]),
    (41, 0, &[0x2e2e_2f66]),
    (42, 0, &[0x2f66_0000]),
];

/// Where a walk ends: the directory, the last name, and the inode of that name.
type End<'a> = (u32, &'a [u8], Option<u32>);

/// A walk of this user: the path, whether a link at its end is followed, and the answer.
type Case<'a> = (u32, &'a [u8], bool, Result<End<'a>, Refusal>);

const WALKED: &[Case] = &[
    (0, b"/", true, Ok((2, b".", Some(2)))),
    (0, b"//d//.", true, Ok((3, b".", Some(3)))),
    (0, b"d/..", true, Ok((3, b"..", Some(2)))),
    (0, b"d/x", true, Ok((3, b"x", None))),
    (0, b"x/y", true, Err(Refusal::Noent)),
    (0, b"f/y", true, Err(Refusal::Notdir)),
    (0, &[b'n'; 255], true, Ok((2, &[b'n'; 255], None))),
    (0, &[b'n'; 256], true, Err(Refusal::Nametoolong)),
    (5, b"d/u", false, Ok((3, b"u", Some(7)))),
    (7, b"d/u", false, Err(Refusal::Denied)),
    (5, b"d/u", true, Ok((2, b"f", Some(4)))),
    (5, b"d/a", true, Ok((2, b"f", Some(4)))),
    (5, b"l/u", false, Ok((3, b"u", Some(7)))),
    (0, b"l", false, Ok((2, b"l", Some(5)))),
    (0, b"l", true, Ok((2, b"d", Some(3)))),
    (0, b"o", false, Ok((2, b"o", Some(6)))),
    (0, b"o", true, Err(Refusal::Loop)),
    (
        0,
        b"l/../l/../l/../l/../l/../l/../l/../l",
        true,
        Ok((2, b"d", Some(3))),
    ),
    (
        0,
        b"l/../l/../l/../l/../l/../l/../l/../l/../l",
        true,
        Err(Refusal::Loop),
    ),
];

// Puts the numbers into the image, as far as it goes.
fn put(image: &mut [u8], words: &Words) {
    let (block, first, numbers) = *words;
    let mut at = 4096 * block as usize + 4 * first as usize;
    for number in numbers {
        for byte in number.to_be_bytes() {
            if let Some(place) = image.get_mut(at) {
                *place = byte;
            }
            at = at.saturating_add(1);
        }
    }
}

fn image_of(alloc: Global) -> Result<Vec<u8>, Mem>
    ensures { IfOk result (λ image. length image.items ≡ 405504) }
{
    let mut image = vec![in alloc; 0u8; 405_504]?;
    for words in MADE {
        put(&mut image, words);
    }
    if image.len() != 405_504 {
        return Err(Mem);
    }
    Ok(image)
}

fn is_answer(answer: &Result<Walked, WalkError>, want: &Result<End, Refusal>) -> bool {
    match (answer, want) {
        (Ok(walked), Ok((dir, name, found))) => {
            walked.dir == Ino(*dir)
                && walked.name.as_slice() == *name
                && walked.found == found.map(Ino)
        }
        (Err(WalkError::Refused(why)), Err(other)) => why == other,
        _ => false,
    }
}

// Whether the walk ends so.
fn ends(alloc: Global, store: &mut PlainStore, case: &Case) -> Result<bool, Mem> {
    let (uid, path, follow, want) = *case;
    let path = PathText::from_slice(alloc, path)?;
    let answer = walk(alloc, store, &Cred { uid, gid: 7 }, &path, follow);
    Ok(is_answer(&answer, &want))
}

fn are_walked(alloc: Global) -> Result<bool, Mem> {
    let mut store = PlainStore::new(&SMALLEST, image_of(alloc)?);
    for case in WALKED {
        if !ends(alloc, &mut store, case)? {
            return Ok(false);
        }
    }
    Ok(true)
}

// The volume on a disk that fails at this read, the first being 1.
fn failing(alloc: Global, read: u64) -> Result<ReplayedDisk<MemDisk>, StoreError> {
    let disk = MemDisk::new(image_of(alloc)?, vec![in alloc; Fail::Read(read)]?);
    let laid = LaidDeltas::new(alloc, &TxList::new(alloc))?;
    if disk.sectors() < 792 {
        return Err(StoreError::Mem);
    }
    Ok(ReplayedDisk::over(disk, &SMALLEST, laid))
}

// Whether the walk to `f` tells that the disk failed at this read.
fn fails(alloc: Global, read: u64) -> Result<bool, StoreError> {
    let mut store = failing(alloc, read)?;
    let path = PathText::from_slice(alloc, b"f")?;
    let answer = walk(alloc, &mut store, &Cred { uid: 0, gid: 0 }, &path, false);
    Ok(matches!(answer, Err(WalkError::Disk)))
}

#[test]
fn paths_walked(rt: HostRuntime) -> Result<(), std::test::Fail> {
    let alloc = rt.alloc();
    assert!(rt; are_walked(alloc)?);
    // For the root its record is read twice, and its block once.
    for read in 1..4 {
        assert!(rt; fails(alloc, read)?, "{read}");
    }
    Ok(())
}
