//! Tests: the inodes of a small volume told of, and a directory of 17 names listed.
use crate::{list, stat};
use lufs_base::{Geometry, Ino, Mem, Name};
use meta_store::{PlainStore, StoreError};
use path_walk::Walked;
use std::alloc::Global;
use tree_types::{Cred, NameList, Refusal, Reply, StatInfo};

/// A volume of 99 blocks: inode block 36, and body blocks from 37 on.
const SMALLEST: Geometry = Geometry {
    version: 1,
    groups: 1,
    bpg: 64,
    ipg: 32,
    log: 256,
};

/// Numbers of 32 bits that stand in a block, from one place on: the block, which of its numbers the first of
/// them is, and the numbers. The record of inode i begins with number 32 * i of the inode block.
type Words<'a> = (u32, u32, &'a [u32]);

/// The root, inode 2, has block 37 and one chunk. Inode 3 is a directory of user 7 alone, and inode 4 a file of 5,000 bytes
/// with a hole.
const MADE: &[Words] = &[
    (36, 64, &[0x41ed_0003, 0, 0, 0, 0, 512, 0, 1000, 37]),
    (36, 87, &[1]),
    (36, 96, &[0x41c0_0002, 7, 8, 0, 0, 512, 0, 1001, 38]),
    (36, 119, &[1]),
    (36, 128, &[0x81a4_0011, 5, 6, 0, 0, 5000, 1, 2, 0, 39]),
    (36, 151, &[1]),
    (37, 0, &[2, 0x000c_0001, 0x2e00_0000]),
    (37, 3, &[2, 0x000c_0002, 0x2e2e_0000]),
];

/// What `stat` tells of inodes 2 and 4.
const ROOT: StatInfo = StatInfo {
    ino: 2,
    mode: 0o040_755,
    links: 3,
    uid: 0,
    gid: 0,
    size: 512,
    mtime: 1000,
    blocks: 1,
};

const FILE: StatInfo = StatInfo {
    ino: 4,
    mode: 0o100_644,
    links: 17,
    uid: 5,
    gid: 6,
    size: 5000,
    mtime: 0x1_0000_0002,
    blocks: 1,
};

const NOBODY: Cred = Cred { uid: 9, gid: 9 };

const OWNER: Cred = Cred { uid: 7, gid: 9 };

/// What is listed: who asks, the inode that was found, the name to begin after, and the answer: the names, each of one
/// byte, and whether more follow.
type Listed<'a> = (
    Cred,
    Option<u32>,
    Option<&'a [u8]>,
    Result<(&'a [u8], bool), Refusal>,
);

// Puts the numbers into the image, as far as it goes.
fn put(image: &mut [u8], words: &Words) {
    let (block, first, numbers) = *words;
    let mut at = 4096 * block as usize + 4 * first as usize;
    for number in numbers {
        for byte in number.to_be_bytes() {
            if let Some(place) = image.get_mut(at) {
                *place = byte;
            }
            at = at.saturating_add(1);
        }
    }
}

// The slots of the root after the first two: from `q` down to `a`, all names of inode 4. The last one takes the rest.
fn put_names(image: &mut [u8]) {
    for k in 0u32..17 {
        let len = if k < 16 { 12 } else { 296 };
        put(
            image,
            &(37, 6 + 3 * k, &[4, (len << 16) + 1, (0x71 - k) << 24]),
        );
    }
}

fn store_of(alloc: Global) -> Result<PlainStore, Mem> {
    let mut image = vec![in alloc; 0u8; 405_504]?;
    for words in MADE {
        put(&mut image, words);
    }
    put_names(&mut image);
    if image.len() != 405_504 {
        return Err(Mem);
    }
    Ok(PlainStore::new(&SMALLEST, image))
}

fn walked_to(alloc: Global, found: Option<u32>) -> Result<Walked, Mem> {
    Ok(Walked {
        dir: Ino(2),
        name: Name::from_slice(alloc, b"x")?,
        found: found.map(Ino),
    })
}

// What is told of an inode, or why it isn't.
fn told_of(
    alloc: Global,
    store: &mut PlainStore,
    found: Option<u32>,
) -> Result<Option<Result<StatInfo, Refusal>>, StoreError> {
    let walked = walked_to(alloc, found)?;
    Ok(match stat(alloc, store, &walked)? {
        Reply::Stat(info) => Some(Ok(info)),
        Reply::Refused(why) => Some(Err(why)),
        _ => None,
    })
}

#[test]
fn inodes_told_of(rt: HostRuntime) -> Result<(), std::test::Fail> {
    let alloc = rt.alloc();
    let mut store = store_of(alloc)?;
    for (found, want) in [
        (Some(2), Some(Ok(ROOT))),
        (Some(4), Some(Ok(FILE))),
        (None, Some(Err(Refusal::Noent))),
        // No inode of the volume, where no walk ends.
        (Some(32), None),
    ] {
        assert_eq!(rt; told_of(alloc, &mut store, found)?, want);
    }
    Ok(())
}

// Whether the list has just these names of one byte.
fn has_names(names: &NameList, letters: &[u8]) -> bool {
    names.len() == letters.len()
        && names
            .as_slice()
            .iter()
            .zip(letters)
            .all(|(name, letter)| name.as_slice() == [*letter].as_slice())
}

// Whether the reply is this answer.
fn is_answer(reply: &Reply, want: Result<(&[u8], bool), Refusal>) -> bool {
    match (reply, want) {
        (Reply::Names(names, more), Ok((letters, follow))) => {
            has_names(names, letters) && *more == follow
        }
        (Reply::Refused(why), Err(refusal)) => *why == refusal,
        _ => false,
    }
}

#[test]
fn names_listed(rt: HostRuntime) -> Result<(), std::test::Fail> {
    let alloc = rt.alloc();
    let mut store = store_of(alloc)?;
    let cases: [Listed; 8] = [
        (NOBODY, Some(2), None, Ok((b"abcdefghijklmnop", true))),
        (
            NOBODY,
            Some(2),
            Some(b"a"),
            Ok((b"bcdefghijklmnopq", false)),
        ),
        (NOBODY, Some(2), Some(b"p"), Ok((b"q", false))),
        (NOBODY, Some(2), Some(b"q"), Ok((b"", false))),
        (OWNER, Some(3), None, Ok((b"", false))),
        (NOBODY, Some(3), None, Err(Refusal::Denied)),
        (NOBODY, Some(4), None, Err(Refusal::Notdir)),
        (NOBODY, None, None, Err(Refusal::Noent)),
    ];
    for (cred, found, after, want) in cases {
        let walked = walked_to(alloc, found)?;
        let after = match after {
            Some(name) => Some(Name::from_slice(alloc, name)?),
            None => None,
        };
        let reply = list(alloc, &mut store, &cred, &walked, after.as_ref())?;
        assert!(rt; is_answer(&reply, want));
    }
    Ok(())
}
