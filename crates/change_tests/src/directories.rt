//! Tests: a directory of three chunks, one of eight, and one that is empty, read through a draft.

use crate::volume::{SMALLEST, Words, failing, image_of};
use dir_ops::{enter, remove, replace, set_parent};
use dir_reads::{Room, can_enter, entries, is_empty, lookup};
use lufs_base::{BlockNo, Ino, Name};
use meta_draft::Draft;
use meta_store::{MetaRead, PlainStore, StoreError};
use std::alloc::Global;
use tree_types::NameList;

/// The root, inode 2, has block 37 and three chunks: one with `.`, `..`, an unused slot and `b`, one that is a slot of
/// `long`, and one with `a`. Inode 3 is a directory with block 38 and one chunk, in which only itself and the root
/// are named. Inode 4 is a file, inode 5 a directory of eight chunks of two slots each, with names from `c` to `p`, and
/// inode 6 one of the first of them.
const MADE: &[Words] = &[
    (36, 64, &[0x41ed_0003, 0, 0, 0, 0, 1536, 0, 1000, 37]),
    (36, 87, &[1]),
    (36, 96, &[0x41ed_0002, 0, 0, 0, 0, 512, 0, 1000, 38]),
    (36, 119, &[1]),
    (36, 128, &[0x81a4_0001]),
    (36, 160, &[0x41ed_0002, 0, 0, 0, 0, 4096, 0, 1000, 39]),
    (36, 183, &[1]),
    (36, 192, &[0x41ed_0002, 0, 0, 0, 0, 512, 0, 1000, 39]),
    (36, 215, &[1]),
    (37, 0, &[2, 0x000c_0001, 0x2e00_0000]),
    (37, 3, &[2, 0x000c_0002, 0x2e2e_0000]),
    (37, 6, &[0, 0x01d4_0001, 0x6700_0000]),
    (37, 123, &[3, 0x0014_0001, 0x6200_0000]),
    (37, 128, &[5, 0x0200_0004, 0x6c6f_6e67]),
    (37, 256, &[4, 0x0200_0001, 0x6100_0000]),
    (38, 0, &[3, 0x000c_0001, 0x2e00_0000]),
    (38, 3, &[2, 0x01f4_0002, 0x2e2e_0000]),
    (39, 0, &[5, 0x0100_0001, 0x2e00_0000]),
    (39, 64, &[2, 0x0100_0002, 0x2e2e_0000]),
    (39, 128, &[4, 0x0100_0001, 0x6300_0000]),
    (39, 192, &[4, 0x0100_0001, 0x6400_0000]),
    (39, 256, &[4, 0x0100_0001, 0x6500_0000]),
    (39, 320, &[4, 0x0100_0001, 0x6600_0000]),
    (39, 384, &[4, 0x0100_0001, 0x6700_0000]),
    (39, 448, &[4, 0x0100_0001, 0x6800_0000]),
    (39, 512, &[4, 0x0100_0001, 0x6900_0000]),
    (39, 576, &[4, 0x0100_0001, 0x6a00_0000]),
    (39, 640, &[4, 0x0100_0001, 0x6b00_0000]),
    (39, 704, &[4, 0x0100_0001, 0x6c00_0000]),
    (39, 768, &[4, 0x0100_0001, 0x6d00_0000]),
    (39, 832, &[4, 0x0100_0001, 0x6e00_0000]),
    (39, 896, &[4, 0x0100_0001, 0x6f00_0000]),
    (39, 960, &[4, 0x0100_0001, 0x7000_0000]),
];

/// What is asked and answered of a directory: the directory, the name, and the inode, 0 where there is none.
type Found<'a> = (u32, &'a [u8], u32);

const FOUND: &[Found] = &[
    (2, b".", 2),
    (2, b"..", 2),
    (2, b"a", 4),
    (2, b"b", 3),
    (2, b"long", 5),
    (2, b"lon", 0),
    (2, b"longer", 0),
    (2, b"g", 0),
    (3, b"..", 2),
    (4, b".", 0),
    (5, b"p", 4),
    (40, b".", 0),
];

/// Directories, and whether each is empty.
const EMPTY: &[(u32, bool)] = &[(2, false), (3, true), (4, true), (5, false)];

/// The directory, the length of a name, and the room for it.
type Roomy = (u32, usize, Room);

const ROOMS: &[Roomy] = &[
    (2, 255, Room::Fits),
    (3, 255, Room::Fits),
    (5, 235, Room::Fits),
    (5, 236, Room::NewBlock),
    (6, 235, Room::Fits),
    (6, 236, Room::NewChunk),
];

/// The directory, the name that is listed before, the most that are listed, the names, and whether others follow.
type Listed<'a> = (u32, Option<&'a [u8]>, u32, &'a [&'a [u8]], bool);

const LISTED: &[Listed] = &[
    (2, None, 16, &[b"a", b"b", b"long"], false),
    (2, None, 3, &[b"a", b"b", b"long"], false),
    (2, None, 2, &[b"a", b"b"], true),
    (2, Some(b"a"), 1, &[b"b"], true),
    (2, Some(b"bb"), 16, &[b"long"], false),
    (3, None, 16, &[], false),
];

/// A name of the greatest length, of which shorter ones are a part.
const LONGEST: &[u8] = &[b'n'; 255];

/// A name that is entered: the directory, the name, the inode, and the blocks
/// that are given.
type Entered<'a> = (u32, &'a [u8], u32, &'a [BlockNo]);

/// The second one needs a block, and the third one a chunk.
const ENTERED: &[Entered] = &[
    (3, b"x", 4, &[]),
    (5, &[b'n'; 236], 4, &[BlockNo(40)]),
    (5, &[b'm'; 255], 3, &[]),
];

/// What is found after the changes.
const CHANGED: &[Found] = &[
    (2, b"a", 3),
    (2, b"b", 0),
    (2, b"long", 5),
    (3, b".", 3),
    (3, b"..", 5),
    (3, b"x", 4),
    (5, b"p", 4),
    (5, &[b'n'; 236], 4),
    (5, &[b'm'; 255], 3),
];

/// The read that fails, and what is found of `a` in the root. Its inode block and its block are read, each once.
const FAILING: &[(u64, Result<u32, StoreError>)] = &[
    (1, Err(StoreError::Disk)),
    (2, Err(StoreError::Disk)),
    (3, Ok(4)),
];

// The inode of that name, 0 where there is none.
fn found_in<S: MetaRead>(
    alloc: Global,
    draft: &Draft,
    store: &mut S,
    dir: u32,
    name: &[u8],
) -> Result<u32, StoreError> {
    let name = Name::from_slice(alloc, name)?;
    let found = lookup(alloc, draft, store, Ino(dir), &name)?;
    Ok(found.unwrap_or(Ino(0)).0)
}

fn are_found<S: MetaRead>(
    alloc: Global,
    draft: &Draft,
    store: &mut S,
    cases: &[Found],
) -> Result<bool, StoreError> {
    for (dir, name, found) in cases {
        if found_in(alloc, draft, store, *dir, name)? != *found {
            return Ok(false);
        }
    }
    Ok(true)
}

fn are_empty<S: MetaRead>(alloc: Global, draft: &Draft, store: &mut S) -> Result<bool, StoreError> {
    for (dir, empty) in EMPTY {
        if is_empty(alloc, draft, store, Ino(*dir))? != *empty {
            return Ok(false);
        }
    }
    Ok(true)
}

fn room_for<S: MetaRead>(
    alloc: Global,
    draft: &Draft,
    store: &mut S,
    dir: u32,
    length: usize,
) -> Result<Room, StoreError> {
    let name = Name::from_slice(alloc, LONGEST.get(..length).unwrap_or(b""))?;
    can_enter(alloc, draft, store, Ino(dir), &name)
}

fn have_room<S: MetaRead>(alloc: Global, draft: &Draft, store: &mut S) -> Result<bool, StoreError> {
    for (dir, length, room) in ROOMS {
        if room_for(alloc, draft, store, *dir, *length)? != *room {
            return Ok(false);
        }
    }
    Ok(true)
}

// Whether the list has just these names.
fn has_names(list: &NameList, names: &[&[u8]]) -> bool {
    list.len() == names.len()
        && list
            .as_slice()
            .iter()
            .zip(names)
            .all(|(name, other)| name.as_slice() == *other)
}

fn lists<S: MetaRead>(
    alloc: Global,
    draft: &Draft,
    store: &mut S,
    listed: &Listed,
) -> Result<bool, StoreError> {
    let (dir, after, most, names, more) = *listed;
    let after = match after {
        Some(name) => Some(Name::from_slice(alloc, name)?),
        None => None,
    };
    let (list, others) = entries(alloc, draft, store, Ino(dir), after.as_ref(), most)?;
    Ok(others == more && has_names(&list, names))
}

fn are_listed<S: MetaRead>(
    alloc: Global,
    draft: &Draft,
    store: &mut S,
) -> Result<bool, StoreError> {
    for listed in LISTED {
        if !lists(alloc, draft, store, listed)? {
            return Ok(false);
        }
    }
    Ok(true)
}

// Whether the directories are read as they were made.
fn are_read(alloc: Global, draft: &Draft, store: &mut PlainStore) -> Result<bool, StoreError> {
    Ok(
        are_found(alloc, draft, store, FOUND)?
            && are_empty(alloc, draft, store)?
            && have_room(alloc, draft, store)?
            && are_listed(alloc, draft, store)?,
    )
}

// Enters the name, where it is an allowed one.
fn enter_allowed<S: MetaRead>(
    alloc: Global,
    draft: &mut Draft,
    store: &mut S,
    entered: &Entered,
) -> Result<bool, StoreError> {
    let (dir, name, i, fresh) = *entered;
    let name = Name::from_slice(alloc, name)?;
    if !name.is_allowed() {
        return Ok(false);
    }
    enter(alloc, draft, store, Ino(dir), &name, Ino(i), fresh)?;
    Ok(true)
}

// In the root `a` becomes the inode 3, and `b` goes.
fn edit<S: MetaRead>(alloc: Global, draft: &mut Draft, store: &mut S) -> Result<(), StoreError> {
    let a = Name::from_slice(alloc, b"a")?;
    replace(alloc, draft, store, Ino(2), &a, Ino(3))?;
    let b = Name::from_slice(alloc, b"b")?;
    remove(alloc, draft, store, Ino(2), &b)
}

// Whether the directories are read as they were changed.
fn are_changed(
    alloc: Global,
    draft: &mut Draft,
    store: &mut PlainStore,
) -> Result<bool, StoreError> {
    for entered in ENTERED {
        if !enter_allowed(alloc, draft, store, entered)? {
            return Ok(false);
        }
    }
    edit(alloc, draft, store)?;
    set_parent(alloc, draft, store, Ino(3), Ino(5))?;
    are_found(alloc, draft, store, CHANGED)
}

// Whether all is read and changed in one volume.
fn are_served(alloc: Global) -> Result<bool, StoreError> {
    let mut store = PlainStore::new(&SMALLEST, image_of(alloc, MADE)?);
    let mut draft = Draft::new(alloc);
    Ok(are_read(alloc, &draft, &mut store)? && are_changed(alloc, &mut draft, &mut store)?)
}

// What is found of `a` in the root, where the disk fails at this read.
fn found_after(alloc: Global, read: u64) -> Result<u32, StoreError> {
    let mut store = failing(alloc, MADE, read)?;
    found_in(alloc, &Draft::new(alloc), &mut store, 2, b"a")
}

#[test]
fn directories_read_and_changed(rt: HostRuntime) -> Result<(), std::test::Fail> {
    let alloc = rt.alloc();
    assert!(rt; are_served(alloc)?);
    for (read, found) in FAILING {
        assert_eq!(rt; found_after(alloc, *read), *found, "{read}");
    }
    Ok(())
}
