//! Tests: a volume with a root and a directory of one full block; what `create` and `mkdir` want and plan there.

mod removed_directory;

use crate::volume::{SMALLEST, Untold, Words, image_of};
use block_alloc::Hands;
use lufs_base::{BlockNo, DeltaKind, DeltaList, Ino, Mem, Name};
use meta_store::{PlainStore, StoreError};
use name_ops::{Wanted, plan_create, wants_create};
use path_walk::Walked;
use std::alloc::Global;
use tree_types::{Cred, Refusal, Reply};
use volume_model::{BlockList, Hand};

/// The root, inode 2, has block 37 and one chunk. Inode 3 is a directory of eight chunks of two slots each in block 38,
/// with names from `c` to `p`.
const MADE: &[Words] = &[
    (35, 0, &[0x0009_0255, 0, 28, 60]),
    (35, 8, &[0x0f00_0000]),
    (35, 40, &[0x0f00_0000]),
    (36, 64, &[0x41ed_0003, 0, 0, 0, 0, 512, 0, 1000, 37]),
    (36, 87, &[1]),
    (36, 96, &[0x41ed_0002, 0, 0, 0, 0, 4096, 0, 1000, 38]),
    (36, 119, &[1]),
    (37, 0, &[2, 0x000c_0001, 0x2e00_0000]),
    (37, 3, &[2, 0x01f4_0002, 0x2e2e_0000]),
    (38, 0, &[3, 0x0100_0001, 0x2e00_0000]),
    (38, 64, &[2, 0x0100_0002, 0x2e2e_0000]),
    (38, 128, &[2, 0x0100_0001, 0x6300_0000]),
    (38, 192, &[2, 0x0100_0001, 0x6400_0000]),
    (38, 256, &[2, 0x0100_0001, 0x6500_0000]),
    (38, 320, &[2, 0x0100_0001, 0x6600_0000]),
    (38, 384, &[2, 0x0100_0001, 0x6700_0000]),
    (38, 448, &[2, 0x0100_0001, 0x6800_0000]),
    (38, 512, &[2, 0x0100_0001, 0x6900_0000]),
    (38, 576, &[2, 0x0100_0001, 0x6a00_0000]),
    (38, 640, &[2, 0x0100_0001, 0x6b00_0000]),
    (38, 704, &[2, 0x0100_0001, 0x6c00_0000]),
    (38, 768, &[2, 0x0100_0001, 0x6d00_0000]),
    (38, 832, &[2, 0x0100_0001, 0x6e00_0000]),
    (38, 896, &[2, 0x0100_0001, 0x6f00_0000]),
    (38, 960, &[2, 0x0100_0001, 0x7000_0000]),
];

/// All inodes are in use, and all blocks.
const NO_INODES: Words = (35, 8, &[0xffff_ffff]);

const NO_BLOCKS: Words = (35, 40, &[0xffff_ffff, 0xffff_ffff]);

/// The root has 32,767 links.
const NO_LINKS: Words = (36, 64, &[0x41ed_7fff]);

/// What of a volume is used up.
#[derive(Clone, Copy)]
enum Full {
    Nothing,
    Inodes,
    Blocks,
    Both,
    Links,
}

/// What a call makes.
#[derive(Clone, Copy)]
enum Makes {
    File,
    Directory,
}

/// What is asked: what is used up, the caller, the directory, the length of the name, whether it is there; and the
/// answer: why it is refused, or how many blocks it wants.
type Asked = (Full, u32, u32, usize, bool, Result<u32, Refusal>);

const FILES: &[Asked] = &[
    (Full::Nothing, 0, 2, 1, false, Ok(0)),
    (Full::Nothing, 0, 3, 235, false, Ok(0)),
    (Full::Nothing, 0, 3, 236, false, Ok(1)),
    (Full::Nothing, 7, 2, 1, false, Err(Refusal::Denied)),
    (Full::Nothing, 7, 2, 1, true, Err(Refusal::Denied)),
    (Full::Nothing, 0, 2, 1, true, Err(Refusal::Exist)),
    (Full::Inodes, 0, 2, 1, false, Err(Refusal::Noinodes)),
    (Full::Both, 0, 3, 236, false, Err(Refusal::Noinodes)),
    (Full::Blocks, 0, 3, 236, false, Err(Refusal::Nospace)),
    (Full::Blocks, 0, 2, 1, false, Ok(0)),
];

const DIRECTORIES: &[Asked] = &[
    (Full::Nothing, 0, 2, 1, false, Ok(1)),
    (Full::Nothing, 0, 3, 236, false, Ok(2)),
    (Full::Links, 7, 2, 1, true, Err(Refusal::Denied)),
    (Full::Links, 0, 2, 1, true, Err(Refusal::Exist)),
    (Full::Links, 0, 2, 1, false, Err(Refusal::Mlink)),
    (Full::Both, 0, 2, 1, false, Err(Refusal::Noinodes)),
    (Full::Blocks, 0, 2, 1, false, Err(Refusal::Nospace)),
];

/// What makes that use up.
fn used_up(full: Full) -> &'static [Words<'static>] {
    match full {
        Full::Nothing => &[],
        Full::Inodes => &[NO_INODES],
        Full::Blocks => &[NO_BLOCKS],
        Full::Both => &[NO_INODES, NO_BLOCKS],
        Full::Links => &[NO_LINKS],
    }
}

fn walked(alloc: Global, dir: u32, length: usize, there: bool) -> Result<Walked, Mem> {
    let mut bytes = vec![in alloc; b'n'; length]?;
    if let Some(first) = bytes.first_mut() {
        *first = b'q';
    }
    Ok(Walked {
        dir: Ino(dir),
        name: Name::from_slice(alloc, bytes.as_slice())?,
        found: if there { Some(Ino(3)) } else { None },
    })
}

// Why it is refused, or how many blocks it wants.
fn answer(wanted: &Wanted) -> Result<u32, Refusal> {
    match wanted {
        Wanted::Refused(why) => Err(*why),
        Wanted::Wants { others, .. } => Ok(*others),
    }
}

// What is answered that is asked for.
fn wanted(alloc: Global, makes: Makes, asked: &Asked) -> Result<Result<u32, Refusal>, StoreError> {
    let (full, uid, dir, length, there, _) = *asked;
    let mut store = PlainStore::new(&SMALLEST, image_of(alloc, MADE, used_up(full))?);
    let cred = Cred { uid, gid: 7 };
    let end = walked(alloc, dir, length, there)?;
    let held = Hands::new(alloc);
    let wanted = match makes {
        Makes::File => wants_create(alloc, &mut store, &cred, &end, &held)?,
        Makes::Directory => name_ops::wants_mkdir(alloc, &mut store, &cred, &end, &held)?,
    };
    Ok(answer(&wanted))
}

fn are_wanted(alloc: Global, makes: Makes, cases: &[Asked]) -> Result<bool, StoreError> {
    for case in cases {
        if wanted(alloc, makes, case)? != case.5 {
            return Ok(false);
        }
    }
    Ok(true)
}

/// A delta: its kind, its home and its length.
type Planned = (DeltaKind, u64, u32);

// Whether the list has just these deltas.
fn has_deltas(list: &DeltaList, deltas: &[Planned]) -> bool {
    list.len() == deltas.len()
        && list
            .as_slice()
            .iter()
            .zip(deltas)
            .all(|(d, other)| (d.kind, d.home, d.len) == *other)
}

// Whether that is the reply of a call that is done, or refused so.
fn is_reply(reply: &Reply, refused: Option<Refusal>) -> bool {
    match reply {
        Reply::Done => refused.is_none(),
        Reply::Refused(why) => refused == Some(*why),
        _ => false,
    }
}

/// What is planned in the root: what is made, the caller, whether the name is there, why it is refused, if it is, and the
/// deltas.
type Plan<'a> = (Makes, u32, bool, Option<Refusal>, &'a [Planned]);

const PLANS: &[Plan] = &[
    // The record of the root, which has another time; that of the new inode 4; and the chunk with its name.
    (
        Makes::File,
        0,
        false,
        None,
        &[
            (DeltaKind::Inode, 147_712, 128),
            (DeltaKind::Inode, 147_968, 128),
            (DeltaKind::Chunk, 151_552, 512),
        ],
    ),
    (Makes::File, 0, true, Some(Refusal::Exist), &[]),
    (Makes::File, 7, false, Some(Refusal::Denied), &[]),
    // The records of the root and of the new inode 4, the chunk of the root with its name, and its own block and chunk.
    (
        Makes::Directory,
        0,
        false,
        None,
        &[
            (DeltaKind::Inode, 147_712, 128),
            (DeltaKind::Inode, 147_968, 128),
            (DeltaKind::Chunk, 151_552, 512),
            (DeltaKind::Zero, 159_744, 4096),
            (DeltaKind::Chunk, 159_744, 512),
        ],
    ),
    (Makes::Directory, 0, true, Some(Refusal::Exist), &[]),
];

// The new inode 4, and block 39 for a directory.
fn hand_for(alloc: Global, makes: Makes) -> Result<Hand, Mem> {
    let mut blocks = BlockList::new(alloc);
    if matches!(makes, Makes::Directory) {
        blocks.push(BlockNo(39))?;
    }
    Ok(Hand {
        inode: Some(4),
        blocks,
    })
}

// Whether that is planned in the root; not so where the name isn't an allowed one.
fn is_planned(alloc: Global, plan: &Plan) -> Result<bool, StoreError> {
    let (makes, uid, there, refused, deltas) = *plan;
    let mut store = Untold::new(image_of(alloc, MADE, &[])?)?;
    let cred = Cred { uid, gid: 7 };
    let end = walked(alloc, 2, 1, there)?;
    if !end.name.is_allowed() {
        return Ok(false);
    }
    let hand = hand_for(alloc, makes)?;
    let held = Hands::new(alloc);
    let (change, reply) = match makes {
        Makes::File => plan_create(alloc, &mut store, &cred, 0o644, &end, &hand, &held, 2000)?,
        Makes::Directory => name_ops::plan_mkdir(
            alloc, &mut store, &cred, 0o755, &end, &hand, &held, 2000,
        )?,
    };
    Ok(is_reply(&reply, refused) && has_deltas(&change.deltas, deltas))
}

fn are_planned(alloc: Global) -> Result<bool, StoreError> {
    for plan in PLANS {
        if !is_planned(alloc, plan)? {
            return Ok(false);
        }
    }
    Ok(true)
}

#[test]
fn names_made(rt: HostRuntime) -> Result<(), std::test::Fail> {
    let alloc = rt.alloc();
    assert!(rt; are_wanted(alloc, Makes::File, FILES)?);
    assert!(rt; are_wanted(alloc, Makes::Directory, DIRECTORIES)?);
    assert!(rt; are_planned(alloc)?);
    Ok(())
}
