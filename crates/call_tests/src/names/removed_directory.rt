//! Tests of `rmdir` on the same volume, whose root names nothing: what it is answered, and what it plans.
use super::{MADE, Planned, answer, has_deltas, is_reply};
use crate::volume::{SMALLEST, Untold, image_of};
use lufs_base::{DeltaKind, Ino, Mem, Name};
use meta_store::{PlainStore, StoreError};
use name_ops::{plan_rmdir, wants_rmdir};
use path_walk::Walked;
use std::alloc::Global;
use tree_types::{Cred, Refusal};

/// A caller, a name in inode 3, the inode that it leads to, and why its removal is refused, if it is.
type Asked<'a> = (u32, &'a [u8], Option<u32>, Result<u32, Refusal>);

const ASKED: &[Asked] = &[
    (0, b"c", Some(2), Ok(0)),
    (0, b"n", None, Err(Refusal::Noent)),
    (7, b"f", Some(4), Err(Refusal::Notdir)),
    (7, b"..", Some(3), Err(Refusal::Denied)),
    (0, b"c", Some(3), Err(Refusal::Notempty)),
    (0, b".", Some(3), Err(Refusal::Notempty)),
    (0, b".", Some(2), Err(Refusal::Inval)),
    (0, b"..", Some(2), Err(Refusal::Inval)),
];

/// What is planned for a name of the root: why it is refused, if it is, and the deltas.
type Plan<'a> = (&'a [u8], Option<Refusal>, &'a [Planned]);

const PLANS: &[Plan] = &[
    // The group; the records of the inode that goes and of the one above it; the block that goes; and the chunk that had
    // the name.
    (
        b"c",
        None,
        &[
            (DeltaKind::Group, 143_360, 416),
            (DeltaKind::Inode, 147_712, 128),
            (DeltaKind::Inode, 147_840, 128),
            (DeltaKind::Cancel, 151_552, 4096),
            (DeltaKind::Chunk, 156_160, 512),
        ],
    ),
    (b"..", Some(Refusal::Inval), &[]),
];

fn end_of(alloc: Global, name: &[u8], found: Option<u32>) -> Result<Walked, Mem> {
    Ok(Walked {
        dir: Ino(3),
        name: Name::from_slice(alloc, name)?,
        found: found.map(Ino),
    })
}

fn wanted(alloc: Global, asked: &Asked) -> Result<Result<u32, Refusal>, StoreError> {
    let (uid, name, found, _) = *asked;
    let mut store = PlainStore::new(&SMALLEST, image_of(alloc, MADE, &[])?);
    let end = end_of(alloc, name, found)?;
    let wanted = wants_rmdir(alloc, &mut store, &Cred { uid, gid: 7 }, &end)?;
    Ok(answer(&wanted))
}

fn are_answered(alloc: Global) -> Result<bool, StoreError> {
    for asked in ASKED {
        if wanted(alloc, asked)? != asked.3 {
            return Ok(false);
        }
    }
    Ok(true)
}

fn is_planned(alloc: Global, plan: &Plan) -> Result<bool, StoreError> {
    let (name, refused, deltas) = *plan;
    let mut store = Untold::new(image_of(alloc, MADE, &[])?)?;
    let end = end_of(alloc, name, Some(2))?;
    let (change, reply) = plan_rmdir(alloc, &mut store, &Cred { uid: 0, gid: 7 }, &end, 2000)?;
    Ok(is_reply(&reply, refused) && has_deltas(&change.deltas, deltas))
}

fn are_planned(alloc: Global) -> Result<bool, StoreError> {
    for plan in PLANS {
        if !is_planned(alloc, plan)? {
            return Ok(false);
        }
    }
    Ok(true)
}

#[test]
fn directories_removed(rt: HostRuntime) -> Result<(), std::test::Fail> {
    let alloc = rt.alloc();
    assert!(rt; are_answered(alloc)? && are_planned(alloc)?);
    Ok(())
}
