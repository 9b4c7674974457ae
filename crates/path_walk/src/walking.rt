//! The walk of a path from the root.
ghost use Rattle.std.specs.Prelude.{◌≡◌, IsErrOf};
ghost use Rattle.sector_disk.specs.Disk.{FailsJustAt};
ghost use Rattle.meta_store.specs.Store.{IsUnchanged};
ghost use Rattle.meta_store.specs.Changing.{IsKept};
ghost use Rattle.meta_draft.specs.Drafted.{drafted};
ghost use Rattle.history_model.specs.Walk.{start_of, walk_of};
ghost use Rattle.path_walk.specs.declared.error.WalkError.TheVariants.{Disk};
ghost use Rattle.path_walk.specs.Answers.{HoldsOfTree, AnswersWalk};
ghost use Rattle.path_walk.specs.Stops.{CameTo};

use crate::part_lookup::look_up;
use crate::parts::Parts;
use crate::steps::Next;
use crate::{WalkError, Walked};
use lufs_base::Ino;
use meta_draft::Draft;
use meta_store::MetaRead;
use std::alloc::Global;
use tree_types::{Cred, PathText, Refusal};

/// The root of the tree.
const ROOT: Ino = Ino(2);

/// How many symbolic links a walk may follow.
const MOST_FOLLOWED: u32 = 8;

/// How far a walk came.
#[derive(Drop)]
pub(crate) enum Stop {
    /// To its end.
    End(Walked),
    /// To a link in this directory, with this text, that it is to follow.
    Link(Ino, Vec<u8>),
}

// Where a text begins: at the root where its first byte is a slash, else in the directory of the link.
fn start_of(dir: Ino, text: &[u8]) -> Ino
    ensures { result.0 ≡ start_of dir.0 text.now }
{
    match text {
        [b'/', ..] => ROOT,
        _ => dir,
    }
}

// Walks from an inode along these parts, up to the first link that is to be followed.
fn walk_to_link<S: MetaRead>(
    alloc: Global,
    draft: &Draft,
    store: &mut S,
    cred: &Cred,
    follow: bool,
    start: Ino,
    parts: &mut Parts,
) -> Result<Stop, WalkError>
    ensures value { HoldsOfTree (drafted draft.now.change (S.store store.old)) (λ tree. CameTo tree cred.now follow start.0 parts.old parts.new result) }
    ensures unchanged { IsUnchanged (S.store store.old) (S.store store.new) }
    ensures kept { IsKept (S.changing store.old) (S.changing store.new) }
    ensures failure { FailsJustAt (IsErrOf result Disk) (S.store store.old).disk (S.store store.new).disk }
{
    let mut dir = start;
    while let Some(part) = parts.next() {
        let lead = look_up(
            alloc,
            draft,
            store,
            cred,
            dir,
            &part,
            parts.is_empty(),
            follow,
        )?;
        match lead.next {
            Next::End => {
                return Ok(Stop::End(Walked {
                    dir,
                    name: part,
                    found: lead.found,
                }));
            }
            Next::Missing => return Err(WalkError::Refused(Refusal::Noent)),
            Next::Follow(text) => return Ok(Stop::Link(dir, text)),
            Next::Go(i) => dir = i,
        }
    }
    Err(WalkError::Refused(Refusal::Noent))
}

// The walk of a path over a draft.
fn walk_in<S: MetaRead>(
    alloc: Global,
    draft: &Draft,
    store: &mut S,
    cred: &Cred,
    path: &[u8],
    follow: bool,
) -> Result<Walked, WalkError>
    ensures value { HoldsOfTree (drafted draft.now.change (S.store store.old)) (λ tree. AnswersWalk (walk_of tree cred.now path.now follow) result) }
    ensures unchanged { IsUnchanged (S.store store.old) (S.store store.new) }
    ensures kept { IsKept (S.changing store.old) (S.changing store.new) }
    ensures failure { FailsJustAt (IsErrOf result Disk) (S.store store.old).disk (S.store store.new).disk }
{
    let mut dir = ROOT;
    let mut parts = Parts::new(alloc);
    parts.put_path(alloc, path)?;
    let mut left = MOST_FOLLOWED;
    loop {
        match walk_to_link(alloc, draft, store, cred, follow, dir, &mut parts)? {
            Stop::End(walked) => return Ok(walked),
            Stop::Link(base, text) => {
                if left == 0 {
                    return Err(WalkError::Refused(Refusal::Loop));
                }
                left -= 1;
                dir = start_of(base, &text);
                parts.put_path(alloc, &text)?;
            }
        }
    }
}

/// Walks a path from the root for this caller; `follow` says that a link at its end is followed. It answers `Disk` exactly
/// where a read failed (`docs/CALLS.md`, "Walking a path").
pub fn walk<S: MetaRead>(
    alloc: Global,
    store: &mut S,
    cred: &Cred,
    path: &PathText,
    follow: bool,
) -> Result<Walked, WalkError>
    ensures value { HoldsOfTree (S.store store.old) (λ tree. AnswersWalk (walk_of tree cred.now path.now follow) result) }
    ensures unchanged { IsUnchanged (S.store store.old) (S.store store.new) }
    ensures kept { IsKept (S.changing store.old) (S.changing store.new) }
    ensures failure { FailsJustAt (IsErrOf result Disk) (S.store store.old).disk (S.store store.new).disk }
{
    let draft = Draft::new(alloc);
    walk_in(alloc, &draft, store, cred, path.as_slice(), follow)
}
