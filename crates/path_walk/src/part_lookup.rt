//! A part of a path, looked up for a caller.
ghost use Rattle.std.specs.Prelude.{◌≡◌, IsErrOf};
ghost use Rattle.sector_disk.specs.Disk.{FailsJustAt};
ghost use Rattle.meta_store.specs.Store.{IsUnchanged};
ghost use Rattle.meta_store.specs.Changing.{IsKept};
ghost use Rattle.meta_draft.specs.Drafted.{drafted};
ghost use Rattle.path_walk.specs.declared.error.WalkError.TheVariants.{Disk};
ghost use Rattle.path_walk.specs.Answers.{HoldsOfTree};
ghost use Rattle.path_walk.specs.Parts.{AnswersPart};

use crate::WalkError;
use crate::refusals::refused_part;
use crate::steps::{Next, next_step};
use dir_reads::lookup;
use lufs_base::{Ino, Name};
use meta_draft::Draft;
use meta_store::MetaRead;
use std::alloc::Global;
use tree_types::Cred;

/// What a part of a path leads to.
#[derive(Drop)]
pub(crate) struct Lead {
    /// The inode that it names.
    pub(crate) found: Option<Ino>,
    /// How the walk goes on after it.
    pub(crate) next: Next,
}

/// Looks a part up in inode `dir`. `last` says that no part is left, and `follow` that a link there is followed then.
pub(crate) fn look_up<S: MetaRead>(
    alloc: Global,
    draft: &Draft,
    store: &mut S,
    cred: &Cred,
    dir: Ino,
    part: &Name,
    last: bool,
    follow: bool,
) -> Result<Lead, WalkError>
    ensures value { HoldsOfTree (drafted draft.now.change (S.store store.old)) (λ tree. AnswersPart tree cred.now follow dir.0 part.now last result) }
    ensures unchanged { IsUnchanged (S.store store.old) (S.store store.new) }
    ensures kept { IsKept (S.changing store.old) (S.changing store.new) }
    ensures failure { FailsJustAt (IsErrOf result Disk) (S.store store.old).disk (S.store store.new).disk }
{
    if let Some(why) = refused_part(draft, store, cred, dir, part)? {
        return Err(WalkError::Refused(why));
    }
    let found = lookup(alloc, draft, store, dir, part)?;
    let next = next_step(alloc, draft, store, last, follow, found)?;
    Ok(Lead { found, next })
}
