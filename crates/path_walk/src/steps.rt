//! How a walk goes on after a part of its path.
ghost use Rattle.std.specs.Prelude.{◌≡◌, option_map, IfOk, IsErrOf};
ghost use Rattle.sector_disk.specs.Disk.{FailsJustAt};
ghost use Rattle.meta_store.specs.Store.{IsUnchanged};
ghost use Rattle.meta_store.specs.Changing.{IsKept};
ghost use Rattle.meta_store.specs.declared.error.StoreError.TheVariants.{Disk};
ghost use Rattle.meta_draft.specs.Drafted.{drafted};
ghost use Rattle.history_model.specs.Walk.{step_of};
ghost use Rattle.path_walk.specs.Answers.{HoldsOfTree};
ghost use Rattle.path_walk.specs.Steps.{step_taken};

use crate::links::link_text;
use lufs_base::Ino;
use meta_draft::Draft;
use meta_store::{MetaRead, StoreError};
use std::alloc::Global;

/// How a walk goes on after a part of its path.
#[derive(Drop)]
pub(crate) enum Next {
    /// It ends there.
    End,
    /// What it needs isn't there.
    Missing,
    /// It follows a link with this text.
    Follow(Vec<u8>),
    /// It goes on from this inode.
    Go(Ino),
}

/// How a walk goes on after a part for which this inode was found. `last` says that no part is left, and `follow` that
/// a link there is followed.
pub(crate) fn next_step<S: MetaRead>(
    alloc: Global,
    draft: &Draft,
    store: &mut S,
    last: bool,
    follow: bool,
    found: Option<Ino>,
) -> Result<Next, StoreError>
    ensures value { HoldsOfTree (drafted draft.now.change (S.store store.old)) (λ tree. IfOk result (λ next. step_taken next ≡ step_of tree last follow (option_map (λ i. i.0) found))) }
    ensures unchanged { IsUnchanged (S.store store.old) (S.store store.new) }
    ensures kept { IsKept (S.changing store.old) (S.changing store.new) }
    ensures failure { FailsJustAt (IsErrOf result Disk) (S.store store.old).disk (S.store store.new).disk }
{
    let Some(i) = found else {
        return Ok(if last { Next::End } else { Next::Missing });
    };
    if last && !follow {
        return Ok(Next::End);
    }
    match link_text(alloc, draft, store, i)? {
        Some(text) => Ok(Next::Follow(text)),
        None if last => Ok(Next::End),
        None => Ok(Next::Go(i)),
    }
}
