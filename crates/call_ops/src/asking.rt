//! A call asked: what it is answered, or where its path ends and what it wants.
ghost use Rattle.std.specs.Prelude.{◌≡◌, true, false, IfSome, IfOk, IsTrue, IsErrOf};
ghost use Rattle.std.specs.List.{list_all};
ghost use Rattle.tree_types.specs.declared.credentials.Cred.{Cred as AnyCred};
ghost use Rattle.volume_model.specs.Format.{block};
ghost use Rattle.volume_model.specs.Sound.{Tree, StandsFor};
ghost use Rattle.sector_disk.specs.Disk.{FailsJustAt};
ghost use Rattle.history_model.specs.Places.{is_directory_in};
ghost use Rattle.history_model.specs.Ends.{One, end_of, ends_of};
ghost use Rattle.history_model.specs.Wants.{wants_at};
ghost use Rattle.history_model.specs.Refusals.{decision_at};
ghost use Rattle.meta_store.specs.Store.{IsUnchanged};
ghost use Rattle.meta_store.specs.Changing.{IsKept};
ghost use Rattle.meta_store.specs.declared.error.StoreError.TheVariants.{Disk};
ghost use Rattle.inode_reads.specs.Answers.{AnswersByTree};
ghost use Rattle.path_walk.specs.Answers.{end_of as place_of};
ghost use Rattle.name_ops.specs.Asked.{asked};
ghost use Rattle.file_ops.specs.Replies.{IsReplyTo};
ghost use Rattle.call_ops.specs.Served.{is_served, changes_names, tells, is_path_byte, has_right_words};
ghost use Rattle.call_ops.specs.Asked.{IsAskedOn, HasName, answer_by};

use crate::Asked;
use crate::ends::end_of;
use block_alloc::Hands;
use file_ops::{list, stat};
use meta_store::{MetaRead, StoreError};
use name_ops::{Wanted, wants_create, wants_mkdir, wants_remove, wants_rmdir};
use path_walk::Walked;
use std::alloc::Global;
use tree_types::{Call, Cred, PathText, Refusal, Reply};

// What a call that changes names wants, or why it is refused, whose path was walked to this end.
fn wanted_at<S: MetaRead>(
    alloc: Global,
    store: &mut S,
    cred: &Cred,
    call: &Call,
    walked: &Walked,
    held: &Hands,
) -> Result<Wanted, StoreError>
    requires { IsTrue (changes_names call.now) }
    ensures answer { (tree : Tree) → IfSome (S.store store.old).content (λ image. StandsFor (S.store store.old).geometry (block image) tree held.now
        → is_directory_in tree walked.now.dir.0 ≡ true
        → IfOk result (λ wanted. wanted ≡ asked (decision_at (S.store store.old).geometry tree cred.now call.now (One (place_of walked.now))) (wants_at tree call.now (One (place_of walked.now))))) }
    ensures unchanged { IsUnchanged (S.store store.old) (S.store store.new) }
    ensures kept { IsKept (S.changing store.old) (S.changing store.new) }
    ensures failure { FailsJustAt (IsErrOf result Disk) (S.store store.old).disk (S.store store.new).disk }
{
    match call {
        Call::Create { .. } => wants_create(alloc, store, cred, walked, held),
        Call::Mkdir { .. } => wants_mkdir(alloc, store, cred, walked, held),
        Call::Remove { .. } => wants_remove(alloc, store, cred, walked),
        Call::Rmdir { .. } => wants_rmdir(alloc, store, cred, walked),
        _ => unreachable!(),
    }
}

// What a call that tells of an inode is answered, whose path was walked to this end.
fn told_at<S: MetaRead>(
    alloc: Global,
    store: &mut S,
    cred: &Cred,
    call: &Call,
    walked: &Walked,
) -> Result<Reply, StoreError>
    requires { IsTrue (tells call.now) }
    ensures value { AnswersByTree (S.store store.old) (λ tree. IsReplyTo (S.store store.old).geometry tree cred.now call.now (place_of walked.now)) result }
    ensures unchanged { IsUnchanged (S.store store.old) (S.store store.new) }
    ensures kept { IsKept (S.changing store.old) (S.changing store.new) }
    ensures failure { FailsJustAt (IsErrOf result Disk) (S.store store.old).disk (S.store store.new).disk }
{
    match call {
        Call::Stat { .. } => stat(alloc, store, walked),
        Call::Lstat { .. } => stat(alloc, store, walked),
        Call::List { after, .. } => list(alloc, store, cred, walked, after.as_ref()),
        _ => unreachable!(),
    }
}

// The answer to a call that changes names. None that is served wants blocks of a file.
fn answer_by(walked: Walked, wanted: Wanted) -> Asked
    ensures { result ≡ answer_by walked wanted }
{
    match wanted {
        Wanted::Refused(why) => Asked::Told(Reply::Refused(why)),
        Wanted::Wants { inode, others, .. } => Asked::Wants {
            walked,
            inode,
            blocks: others,
        },
    }
}

// A call that changes names is asked. No link at the end of its path is followed.
fn ask_to_change<S: MetaRead>(
    alloc: Global,
    store: &mut S,
    cred: &Cred,
    call: &Call,
    path: &PathText,
    held: &Hands,
) -> Result<Asked, StoreError>
    requires changes { IsTrue (changes_names call.now) }
    requires path { (tree : Tree) (who : AnyCred) → ends_of tree who call.now ≡ end_of tree who false path.now }
    requires bytes { IsTrue (list_all is_path_byte path.now) }
    ensures answer { (tree : Tree) → IfSome (S.store store.old).content (λ image. StandsFor (S.store store.old).geometry (block image) tree held.now
        → IfOk result (IsAskedOn (S.store store.old).geometry tree cred.now call.now)) }
    ensures name { IfOk result HasName }
    ensures unchanged { IsUnchanged (S.store store.old) (S.store store.new) }
    ensures kept { IsKept (S.changing store.old) (S.changing store.new) }
    ensures failure { FailsJustAt (IsErrOf result Disk) (S.store store.old).disk (S.store store.new).disk }
{
    let walked = match end_of(alloc, store, cred, path, false)? {
        Ok(walked) => walked,
        Err(why) => return Ok(Asked::Told(Reply::Refused(why))),
    };
    // A store that tells its content never sees this: what a walk looked up last is a part of the path.
    if !walked.name.is_allowed() {
        return Ok(Asked::Told(Reply::Refused(Refusal::Inval)));
    }
    let wanted = wanted_at(alloc, store, cred, call, &walked, held)?;
    Ok(answer_by(walked, wanted))
}

// A call that tells of an inode is asked; `follow` says that a link at the end of its path is followed.
fn ask_to_tell<S: MetaRead>(
    alloc: Global,
    store: &mut S,
    cred: &Cred,
    call: &Call,
    path: &PathText,
    follow: bool,
) -> Result<Asked, StoreError>
    requires tells { IsTrue (tells call.now) }
    requires path { (tree : Tree) (who : AnyCred) → ends_of tree who call.now ≡ end_of tree who follow path.now }
    ensures answer { AnswersByTree (S.store store.old) (λ tree. IsAskedOn (S.store store.old).geometry tree cred.now call.now) result }
    ensures name { IfOk result HasName }
    ensures unchanged { IsUnchanged (S.store store.old) (S.store store.new) }
    ensures kept { IsKept (S.changing store.old) (S.changing store.new) }
    ensures failure { FailsJustAt (IsErrOf result Disk) (S.store store.old).disk (S.store store.new).disk }
{
    let walked = match end_of(alloc, store, cred, path, follow)? {
        Ok(walked) => walked,
        Err(why) => return Ok(Asked::Told(Reply::Refused(why))),
    };
    let reply = told_at(alloc, store, cred, call, &walked)?;
    Ok(Asked::Told(reply))
}

/// What a call is answered at once, or where its path ends and what it wants, while others hold these hands. It reads only
/// what it needs to decide, and answers `Disk` exactly where a read failed.
pub fn ask<S: MetaRead>(
    alloc: Global,
    store: &mut S,
    cred: &Cred,
    call: &Call,
    held: &Hands,
) -> Result<Asked, StoreError>
    requires served { IsTrue (is_served call.now) }
    requires words { IsTrue (has_right_words call.now) }
    ensures answer { (tree : Tree) → IfSome (S.store store.old).content (λ image. StandsFor (S.store store.old).geometry (block image) tree held.now
        → IfOk result (IsAskedOn (S.store store.old).geometry tree cred.now call.now)) }
    ensures name { IfOk result HasName }
    ensures unchanged { IsUnchanged (S.store store.old) (S.store store.new) }
    ensures kept { IsKept (S.changing store.old) (S.changing store.new) }
    ensures failure { FailsJustAt (IsErrOf result Disk) (S.store store.old).disk (S.store store.new).disk }
{
    match call {
        Call::Create { path, .. } => ask_to_change(alloc, store, cred, call, path, held),
        Call::Mkdir { path, .. } => ask_to_change(alloc, store, cred, call, path, held),
        Call::Remove { path } => ask_to_change(alloc, store, cred, call, path, held),
        Call::Rmdir { path } => ask_to_change(alloc, store, cred, call, path, held),
        Call::Stat { path } => ask_to_tell(alloc, store, cred, call, path, true),
        Call::Lstat { path } => ask_to_tell(alloc, store, cred, call, path, false),
        Call::List { path, .. } => ask_to_tell(alloc, store, cred, call, path, true),
        _ => unreachable!(),
    }
}
