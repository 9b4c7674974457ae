//! The names that `list` tells.
ghost use Rattle.std.specs.Prelude.{◌≡◌, ℕ, List, option_map, IsSomeAnd, IsErrOf};
ghost use Rattle.lufs_base.specs.declared.geometry.Geometry.{Geometry};
ghost use Rattle.tree_types.specs.declared.call.Call.TheVariants as call;
ghost use Rattle.volume_model.specs.Sound.{Tree};
ghost use Rattle.sector_disk.specs.Disk.{FailsJustAt};
ghost use Rattle.history_model.specs.Walk.{WalkEnd, first_of};
ghost use Rattle.history_model.specs.Refusals.{Proceed, list_refusals};
ghost use Rattle.meta_store.specs.Store.{IsUnchanged};
ghost use Rattle.meta_store.specs.Changing.{IsKept};
ghost use Rattle.meta_store.specs.declared.error.StoreError.TheVariants.{Disk};
ghost use Rattle.inode_reads.specs.Answers.{AnswersByTree};
ghost use Rattle.inode_reads.specs.InodeOf.{IsInodeOf};
ghost use Rattle.path_walk.specs.Answers.{end_of};
ghost use Rattle.file_ops.specs.Replies.{IsReplyTo, decision_by};

use dir_reads::entries;
use inode_reads::{is_directory, may, read_inode};
use lufs_base::{Ino, Name};
use meta_draft::Draft;
use meta_store::{MetaRead, StoreError};
use path_walk::Walked;
use std::alloc::Global;
use tree_types::{Cred, Refusal, Reply};
use volume_model::Dinode;

/// How many names one reply tells.
const NAMES_TOLD: u32 = 16;

/// The right to read.
const READ: u16 = 4;

// Why the names of the inode aren't told that a walk found, and that was read.
fn refusal_of(found: Option<Dinode>, cred: &Cred) -> Option<Refusal>
    ensures { (g : Geometry) (tree : Tree) (p : WalkEnd) → IsSomeAnd p.found (λ i. IsInodeOf g tree i found) → decision_by result ≡ first_of (list_refusals tree cred.now p) Proceed }
{
    let Some(d) = found else {
        return Some(Refusal::Notdir);
    };
    if !is_directory(&d) {
        return Some(Refusal::Notdir);
    }
    if !may(&d, cred, READ) {
        return Some(Refusal::Denied);
    }
    None
}

/// What `list` is answered where its walk ends so: the first names that come after this one. It answers `Disk` exactly
/// where a read failed.
pub fn list<S: MetaRead>(
    alloc: Global,
    store: &mut S,
    cred: &Cred,
    walked: &Walked,
    after: Option<&Name>,
) -> Result<Reply, StoreError>
    ensures value { (path : List ℕ) → AnswersByTree (S.store store.old) (λ tree. IsReplyTo (S.store store.old).geometry tree cred.now (call.List path (option_map (λ n. n.now) after.entry)) (end_of walked.now)) result }
    ensures unchanged { IsUnchanged (S.store store.old) (S.store store.new) }
    ensures kept { IsKept (S.changing store.old) (S.changing store.new) }
    ensures failure { FailsJustAt (IsErrOf result Disk) (S.store store.old).disk (S.store store.new).disk }
{
    let Some(i) = walked.found else {
        return Ok(Reply::Refused(Refusal::Noent));
    };
    let found = read_inode(alloc, store, i)?;
    if let Some(why) = refusal_of(found, cred) {
        return Ok(Reply::Refused(why));
    }
    let draft = Draft::new(alloc);
    let (names, more) = entries(alloc, &draft, store, i, after, NAMES_TOLD)?;
    Ok(Reply::Names(names, more))
}
