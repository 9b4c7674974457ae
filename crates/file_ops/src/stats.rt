//! What `stat` and `lstat` tell.
ghost use Rattle.std.specs.Prelude.{◌≡◌, ℕ, List, Some, IsErrOf};
ghost use Rattle.lufs_base.specs.declared.geometry.Geometry.{Geometry};
ghost use Rattle.tree_types.specs.declared.credentials.Cred.{Cred};
ghost use Rattle.tree_types.specs.declared.call.Call.TheVariants as call;
ghost use Rattle.tree_types.specs.declared.reply.Reply.TheVariants.{Stat};
ghost use Rattle.volume_model.specs.Sound.{Tree};
ghost use Rattle.sector_disk.specs.Disk.{FailsJustAt};
ghost use Rattle.history_model.specs.Replies.{stat_reply};
ghost use Rattle.meta_store.specs.Store.{IsUnchanged};
ghost use Rattle.meta_store.specs.Changing.{IsKept};
ghost use Rattle.meta_store.specs.declared.error.StoreError.TheVariants.{Disk};
ghost use Rattle.inode_reads.specs.Answers.{AnswersByTree};
ghost use Rattle.inode_reads.specs.InodeOf.{IsInodeOf};
ghost use Rattle.path_walk.specs.Answers.{end_of};
ghost use Rattle.file_ops.specs.Replies.{IsReplyTo};

use inode_reads::read_inode;
use lufs_base::Ino;
use meta_store::{MetaRead, StoreError};
use path_walk::Walked;
use std::alloc::Global;
use tree_types::{Refusal, Reply, StatInfo};
use volume_model::Dinode;

// What is told of inode `i`, by its record.
fn info_of(i: Ino, d: &Dinode) -> StatInfo
    ensures { (g : Geometry) (tree : Tree) → IsInodeOf g tree i.0 (Some d.now) → Stat result ≡ stat_reply g tree i.0 }
{
    StatInfo {
        ino: i.0,
        mode: d.mode,
        links: d.links,
        uid: d.uid,
        gid: d.gid,
        size: d.size,
        mtime: d.mtime,
        blocks: d.blocks,
    }
}

// The reply about inode `i`, which was read.
fn reply_of(i: Ino, found: Option<Dinode>) -> Reply
    ensures { (g : Geometry) (tree : Tree) → IsInodeOf g tree i.0 found → result ≡ stat_reply g tree i.0 }
{
    match found {
        Some(d) => Reply::Stat(info_of(i, &d)),
        None => Reply::Done,
    }
}

/// What `stat` and `lstat` are answered where their walk ends so. It answers `Disk` exactly where a read failed.
pub fn stat<S: MetaRead>(alloc: Global, store: &mut S, walked: &Walked) -> Result<Reply, StoreError>
    ensures stat { (cred : Cred) (path : List ℕ) → AnswersByTree (S.store store.old) (λ tree. IsReplyTo (S.store store.old).geometry tree cred (call.Stat path) (end_of walked.now)) result }
    ensures lstat { (cred : Cred) (path : List ℕ) → AnswersByTree (S.store store.old) (λ tree. IsReplyTo (S.store store.old).geometry tree cred (call.Lstat path) (end_of walked.now)) result }
    ensures unchanged { IsUnchanged (S.store store.old) (S.store store.new) }
    ensures kept { IsKept (S.changing store.old) (S.changing store.new) }
    ensures failure { FailsJustAt (IsErrOf result Disk) (S.store store.old).disk (S.store store.new).disk }
{
    let Some(i) = walked.found else {
        return Ok(Reply::Refused(Refusal::Noent));
    };
    let found = read_inode(alloc, store, i)?;
    Ok(reply_of(i, found))
}
