//! A call that is carried out: planned, and its change applied.
ghost use Rattle.std.specs.Prelude.{◌≡◌, ℕ, Bool, [], IfOk, IsTrue, OnErr};
ghost use Rattle.lufs_base.specs.Layout.{IsGeometry};
ghost use Rattle.lufs_base.specs.Name.{IsName};
ghost use Rattle.volume_model.specs.Sound.{Tree};
ghost use Rattle.history_model.specs.Replies.{reply_of, tree_after};
ghost use Rattle.meta_store.specs.Changing.{all_told};
ghost use Rattle.plan_ends.specs.Planned.{ino_of};
ghost use Rattle.call_ops.specs.Served.{changes_names, has_right_words};
ghost use Rattle.call_ops.specs.Asked.{IsWanting};
ghost use Rattle.plain_calls.specs.InHand.{Stands, HasHand};

use crate::hands::only_hand;
use call_ops::plan;
use meta_store::{MetaRead, MetaStore, PlainStore, StoreError};
use path_walk::Walked;
use std::alloc::Global;
use tree_types::{Call, Cred, Reply};
use volume_model::Hand;

/// Carries out a call with what it has in its hand, and answers its reply. After an `Err` all is as before, and the hand
/// is still held.
pub(crate) fn carry_out(
    alloc: Global,
    store: &mut PlainStore,
    cred: &Cred,
    call: &Call,
    walked: &Walked,
    hand: &Hand,
    moment: u64,
) -> Result<Reply, StoreError>
    requires geometry { IsGeometry (⟦<PlainStore as MetaRead>⟧.store store.old).geometry }
    requires changes { IsTrue (changes_names call.now) }
    requires words { IsTrue (has_right_words call.now) }
    requires name { IsName walked.now.name }
    requires hand { (tree : Tree) × (inode : Bool) × (blocks : ℕ) × IsWanting (⟦<PlainStore as MetaRead>⟧.store store.old).geometry tree cred.now call.now walked.now inode blocks
        × HasHand inode blocks tree hand.now (all_told (⟦<PlainStore as MetaRead>⟧.store store.old) (⟦<PlainStore as MetaRead>⟧.changing store.old)) }
    ensures geometry { (⟦<PlainStore as MetaRead>⟧.store store.new).geometry ≡ (⟦<PlainStore as MetaRead>⟧.store store.old).geometry }
    ensures done { (tree : Tree) (inode : Bool) (blocks : ℕ) → IsWanting (⟦<PlainStore as MetaRead>⟧.store store.old).geometry tree cred.now call.now walked.now inode blocks
        → HasHand inode blocks tree hand.now (all_told (⟦<PlainStore as MetaRead>⟧.store store.old) (⟦<PlainStore as MetaRead>⟧.changing store.old))
        → IfOk result (λ reply. (reply ≡ reply_of (⟦<PlainStore as MetaRead>⟧.store store.old).geometry tree cred.now call.now)
        × Stands (⟦<PlainStore as MetaRead>⟧.store store.new) (tree_after (⟦<PlainStore as MetaRead>⟧.store store.old).geometry tree cred.now (ino_of hand.now) moment call.now) []) }
    ensures none { (tree : Tree) (inode : Bool) (blocks : ℕ)
        → HasHand inode blocks tree hand.now (all_told (⟦<PlainStore as MetaRead>⟧.store store.old) (⟦<PlainStore as MetaRead>⟧.changing store.old))
        → OnErr result (HasHand inode blocks tree hand.now (all_told (⟦<PlainStore as MetaRead>⟧.store store.new) (⟦<PlainStore as MetaRead>⟧.changing store.new))) }
{
    let held = only_hand(alloc, hand)?;
    let (change, reply) = plan(alloc, store, cred, call, walked, hand, &held, moment)?;
    store.apply(alloc, &change)?;
    Ok(reply)
}
