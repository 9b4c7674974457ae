//! `remove`: takes out a name of a file or of a link, which goes with its last name.
ghost use Rattle.std.specs.Prelude.{◌≡◌, ◌≤◌, ◌+◌, ◌*◌, ℕ, [], List, Option, IfSome, IfOk, IsErrOf};
ghost use Rattle.lufs_base.specs.Layout.{IsGeometry, need_of};
ghost use Rattle.volume_model.specs.declared.hand.Hand.{Hand};
ghost use Rattle.volume_model.specs.Format.{block};
ghost use Rattle.volume_model.specs.Log.{delta_bytes};
ghost use Rattle.volume_model.specs.Sound.{Tree, StandsFor};
ghost use Rattle.sector_disk.specs.Disk.{FailsJustAt};
ghost use Rattle.tree_types.specs.declared.call.Call.TheVariants.{Remove};
ghost use Rattle.tree_types.specs.declared.credentials.Cred.{Cred};
ghost use Rattle.history_model.specs.Ends.{One};
ghost use Rattle.history_model.specs.Wants.{wants_at};
ghost use Rattle.history_model.specs.Refusals.{Proceed, decision_at};
ghost use Rattle.history_model.specs.Replies.{tree_after};
ghost use Rattle.meta_store.specs.Store.{IsUnchanged};
ghost use Rattle.meta_store.specs.Changing.{IsKept, all_told};
ghost use Rattle.meta_store.specs.Conditions.{MayApply};
ghost use Rattle.meta_store.specs.declared.error.StoreError.TheVariants.{Disk};
ghost use Rattle.plan_ends.specs.Planned.{ino_of, MayPlan, IsPlanned, IsDrawn};
ghost use Rattle.path_walk.specs.Answers.{end_of};
ghost use Rattle.name_ops.specs.Asked.{asked};

use crate::Wanted;
use crate::asking::writable;
use crate::found::is_directory_at;
use crate::links::lose_name;
use dir_ops::remove;
use file_map::IndexList;
use inode_reads::read_inode;
use meta_draft::Draft;
use meta_store::{Change, MetaRead, StoreError};
use path_walk::Walked;
use plan_ends::{finished, set_time};
use std::alloc::Global;
use tree_types::{Cred, Refusal, Reply};

/// What a `remove` wants, which is nothing, or why it is refused, whose path was walked to this end. It reads only what
/// it needs to decide, and answers `Disk` exactly where a read failed.
pub fn wants_remove<S: MetaRead>(
    alloc: Global,
    store: &mut S,
    cred: &Cred,
    walked: &Walked,
) -> Result<Wanted, StoreError>
    ensures answer { (tree : Tree) (hands : List Hand) (path : List ℕ) → IfSome (S.store store.old).content (λ image. StandsFor (S.store store.old).geometry (block image) tree hands
        → IfOk result (λ wanted. wanted ≡ asked (decision_at (S.store store.old).geometry tree cred.now (Remove path) (One (end_of walked.now))) (wants_at tree (Remove path) (One (end_of walked.now))))) }
    ensures unchanged { IsUnchanged (S.store store.old) (S.store store.new) }
    ensures kept { IsKept (S.changing store.old) (S.changing store.new) }
    ensures failure { FailsJustAt (IsErrOf result Disk) (S.store store.old).disk (S.store store.new).disk }
{
    let Some(i) = walked.found else {
        return Ok(Wanted::Refused(Refusal::Noent));
    };
    let record = writable(alloc, store, cred, walked.dir)?;
    if record.is_none() {
        return Ok(Wanted::Refused(Refusal::Denied));
    }
    let directory = is_directory_at(alloc, store, i)?;
    if directory {
        return Ok(Wanted::Refused(Refusal::Isdir));
    }
    Ok(Wanted::Wants {
        inode: false,
        fresh: IndexList::new(alloc),
        others: 0,
    })
}

// Draws the directory without the name, its time, and the inode with a link less, or without it.
fn draw_remove<S: MetaRead>(
    alloc: Global,
    store: &mut S,
    walked: &Walked,
    moment: u64,
) -> Result<Draft, StoreError>
    requires { IsGeometry (S.store store.old).geometry }
    ensures drawn { (tree : Tree) (cred : Cred) (path : List ℕ) (hand : Hand) (held after : List Hand) → IfSome (S.store store.old).content (λ image.
        MayPlan (all_told (S.store store.old) (S.changing store.old)) image tree cred (Remove path) (One (end_of walked.now)) held hand after
        → decision_at (S.store store.old).geometry tree cred (Remove path) (One (end_of walked.now)) ≡ Proceed
        → IfOk result (λ draft. IsDrawn (S.store store.old).geometry image (S.changing store.old).is_taken draft.change (tree_after (S.store store.old).geometry tree cred (ino_of hand) moment (Remove path)) after)) }
    ensures taken { IfOk result (λ draft. draft.change.taken ≡ []) }
    ensures growth { IfOk result (λ draft. delta_bytes draft.change.deltas ≤ 4928 + 432 * (S.store store.old).geometry.groups) }
    ensures unchanged { IsUnchanged (S.store store.old) (S.store store.new) }
    ensures kept { IsKept (S.changing store.old) (S.changing store.new) }
    ensures failure { FailsJustAt (IsErrOf result Disk) (S.store store.old).disk (S.store store.new).disk }
{
    let mut draft = Draft::new(alloc);
    let Some(i) = walked.found else {
        return Ok(draft);
    };
    let Some(d) = read_inode(alloc, store, i)? else {
        return Ok(draft);
    };
    remove(alloc, &mut draft, store, walked.dir, &walked.name)?;
    set_time(alloc, &mut draft, store, walked.dir, moment)?;
    lose_name(alloc, &mut draft, store, i, d.links)?;
    Ok(draft)
}

/// The change of a `remove` whose path was walked to this end, and its reply.
pub fn plan_remove<S: MetaRead>(
    alloc: Global,
    store: &mut S,
    cred: &Cred,
    walked: &Walked,
    moment: u64,
) -> Result<(Change, Reply), StoreError>
    requires room { IfSome (S.changing store.old).room (λ room. need_of (S.store store.old).geometry ≤ room) }
    requires may { IfSome (S.store store.old).content (λ image. (tree : Tree) × (path : List ℕ) × (hand : Hand) × (held : List Hand) × (after : List Hand)
        × MayPlan (all_told (S.store store.old) (S.changing store.old)) image tree cred.now (Remove path) (One (end_of walked.now)) held hand after) }
    ensures planned { (tree : Tree) (path : List ℕ) (hand : Hand) (held after : List Hand) → IfSome (S.store store.old).content (λ image.
        MayPlan (all_told (S.store store.old) (S.changing store.old)) image tree cred.now (Remove path) (One (end_of walked.now)) held hand after
        → IfOk result (λ planned. IsPlanned (S.store store.old).geometry image tree cred.now (Remove path) (ino_of hand) moment after planned.0 planned.1)) }
    ensures applies { IfOk result (λ planned. MayApply planned.0 (all_told (S.store store.old) (S.changing store.old))) }
    ensures size { IfOk result (λ planned. delta_bytes planned.0.deltas ≤ need_of (S.store store.old).geometry) }
    ensures unchanged { IsUnchanged (S.store store.old) (S.store store.new) }
    ensures kept { IsKept (S.changing store.old) (S.changing store.new) }
    ensures failure { FailsJustAt (IsErrOf result Disk) (S.store store.old).disk (S.store store.new).disk }
{
    let g = *store.geometry();
    if let Wanted::Refused(why) = wants_remove(alloc, store, cred, walked)? {
        return Ok((Change::new(alloc), Reply::Refused(why)));
    }
    let draft = draw_remove(alloc, store, walked, moment)?;
    Ok((finished(alloc, &g, draft), Reply::Done))
}
