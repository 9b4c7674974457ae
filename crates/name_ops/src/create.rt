//! `create`: makes an empty file with a name.
ghost use Rattle.std.specs.Prelude.{◌≡◌, ◌≤◌, ◌<◌, ◌^◌, ℕ, true, List, Option, IfSome, IfOk, IsErrOf};
ghost use Rattle.lufs_base.specs.Layout.{need_of};
ghost use Rattle.lufs_base.specs.Name.{IsName};
ghost use Rattle.volume_model.specs.declared.hand.Hand.{Hand};
ghost use Rattle.volume_model.specs.Format.{block};
ghost use Rattle.volume_model.specs.Log.{delta_bytes};
ghost use Rattle.volume_model.specs.Sound.{Tree, StandsFor};
ghost use Rattle.sector_disk.specs.Disk.{FailsJustAt};
ghost use Rattle.tree_types.specs.declared.call.Call.TheVariants.{Create};
ghost use Rattle.history_model.specs.Ends.{One};
ghost use Rattle.history_model.specs.Places.{is_directory_in};
ghost use Rattle.history_model.specs.Wants.{wants_at};
ghost use Rattle.history_model.specs.Refusals.{Proceed, decision_at};
ghost use Rattle.history_model.specs.Replies.{tree_after};
ghost use Rattle.meta_store.specs.Store.{IsUnchanged};
ghost use Rattle.meta_store.specs.Changing.{IsKept, all_told};
ghost use Rattle.meta_store.specs.Conditions.{MayApply};
ghost use Rattle.meta_store.specs.NoChange.{no_change};
ghost use Rattle.dir_ops.specs.Edits.{PutsDeltas};
ghost use Rattle.meta_store.specs.declared.error.StoreError.TheVariants.{Disk};
ghost use Rattle.plan_ends.specs.Planned.{ino_of, MayPlan, IsPlanned, IsDrawn};
ghost use Rattle.path_walk.specs.Answers.{end_of};
ghost use Rattle.name_ops.specs.Asked.{asked};
ghost use Rattle.name_ops.specs.NewRecords.{file_record};

use crate::Wanted;
use crate::asking::{lack, name_blocks, writable};
use block_alloc::Hands;
use dir_ops::enter;
use file_map::IndexList;
use meta_draft::Draft;
use meta_store::{Change, MetaRead, StoreError};
use path_walk::Walked;
use plan_ends::{blocks_in, finished, inode_in, set_time};
use std::alloc::Global;
use tree_types::{Cred, Refusal, Reply};
use volume_model::{Dinode, Hand};

/// What a `create` wants, or why it is refused, whose path was walked to this end. It reads only what it needs to
/// decide, and answers `Disk` exactly where a read failed.
pub fn wants_create<S: MetaRead>(
    alloc: Global,
    store: &mut S,
    cred: &Cred,
    walked: &Walked,
    held: &Hands,
) -> Result<Wanted, StoreError>
    ensures answer { (tree : Tree) (path : List ℕ) (mode : ℕ) → IfSome (S.store store.old).content (λ image. StandsFor (S.store store.old).geometry (block image) tree held.now
        → is_directory_in tree walked.now.dir.0 ≡ true
        → IfOk result (λ wanted. wanted ≡ asked (decision_at (S.store store.old).geometry tree cred.now (Create path mode) (One (end_of walked.now))) (wants_at tree (Create path mode) (One (end_of walked.now))))) }
    ensures unchanged { IsUnchanged (S.store store.old) (S.store store.new) }
    ensures kept { IsKept (S.changing store.old) (S.changing store.new) }
    ensures failure { FailsJustAt (IsErrOf result Disk) (S.store store.old).disk (S.store store.new).disk }
{
    let Some(d) = writable(alloc, store, cred, walked.dir)? else {
        return Ok(Wanted::Refused(Refusal::Denied));
    };
    if walked.found.is_some() {
        return Ok(Wanted::Refused(Refusal::Exist));
    }
    let Some(others) = name_blocks(alloc, store, walked.dir, &d, &walked.name)? else {
        return Ok(Wanted::Refused(Refusal::Fbig));
    };
    if let Some(why) = lack(store, true, others, held)? {
        return Ok(Wanted::Refused(why));
    }
    Ok(Wanted::Wants {
        inode: true,
        fresh: IndexList::new(alloc),
        others,
    })
}

// The record of a new file.
fn new_file(cred: &Cred, mode: u16, moment: u64) -> Dinode
    requires { mode < 512 }
    ensures value { result ≡ file_record cred.now mode moment }
    ensures fits { (cred.now.uid < 2 ^ 32) × (cred.now.gid < 2 ^ 32) }
{
    Dinode {
        mode: 0o100000 + mode,
        links: 1,
        uid: cred.uid,
        gid: cred.gid,
        size: 0,
        mtime: moment,
        direct: [0; 12],
        indirect: [0; 3],
        blocks: 0,
    }
}

// Draws the file, its name, and the time of its directory.
fn draw_create<S: MetaRead>(
    alloc: Global,
    store: &mut S,
    cred: &Cred,
    mode: u16,
    walked: &Walked,
    hand: &Hand,
    moment: u64,
) -> Result<Draft, StoreError>
    requires name { IsName walked.now.name }
    requires mode { mode < 512 }
    ensures drawn { (tree : Tree) (path : List ℕ) (held after : List Hand) → IfSome (S.store store.old).content (λ image.
        MayPlan (all_told (S.store store.old) (S.changing store.old)) image tree cred.now (Create path mode) (One (end_of walked.now)) held hand.now after
        → decision_at (S.store store.old).geometry tree cred.now (Create path mode) (One (end_of walked.now)) ≡ Proceed
        → IfOk result (λ draft. IsDrawn (S.store store.old).geometry image (S.changing store.old).is_taken draft.change (tree_after (S.store store.old).geometry tree cred.now (ino_of hand.now) moment (Create path mode)) after)) }
    ensures deltas { IfOk result (λ draft. PutsDeltas no_change draft.change) }
    ensures growth { IfOk result (λ draft. delta_bytes draft.change.deltas ≤ 1012) }
    ensures unchanged { IsUnchanged (S.store store.old) (S.store store.new) }
    ensures kept { IsKept (S.changing store.old) (S.changing store.new) }
    ensures failure { FailsJustAt (IsErrOf result Disk) (S.store store.old).disk (S.store store.new).disk }
{
    let g = *store.geometry();
    let mut draft = Draft::new(alloc);
    let Some(i) = inode_in(&g, hand) else {
        return Ok(draft);
    };
    let file = new_file(cred, mode, moment);
    draft.put_inode(alloc, &g, i, Some(&file))?;
    let fresh = blocks_in(alloc, hand)?;
    enter(
        alloc,
        &mut draft,
        store,
        walked.dir,
        &walked.name,
        i,
        fresh.as_slice(),
    )?;
    set_time(alloc, &mut draft, store, walked.dir, moment)?;
    Ok(draft)
}

/// The change of a `create` whose path was walked to this end, and its reply. The hand is what it wants now.
pub fn plan_create<S: MetaRead>(
    alloc: Global,
    store: &mut S,
    cred: &Cred,
    mode: u16,
    walked: &Walked,
    hand: &Hand,
    held: &Hands,
    moment: u64,
) -> Result<(Change, Reply), StoreError>
    requires name { IsName walked.now.name }
    requires mode { mode < 512 }
    requires room { IfSome (S.changing store.old).room (λ room. need_of (S.store store.old).geometry ≤ room) }
    requires may { IfSome (S.store store.old).content (λ image. (tree : Tree) × (path : List ℕ) × (after : List Hand)
        × MayPlan (all_told (S.store store.old) (S.changing store.old)) image tree cred.now (Create path mode) (One (end_of walked.now)) held.now hand.now after) }
    ensures planned { (tree : Tree) (path : List ℕ) (after : List Hand) → IfSome (S.store store.old).content (λ image.
        MayPlan (all_told (S.store store.old) (S.changing store.old)) image tree cred.now (Create path mode) (One (end_of walked.now)) held.now hand.now after
        → IfOk result (λ planned. IsPlanned (S.store store.old).geometry image tree cred.now (Create path mode) (ino_of hand.now) moment after planned.0 planned.1)) }
    ensures applies { IfOk result (λ planned. MayApply planned.0 (all_told (S.store store.old) (S.changing store.old))) }
    ensures size { IfOk result (λ planned. delta_bytes planned.0.deltas ≤ need_of (S.store store.old).geometry) }
    ensures unchanged { IsUnchanged (S.store store.old) (S.store store.new) }
    ensures kept { IsKept (S.changing store.old) (S.changing store.new) }
    ensures failure { FailsJustAt (IsErrOf result Disk) (S.store store.old).disk (S.store store.new).disk }
{
    let g = *store.geometry();
    if let Wanted::Refused(why) = wants_create(alloc, store, cred, walked, held)? {
        return Ok((Change::new(alloc), Reply::Refused(why)));
    }
    let draft = draw_create(alloc, store, cred, mode, walked, hand, moment)?;
    Ok((finished(alloc, &g, draft), Reply::Done))
}
