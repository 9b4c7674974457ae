//! A call planned, whose path was walked.
ghost use Rattle.std.specs.Prelude.{◌≤◌, List, IfSome, IfOk, IsTrue, IsErrOf};
ghost use Rattle.lufs_base.specs.Layout.{need_of};
ghost use Rattle.lufs_base.specs.Name.{IsName};
ghost use Rattle.volume_model.specs.declared.hand.Hand.{Hand};
ghost use Rattle.volume_model.specs.Log.{delta_bytes};
ghost use Rattle.volume_model.specs.Sound.{Tree};
ghost use Rattle.sector_disk.specs.Disk.{FailsJustAt};
ghost use Rattle.history_model.specs.Ends.{One};
ghost use Rattle.meta_store.specs.Store.{IsUnchanged};
ghost use Rattle.meta_store.specs.Changing.{IsKept, all_told};
ghost use Rattle.meta_store.specs.Conditions.{MayApply};
ghost use Rattle.meta_store.specs.declared.error.StoreError.TheVariants.{Disk};
ghost use Rattle.plan_ends.specs.Planned.{ino_of, MayPlan, IsPlanned};
ghost use Rattle.path_walk.specs.Answers.{end_of};
ghost use Rattle.call_ops.specs.Served.{changes_names, has_right_words};

use block_alloc::Hands;
use meta_store::{Change, MetaRead, StoreError};
use name_ops::{plan_create, plan_mkdir, plan_remove, plan_rmdir};
use path_walk::Walked;
use std::alloc::Global;
use tree_types::{Call, Cred, Reply};
use volume_model::Hand;

/// The change of a call whose path was walked to this end, and its reply. The hand is what it wants now.
pub fn plan<S: MetaRead>(
    alloc: Global,
    store: &mut S,
    cred: &Cred,
    call: &Call,
    walked: &Walked,
    hand: &Hand,
    held: &Hands,
    moment: u64,
) -> Result<(Change, Reply), StoreError>
    requires changes { IsTrue (changes_names call.now) }
    requires words { IsTrue (has_right_words call.now) }
    requires name { IsName walked.now.name }
    requires room { IfSome (S.changing store.old).room (λ room. need_of (S.store store.old).geometry ≤ room) }
    requires may { IfSome (S.store store.old).content (λ image. (tree : Tree) × (after : List Hand)
        × MayPlan (all_told (S.store store.old) (S.changing store.old)) image tree cred.now call.now (One (end_of walked.now)) held.now hand.now after) }
    ensures planned { (tree : Tree) (after : List Hand) → IfSome (S.store store.old).content (λ image.
        MayPlan (all_told (S.store store.old) (S.changing store.old)) image tree cred.now call.now (One (end_of walked.now)) held.now hand.now after
        → IfOk result (λ planned. IsPlanned (S.store store.old).geometry image tree cred.now call.now (ino_of hand.now) moment after planned.0 planned.1)) }
    ensures applies { IfOk result (λ planned. MayApply planned.0 (all_told (S.store store.old) (S.changing store.old))) }
    ensures size { IfOk result (λ planned. delta_bytes planned.0.deltas ≤ need_of (S.store store.old).geometry) }
    ensures unchanged { IsUnchanged (S.store store.old) (S.store store.new) }
    ensures kept { IsKept (S.changing store.old) (S.changing store.new) }
    ensures failure { FailsJustAt (IsErrOf result Disk) (S.store store.old).disk (S.store store.new).disk }
{
    match call {
        Call::Create { mode, .. } => {
            plan_create(alloc, store, cred, *mode, walked, hand, held, moment)
        }
        Call::Mkdir { mode, .. } => {
            plan_mkdir(alloc, store, cred, *mode, walked, hand, held, moment)
        }
        Call::Remove { .. } => plan_remove(alloc, store, cred, walked, moment),
        Call::Rmdir { .. } => plan_rmdir(alloc, store, cred, walked, moment),
        _ => unreachable!(),
    }
}
