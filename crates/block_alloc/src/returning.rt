//! Puts back what a call took.
ghost use Rattle.std.specs.Prelude.{◌≡◌, ◌<◌, ◌≤◌, ◌*◌, true, Some, [], ◌∷◌, OnOk, IfSome};
ghost use Rattle.lufs_base.specs.Layout.{IsGeometry, group_start};
ghost use Rattle.volume_model.specs.Format.{group_bytes, is_body};
ghost use Rattle.sector_disk.specs.Disk.{CountsFailure};
ghost use Rattle.meta_store.specs.Changing.{all_told};
ghost use Rattle.meta_store.specs.Changes.{Amends};
ghost use Rattle.meta_store.specs.Conditions.{MayAmend};
ghost use Rattle.change_laws.specs.Hands.{one_block, one_inode};
ghost use Rattle.change_laws.specs.Marks.{group_of_inode, group_of_block};
ghost use Rattle.cyl_groups.specs.Group.{record_of};
ghost use Rattle.block_alloc.specs.Records.{IsReadGroup};
ghost use Rattle.block_alloc.specs.Returning.{Returns};
ghost use Rattle.block_alloc.specs.Marking.{IsHeldHand, HasPutBack, HasPutBackSome, PutsBackWhole, no_hand};

use crate::marks::{counted, group_of_block, put_block, put_inode};
use crate::records::group_record;
use cyl_groups::{Group, write_group};
use lufs_base::{BlockNo, DiskFault, Geometry};
use meta_store::MetaStore;
use volume_model::Hand;

// Puts the record in the place of the one that is held of its group, by which these blocks are given back.
fn amend_group<S: MetaStore>(store: &mut S, group: &Group, returned: &[BlockNo])
    requires within { group.now.number < (S.store store.old).geometry.groups }
    requires may { MayAmend (4096 * group_start (S.store store.old).geometry group.now.number) (group_bytes (record_of group.now)) returned.now (all_told (S.store store.old) (S.changing store.old)) }
    ensures { Amends (4096 * group_start (S.store store.old).geometry group.now.number) (group_bytes (record_of group.now)) returned.now (all_told (S.store store.old) (S.changing store.old)) (all_told (S.store store.new) (S.changing store.new)) }
{
    let mut bytes = [0; 416];
    write_group(group, &mut bytes);
    let home = 4096 * u64::from(store.geometry().group_block(group.number).0);
    store.amend(home, &bytes, returned);
}

// The group with the bit of this block cleared.
fn without_block(g: &Geometry, group: &Group, b: u32) -> Group
    requires geometry { IsGeometry g.now }
    requires group { IsReadGroup g.now group.now.number (Some group.now) }
    requires within { group.now.number < g.now.groups }
    requires body { is_body g.now b ≡ true }
    requires its_group { group_of_block g.now b ≡ group.now.number }
    ensures number { result.number ≡ group.now.number }
    ensures returns { Returns g.now (one_block b) group.now.number (record_of group.now) (record_of result) (record { 0 = b } ∷ []) }
{
    let mut cleared = counted(g, group);
    let away = b - g.group_block(0).0;
    put_block(g, &mut cleared, away % g.bpg, false);
    cleared
}

// The same with that of an inode.
fn without_inode(g: &Geometry, group: &Group, i: u32) -> Group
    requires geometry { IsGeometry g.now }
    requires group { IsReadGroup g.now group.now.number (Some group.now) }
    requires within { group.now.number < g.now.groups }
    requires usable { 2 ≤ i }
    requires its_group { group_of_inode g.now i ≡ group.now.number }
    ensures number { result.number ≡ group.now.number }
    ensures returns { Returns g.now (one_inode i) group.now.number (record_of group.now) (record_of result) [] }
{
    let mut cleared = counted(g, group);
    put_inode(g, &mut cleared, i % g.ipg, false);
    cleared
}

// Puts a block back. Where the record of its group can't be read, it stays, and the answer is false: such a
// volume isn't sound.
fn return_block<S: MetaStore>(store: &mut S, b: u32) -> Result<bool, DiskFault>
    requires { IsHeldHand (one_block b) (all_told (S.store store.old) (S.changing store.old)) }
    ensures whole { PutsBackWhole result (one_block b) (all_told (S.store store.old) (S.changing store.old)) (all_told (S.store store.new) (S.changing store.new)) }
    ensures failure { CountsFailure result (S.store store.old).disk (S.store store.new).disk }
{
    let g = *store.geometry();
    let Some(group) = group_record(store, group_of_block(&g, b))? else {
        return Ok(false);
    };
    let cleared = without_block(&g, &group, b);
    amend_group(store, &cleared, &[BlockNo(b)]);
    Ok(true)
}

// The same of an inode.
fn return_inode<S: MetaStore>(store: &mut S, i: u32) -> Result<bool, DiskFault>
    requires { IsHeldHand (one_inode i) (all_told (S.store store.old) (S.changing store.old)) }
    ensures whole { PutsBackWhole result (one_inode i) (all_told (S.store store.old) (S.changing store.old)) (all_told (S.store store.new) (S.changing store.new)) }
    ensures failure { CountsFailure result (S.store store.old).disk (S.store store.new).disk }
{
    let g = *store.geometry();
    let Some(group) = group_record(store, i / g.ipg)? else {
        return Ok(false);
    };
    let cleared = without_inode(&g, &group, i);
    amend_group(store, &cleared, &[]);
    Ok(true)
}

/// Puts back a hand that was taken in the running transaction: clears its bits, after which its blocks may be
/// given out again. After an `Err` a part of it may have been put back, and all else is as it was.
pub fn put_back<S: MetaStore>(store: &mut S, hand: &Hand) -> Result<(), DiskFault>
    requires { IsHeldHand hand.now (all_told (S.store store.old) (S.changing store.old)) }
    // A store that tells its content gets all of the hand back.
    ensures ok { OnOk result (IfSome (S.store store.old).content (λ image.
        HasPutBack hand.now no_hand (all_told (S.store store.old) (S.changing store.old)) (all_told (S.store store.new) (S.changing store.new)))) }
    ensures some { HasPutBackSome hand.now (all_told (S.store store.old) (S.changing store.old)) (all_told (S.store store.new) (S.changing store.new)) }
    ensures failure { CountsFailure result (S.store store.old).disk (S.store store.new).disk }
{
    for b in hand.blocks.as_slice() {
        if !return_block(store, *b)? {
            return Ok(());
        }
    }
    if let Some(i) = hand.inode {
        return_inode(store, i)?;
    }
    Ok(())
}
