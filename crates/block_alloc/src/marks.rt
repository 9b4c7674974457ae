//! The bits of a hand, set in the record of a group.
ghost use Rattle.std.specs.Prelude.{◌≡◌, ◌<◌, ◌≤◌, ◌*◌, ◌+◌, ◌/◌, true, Some, [], length};
ghost use Rattle.lufs_base.specs.Fields.{AreBytes};
ghost use Rattle.lufs_base.specs.Layout.{IsGeometry};
ghost use Rattle.volume_model.specs.Format.{is_body};
ghost use Rattle.change_laws.specs.Hands.{one_block};
ghost use Rattle.change_laws.specs.Marks.{group_of_block, HasBlockPut, HasInodePut, HasHandPut};
ghost use Rattle.cyl_groups.specs.Group.{record_of};
ghost use Rattle.block_alloc.specs.Records.{IsReadGroup};
ghost use Rattle.block_alloc.specs.Marks.{IsOfVolume, IsCountedGroup, has_of_group};

use crate::records::count_clear;
use cyl_groups::{Group, is_set};
use lufs_base::Geometry;
use volume_model::Hand;

/// The group that block `b` lies in, which is one of a group.
pub(crate) fn group_of_block(g: &Geometry, b: u32) -> u32
    requires { IsGeometry g.now }
    ensures { result ≡ group_of_block g.now b }
{
    b.saturating_sub(g.group_block(0).0) / g.bpg
}

/// Whether the hand has an inode or a block of group `n`.
pub(crate) fn has_of_group(g: &Geometry, hand: &Hand, n: u32) -> bool
    requires { IsGeometry g.now }
    ensures { result ≡ has_of_group g.now hand.now n }
{
    if let Some(i) = hand.inode {
        if i / g.ipg == n {
            return true;
        }
    }
    for b in hand.blocks.as_slice() {
        if group_of_block(g, *b) == n {
            return true;
        }
    }
    false
}

/// The group with its counts by its bits, which are the counts that it has where the volume is sound.
pub(crate) fn counted(g: &Geometry, group: &Group) -> Group
    requires geometry { IsGeometry g.now }
    requires group { IsReadGroup g.now group.now.number (Some group.now) }
    ensures group { IsCountedGroup g.now result }
    ensures number { result.number ≡ group.now.number }
    ensures inode_bits { result.inode_bits ≡ group.now.inode_bits }
    ensures block_bits { result.block_bits ≡ group.now.block_bits }
{
    let mut counted = *group;
    counted.free_inodes = count_clear(&group.inode_bits, g.ipg);
    counted.free_blocks = count_clear(&group.block_bits, g.bpg);
    counted
}

// These are so many bytes.
fn are_bytes(bits: &[u8], n: usize)
    requires { length bits.now ≡ n }
    ensures size { length bits.now ≡ n }
    ensures bytes { AreBytes bits.now }
{}

/// Puts the bit of the block at this place of the group, and counts it.
pub(crate) fn put_block(g: &Geometry, group: &mut Group, place: u32, value: bool)
    requires geometry { IsGeometry g.now }
    requires group { IsCountedGroup g.now group.old }
    requires body { g.now.ipg / 32 < place }
    requires inside { place < g.now.bpg }
    ensures group { IsCountedGroup g.now group.new }
    ensures put { HasBlockPut place value (record_of group.old) (record_of group.new) }
{
    if is_set(&group.block_bits, place) == value {
        return;
    }
    if value {
        group.set_block(place);
    } else {
        group.clear_block(place);
    }
    are_bytes(&group.block_bits, 256);
}

/// Puts the bit of the inode at this place of the group, and counts it.
pub(crate) fn put_inode(g: &Geometry, group: &mut Group, place: u32, value: bool)
    requires geometry { IsGeometry g.now }
    requires group { IsCountedGroup g.now group.old }
    requires usable { 2 ≤ group.old.number * g.now.ipg + place }
    requires inside { place < g.now.ipg }
    ensures group { IsCountedGroup g.now group.new }
    ensures put { HasInodePut place value (record_of group.old) (record_of group.new) }
{
    if is_set(&group.inode_bits, place) == value {
        return;
    }
    if value {
        group.set_inode(place);
    } else {
        group.clear_inode(place);
    }
    are_bytes(&group.inode_bits, 128);
}

// Sets the bit of the hand's inode, where it has one of this group.
fn mark_inode(g: &Geometry, group: &mut Group, hand: &Hand)
    requires geometry { IsGeometry g.now }
    requires group { IsCountedGroup g.now group.old }
    requires hand { IsOfVolume g.now hand.now }
    ensures group { IsCountedGroup g.now group.new }
    ensures number { group.new.number ≡ group.old.number }
    ensures put { HasHandPut g.now group.old.number true (record hand.now { blocks = [] }) (record_of group.old) (record_of group.new) }
{
    if let Some(i) = hand.inode {
        if i / g.ipg == group.number {
            put_inode(g, group, i % g.ipg, true);
        }
    }
}

// Sets the bit of this block, where it is one of the group.
fn mark_block(g: &Geometry, group: &mut Group, b: u32)
    requires geometry { IsGeometry g.now }
    requires group { IsCountedGroup g.now group.old }
    requires body { is_body g.now b ≡ true }
    ensures group { IsCountedGroup g.now group.new }
    ensures number { group.new.number ≡ group.old.number }
    ensures put { HasHandPut g.now group.old.number true (one_block b) (record_of group.old) (record_of group.new) }
{
    let away = b - g.group_block(0).0;
    if away / g.bpg == group.number {
        put_block(g, group, away % g.bpg, true);
    }
}

/// Sets the bits of all that the hand has of this group, and counts them.
pub(crate) fn mark(g: &Geometry, group: &mut Group, hand: &Hand)
    requires geometry { IsGeometry g.now }
    requires group { IsCountedGroup g.now group.old }
    requires hand { IsOfVolume g.now hand.now }
    ensures group { IsCountedGroup g.now group.new }
    ensures number { group.new.number ≡ group.old.number }
    ensures put { HasHandPut g.now group.old.number true hand.now (record_of group.old) (record_of group.new) }
{
    mark_inode(g, group, hand);
    for b in hand.blocks.as_slice() {
        mark_block(g, group, *b);
    }
}
