//! The bits of inodes and blocks that are given up, cleared in the record of their group.
ghost use Rattle.std.specs.Prelude.{◌≡◌, ◌≤◌, ◌*◌, [], length, true, false, IfSome, All};
ghost use Rattle.lufs_base.specs.Fields.{AreBytes};
ghost use Rattle.lufs_base.specs.Layout.{IsGeometry};
ghost use Rattle.volume_model.specs.Format.{is_body, clear_bits, IsGroup};
ghost use Rattle.volume_model.specs.Sound.{has_right_counts};
ghost use Rattle.change_laws.specs.Hands.{one_block};
ghost use Rattle.change_laws.specs.Marks.{group_of_block, HasHandPut};
ghost use Rattle.cyl_groups.specs.Group.{record_of, HasSizesOf};
ghost use Rattle.file_map.specs.Freed.{hand_of, is_block_of, IsInodeOf, IsCountedGroup};

use cyl_groups::{Group, is_set};
use lufs_base::{BlockNo, Geometry, Ino};
use meta_store::Freed;

// How many of the first `n` bits are clear.
fn count_clear(bits: &[u8], n: u32) -> u32
    requires { n ≤ 8 * length bits.now }
    ensures { result ≡ clear_bits bits.now n }
{
    (0..n).filter(|i| !is_set(bits, *i)).count() as u32
}

// The group with its counts by its bits, which are the counts that it has where the volume is sound.
fn counted(g: &Geometry, group: &Group) -> Group
    requires geometry { IsGeometry g.now }
    requires sizes { HasSizesOf g.now group.now }
    requires group { IsGroup g.now group.now.number (record_of group.now) }
    ensures group { IsCountedGroup g.now result }
    ensures number { result.number ≡ group.now.number }
    ensures inode_bits { result.inode_bits ≡ group.now.inode_bits }
    ensures block_bits { result.block_bits ≡ group.now.block_bits }
{
    let mut counted = *group;
    counted.free_inodes = count_clear(&group.inode_bits, g.ipg);
    counted.free_blocks = count_clear(&group.block_bits, g.bpg);
    counted
}

// These are so many bytes.
fn are_bytes(bits: &[u8], n: usize)
    requires { length bits.now ≡ n }
    ensures size { length bits.now ≡ n }
    ensures bytes { AreBytes bits.now }
{}

// Clears the bit of the inode, if there is one, and counts it.
fn clear_inode(g: &Geometry, group: &mut Group, inode: Option<Ino>)
    requires geometry { IsGeometry g.now }
    requires group { IsCountedGroup g.now group.old }
    requires inode { IfSome inode (IsInodeOf g.now group.old.number) }
    ensures group { IsCountedGroup g.now group.new }
    ensures number { group.new.number ≡ group.old.number }
    ensures put { HasHandPut g.now group.old.number false (hand_of inode []) (record_of group.old) (record_of group.new) }
{
    if let Some(i) = inode {
        let place = i.0 % g.ipg;
        if is_set(&group.inode_bits, place) {
            group.clear_inode(place);
            are_bytes(&group.inode_bits, 128);
        }
    }
}

// Clears the bit of a block, and counts it.
fn clear_block(g: &Geometry, group: &mut Group, b: BlockNo)
    requires geometry { IsGeometry g.now }
    requires group { IsCountedGroup g.now group.old }
    requires body { is_body g.now b.0 ≡ true }
    requires its_group { group_of_block g.now b.0 ≡ group.old.number }
    ensures group { IsCountedGroup g.now group.new }
    ensures number { group.new.number ≡ group.old.number }
    ensures put { HasHandPut g.now group.old.number false (one_block b.0) (record_of group.old) (record_of group.new) }
{
    let place = (b.0 - g.group_block(0).0) % g.bpg;
    if is_set(&group.block_bits, place) {
        group.clear_block(place);
        are_bytes(&group.block_bits, 256);
    }
}

/// The group with the bits of these cleared, and with right counts. They are of this group.
pub(crate) fn cleared(g: &Geometry, group: &Group, inode: Option<Ino>, freed: &[Freed]) -> Group
    requires geometry { IsGeometry g.now }
    requires sizes { HasSizesOf g.now group.now }
    requires group { IsGroup g.now group.now.number (record_of group.now) }
    requires inode { IfSome inode (IsInodeOf g.now group.now.number) }
    requires blocks { All (λ f. is_block_of g.now group.now.number f ≡ true) freed.now }
    ensures number { result.number ≡ group.now.number }
    ensures group { IsGroup g.now group.now.number (record_of result) }
    ensures counts { has_right_counts g.now (record_of result) ≡ true }
    ensures put { HasHandPut g.now group.now.number false (hand_of inode freed.now) (record_of group.now) (record_of result) }
{
    let mut cleared = counted(g, group);
    clear_inode(g, &mut cleared, inode);
    for f in freed {
        clear_block(g, &mut cleared, f.block);
    }
    cleared
}
