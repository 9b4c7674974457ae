//! The bits of the groups, and their counts.
ghost use Rattle.std.specs.Prelude.{◌≡◌, ◌<◌, ◌≤◌, ◌*◌, ◌^◌, [], ℕ, length, map, slice_get, is_some, IfSome, IsTrue};
ghost use Rattle.std.specs.List.{count_by};
ghost use Rattle.lufs_base.specs.Layout.{IsGeometry, group_start, blocks_of};
ghost use Rattle.volume_model.specs.Format.{Blocks, inodes_of, body_blocks_of, clear_bits};
ghost use Rattle.volume_model.specs.declared.finding.Kind.TheVariants.{InodeBit, BlockBit, Count};
ghost use Rattle.volume_model.specs.Sound.{reading_of, claims_of, inode_bit, has_bad_inode_bit, has_bad_count, has_right_counts, first_of_kind, counts_of};
ghost use Rattle.cyl_groups.specs.Group.{record_of};
ghost use Rattle.fsck_core.specs.Bits.{block_bit_among, has_other_bit, BlocksAgree};
ghost use Rattle.fsck_core.specs.Inodes.{AreBriefs};
ghost use Rattle.fsck_core.specs.Tables.{AreGroups};
ghost use Rattle.fsck_core.specs.Claimed.{HasClaimed};

use crate::claims::Claims;
use crate::inodes::Brief;
use cyl_groups::{Group, is_set};
use lufs_base::{BlockNo, Geometry};
use volume_model::Counts;

/// The first inode whose bit doesn't say whether it is in use.
pub(crate) fn first_bad_inode_bit(
    g: &Geometry,
    groups: &[Group],
    inodes: &[Option<Brief>],
) -> Option<u32>
    requires geometry { IsGeometry g.now }
    requires groups { length groups.now ≡ g.now.groups }
    requires inodes { length inodes.now ≡ inodes_of g.now }
    ensures { (blocks : Blocks) → AreGroups g.now blocks groups.now → AreBriefs g.now blocks inodes.now
        → result ≡ first_of_kind g.now (reading_of g.now blocks) [] InodeBit }
{
    (0..g.groups * g.ipg).find(|i| has_bad_inode_bit(g, groups, inodes, *i))
}

/// The first body block whose bit doesn't say whether it is claimed.
pub(crate) fn first_bad_block_bit(g: &Geometry, groups: &[Group], claims: &Claims) -> Option<u32>
    requires geometry { IsGeometry g.now }
    requires groups { length groups.now ≡ g.now.groups }
    requires room { blocks_of g.now ≤ 8 * length claims.now.bits.items }
    ensures { (blocks : Blocks) → AreGroups g.now blocks groups.now
        → HasClaimed (blocks_of g.now) (map (λ claim. claim.block) (claims_of (reading_of g.now blocks))) claims.now
        → result ≡ first_of_kind g.now (reading_of g.now blocks) [] BlockBit }
{
    // Group by group, without a division for each block. Mostly that is all.
    if all_blocks_agree(g, groups, claims) {
        return None;
    }
    (0..g.total()).find(|b| has_bad_block_bit(g, groups, claims, *b))
}

/// The first group whose counts are not those of its bits.
pub(crate) fn first_bad_count(g: &Geometry, groups: &[Group]) -> Option<u32>
    requires geometry { IsGeometry g.now }
    requires groups { length groups.now ≡ g.now.groups }
    ensures { (blocks : Blocks) → AreGroups g.now blocks groups.now
        → result ≡ first_of_kind g.now (reading_of g.now blocks) [] Count }
{
    (0..g.groups).find(|n| has_bad_count(g, groups, *n))
}

/// How many inodes are in use, how many blocks they claim, and how many body blocks are left.
pub(crate) fn counts(g: &Geometry, inodes: &[Option<Brief>], claims: &Claims) -> Counts
    requires geometry { IsGeometry g.now }
    requires inodes { length inodes.now ≡ inodes_of g.now }
    ensures { (blocks : Blocks) → AreBriefs g.now blocks inodes.now
        → HasClaimed (blocks_of g.now) (map (λ claim. claim.block) (claims_of (reading_of g.now blocks))) claims.now
        → result ≡ counts_of g.now (reading_of g.now blocks) }
{
    Counts {
        inodes: count_used(inodes),
        blocks: claims.count,
        // Of a volume that is not sound there may be more claims than body blocks.
        free: body_blocks(g).saturating_sub(claims.count),
    }
}

// Whether the bit of inode `i` doesn't say whether it is in use. The inodes 0 and 1 never are, though their bits
// are set.
fn has_bad_inode_bit(g: &Geometry, groups: &[Group], inodes: &[Option<Brief>], i: u32) -> bool
    requires geometry { IsGeometry g.now }
    requires groups { length groups.now ≡ g.now.groups }
    requires inodes { length inodes.now ≡ inodes_of g.now }
    requires inside { i < inodes_of g.now }
    ensures { (blocks : Blocks) → AreGroups g.now blocks groups.now → AreBriefs g.now blocks inodes.now
        → result ≡ has_bad_inode_bit g.now (reading_of g.now blocks) [] i }
{
    i >= 2 && inode_bit(g, groups, i) != inodes[i as usize].is_some()
}

// Whether the bit of inode `i` is set.
fn inode_bit(g: &Geometry, groups: &[Group], i: u32) -> bool
    requires geometry { IsGeometry g.now }
    requires groups { length groups.now ≡ g.now.groups }
    requires inside { i < inodes_of g.now }
    ensures { (blocks : Blocks) → AreGroups g.now blocks groups.now → result ≡ inode_bit g.now (reading_of g.now blocks) i }
{
    is_set(&groups[(i / g.ipg) as usize].inode_bits, i % g.ipg)
}

// Whether `b` is a body block, and its bit doesn't say whether it is claimed.
fn has_bad_block_bit(g: &Geometry, groups: &[Group], claims: &Claims, b: u32) -> bool
    requires geometry { IsGeometry g.now }
    requires groups { length groups.now ≡ g.now.groups }
    requires room { blocks_of g.now ≤ 8 * length claims.now.bits.items }
    requires inside { b < blocks_of g.now }
    ensures { result ≡ has_other_bit g.now groups.now claims.now b }
{
    g.is_body(BlockNo(b)) && block_bit(g, groups, b) != claims.is_claimed(b)
}

// Whether the bit of block `b`, which is one of a group, is set.
fn block_bit(g: &Geometry, groups: &[Group], b: u32) -> bool
    requires geometry { IsGeometry g.now }
    requires groups { length groups.now ≡ g.now.groups }
    requires low { group_start g.now 0 ≤ b }
    requires inside { b < blocks_of g.now }
    ensures { result ≡ block_bit_among g.now groups.now b }
{
    let at = b - g.group_block(0).0;
    is_set(&groups[(at / g.bpg) as usize].block_bits, at % g.bpg)
}

// Whether the bit of each body block says whether it is claimed.
fn all_blocks_agree(g: &Geometry, groups: &[Group], claims: &Claims) -> bool
    requires geometry { IsGeometry g.now }
    requires groups { length groups.now ≡ g.now.groups }
    requires room { blocks_of g.now ≤ 8 * length claims.now.bits.items }
    ensures { IsTrue result → (n : ℕ) → n < g.now.groups → IfSome (slice_get groups.now n) (λ x. BlocksAgree g.now n x claims.now g.now.bpg) }
{
    for n in 0..g.groups {
        if !blocks_agree(g, n, &groups[n as usize], claims) {
            return false;
        }
    }
    true
}

// Whether the bit of each body block of group `n` says whether it is claimed.
fn blocks_agree(g: &Geometry, n: u32, group: &Group, claims: &Claims) -> bool
    requires geometry { IsGeometry g.now }
    requires inside { n < g.now.groups }
    requires room { blocks_of g.now ≤ 8 * length claims.now.bits.items }
    ensures { IsTrue result → BlocksAgree g.now n group.now claims.now g.now.bpg }
{
    let start = g.group_block(n).0;
    for k in 1 + g.ipg / 32..g.bpg {
        if is_set(&group.block_bits, k) != claims.is_claimed(start + k) {
            return false;
        }
    }
    true
}

// Whether a count of group `n` is not that of its clear bits.
fn has_bad_count(g: &Geometry, groups: &[Group], n: u32) -> bool
    requires geometry { IsGeometry g.now }
    requires groups { length groups.now ≡ g.now.groups }
    requires inside { n < g.now.groups }
    ensures { (blocks : Blocks) → AreGroups g.now blocks groups.now → result ≡ has_bad_count g.now (reading_of g.now blocks) n }
{
    !has_right_counts(g, &groups[n as usize])
}

// Whether both counts of a group are those of its clear bits.
fn has_right_counts(g: &Geometry, group: &Group) -> bool
    requires { IsGeometry g.now }
    ensures { result ≡ has_right_counts g.now (record_of group.now) }
{
    group.free_inodes == count_clear(&group.inode_bits, g.ipg)
        && group.free_blocks == count_clear(&group.block_bits, g.bpg)
}

// How many of the first `n` bits are clear.
fn count_clear(bits: &[u8], n: u32) -> u32
    requires { n ≤ 8 * length bits.now }
    ensures { result ≡ clear_bits bits.now n }
{
    (0..n).filter(|i| !is_set(bits, *i)).count() as u32
}

// How many inodes are in use.
fn count_used(inodes: &[Option<Brief>]) -> u32
    requires { length inodes.now < 2 ^ 32 }
    ensures { result ≡ count_by is_some inodes.now }
{
    let mut count = 0;
    for inode in inodes {
        if inode.is_some() {
            count += 1;
        }
    }
    count
}

// How many body blocks the volume has: those of each group after the group block and the inode blocks.
fn body_blocks(g: &Geometry) -> u32
    requires { IsGeometry g.now }
    ensures { result ≡ body_blocks_of g.now }
{
    g.groups * (g.bpg - (1 + g.ipg / 32))
}
