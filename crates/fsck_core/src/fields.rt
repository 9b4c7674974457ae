//! Whether the links, the size and the block numbers of an inode are right.
ghost use Rattle.std.specs.Prelude.{◌≡◌, ◌≢◌, ◌<◌, ◌≤◌, ℕ, ◌*◌, ◌%◌, ◌^◌, ◌==◌, ◌&&◌, ◌||◌, true, not, List, Option, All, IsTrue, length, take, drop};
ghost use Rattle.std.specs.List.{count_by, list_all};
ghost use Rattle.lufs_base.specs.Fields.{are_zeros};
ghost use Rattle.lufs_base.specs.Layout.{IsGeometry};
ghost use Rattle.lufs_base.specs.declared.geometry.Geometry.{Geometry};
ghost use Rattle.volume_model.specs.declared.directory.Slot.{Slot};
ghost use Rattle.volume_model.specs.Format.{is_body, is_directory, is_file};
ghost use Rattle.volume_model.specs.Sound.{size_in_blocks, named_pointers, has_right_links, has_right_size, has_none_past, has_no_hole, has_right_numbers, has_right_fields};
ghost use Rattle.fsck_core.specs.Claimed.{used_with, blocks_claimed, IsReadable};

use lufs_base::{BlockNo, Geometry};
use volume_model::Dinode;

/// Whether the links, the size and the block numbers of an inode are right, whose numbers by index are these.
/// Past their end it has none.
pub(crate) fn has_right_fields(g: &Geometry, d: &Dinode, numbers: &[u32]) -> bool
    requires geometry { IsGeometry g.now }
    requires numbers { length numbers.now ≤ 1036 }
    ensures value { (i : ℕ) (chunks : List (Option (List Slot))) → result ≡ has_right_fields g.now i (record { inode = d.now; pointers = named_pointers d.now; numbers = numbers.now; chunks = chunks }) }
    ensures bodies { IsTrue result → All (λ b. is_body g.now b ≡ true) (blocks_claimed d.now numbers.now) }
    ensures directory { IsTrue result → is_directory d.now.mode ≡ true → IsReadable g.now d.now numbers.now }
    ensures size { IsTrue result → d.now.size ≤ 4096 * 1036 }
    ensures below { IsTrue result → blocks_claimed d.now (take (size_in_blocks d.now.size) numbers.now) ≡ blocks_claimed d.now numbers.now }
{
    has_right_links(d) && has_right_numbers(g, d, numbers)
}

fn has_right_links(d: &Dinode) -> bool
    ensures { result ≡ has_right_links d.now }
{
    matches!(d.links, 1..=32_767)
}

/// Whether the size, the numbers of blocks and their count are right.
fn has_right_numbers(g: &Geometry, d: &Dinode, numbers: &[u32]) -> bool
    requires geometry { IsGeometry g.now }
    requires numbers { length numbers.now ≤ 1036 }
    ensures value { (i : ℕ) (chunks : List (Option (List Slot))) → result ≡ has_right_numbers g.now i (used_with d.now numbers.now chunks) }
    ensures size { IsTrue result → d.now.size ≤ 4096 * 1036 }
{
    if !has_right_size(d) {
        return false;
    }
    if !has_none_past(d, numbers) {
        return false;
    }
    // Now nothing is claimed past the size, and only the numbers below it are left to look at.
    has_no_wrong_hole(d, numbers) && has_right_claims(g, d, below_size(d, numbers))
}

fn has_right_size(d: &Dinode) -> bool
    ensures value { (g : Geometry) → result ≡ has_right_size g d.now }
    ensures most { IsTrue result → d.now.size ≤ 4096 * 1036 }
{
    d.is_file() && d.size <= 4096 * 1036
        || d.is_directory() && d.size % 512 == 0 && 512 <= d.size && d.size <= 4096 * 256
        || d.is_link() && 1 <= d.size && d.size <= 1024
}

/// How many blocks have room for so many bytes.
fn size_in_blocks(size: u64) -> usize
    requires { size ≤ 4096 * 1036 }
    ensures value { result ≡ size_in_blocks size }
    ensures most { result ≤ 1036 }
{
    ((size + 4095) / 4096) as usize
}

/// The numbers at the indexes below the size, as far as there are any.
pub(crate) fn below_size<'a>(d: &Dinode, numbers: &'a [u32]) -> &'a [u32]
    requires { d.now.size ≤ 4096 * 1036 }
    ensures value { result.now ≡ take (size_in_blocks d.now.size) numbers.now }
    ensures most { length result.now ≤ length numbers.now }
{
    &numbers[..size_in_blocks(d.size).min(numbers.len())]
}

/// The numbers at the indexes past the size.
fn past_size<'a>(d: &Dinode, numbers: &'a [u32]) -> &'a [u32]
    requires { d.now.size ≤ 4096 * 1036 }
    ensures { result.now ≡ drop (size_in_blocks d.now.size) numbers.now }
{
    &numbers[size_in_blocks(d.size).min(numbers.len())..]
}

/// Whether no block is claimed past the size, nor a pointer block where the direct ones have room for the size.
fn has_none_past(d: &Dinode, numbers: &[u32]) -> bool
    requires { d.now.size ≤ 4096 * 1036 }
    ensures { (chunks : List (Option (List Slot))) → result ≡ has_none_past (used_with d.now numbers.now chunks) }
{
    are_zeros(past_size(d, numbers)) && (d.indirect[0] == 0 || 12 < size_in_blocks(d.size))
}

fn are_zeros(numbers: &[u32]) -> bool
    ensures { result ≡ are_zeros numbers.now }
{
    let mut are = true;
    // None ends the loop early, so that a few are looked at at once.
    for b in numbers {
        are &= *b == 0;
    }
    are
}

/// Whether the inode may have the holes that it has: a file may have any.
fn has_no_wrong_hole(d: &Dinode, numbers: &[u32]) -> bool
    requires { d.now.size ≤ 4096 * 1036 }
    ensures { (chunks : List (Option (List Slot))) → result ≡ (is_file d.now.mode || has_no_hole (used_with d.now numbers.now chunks)) }
{
    d.is_file() || has_no_hole(d, numbers)
}

/// Whether there is a block at each index below the size.
fn has_no_hole(d: &Dinode, numbers: &[u32]) -> bool
    requires { d.now.size ≤ 4096 * 1036 }
    ensures { (chunks : List (Option (List Slot))) → result ≡ has_no_hole (used_with d.now numbers.now chunks) }
{
    size_in_blocks(d.size) <= numbers.len() && have_no_zero(below_size(d, numbers))
}

fn have_no_zero(numbers: &[u32]) -> bool
    ensures { result ≡ list_all (λ b. not (b == 0)) numbers.now }
{
    numbers.iter().all(|b| *b != 0)
}

/// Whether each block that is claimed is a body block, and so many are as the inode counts.
fn has_right_claims(g: &Geometry, d: &Dinode, numbers: &[u32]) -> bool
    requires geometry { IsGeometry g.now }
    requires numbers { length numbers.now ≤ 1036 }
    ensures { result ≡ (list_all (is_body g.now) (blocks_claimed d.now numbers.now) && d.now.blocks == length (blocks_claimed d.now numbers.now)) }
{
    are_bodies(g, d, numbers) && d.blocks as usize == count_claimed(d, numbers)
}

/// Whether each block that is claimed is a body block.
fn are_bodies(g: &Geometry, d: &Dinode, numbers: &[u32]) -> bool
    requires { IsGeometry g.now }
    ensures { result ≡ list_all (is_body g.now) (blocks_claimed d.now numbers.now) }
{
    is_none_or_body(g, d.indirect[0]) && numbers.iter().all(|b| is_none_or_body(g, *b))
}

/// Whether the number claims no block, or a body block.
pub(crate) fn is_none_or_body(g: &Geometry, b: u32) -> bool
    requires { IsGeometry g.now }
    ensures { result ≡ (b == 0 || is_body g.now b) }
{
    b == 0 || g.is_body(BlockNo(b))
}

/// How many blocks are claimed.
fn count_claimed(d: &Dinode, numbers: &[u32]) -> usize
    requires { length numbers.now ≤ 1036 }
    ensures { result ≡ length (blocks_claimed d.now numbers.now) }
{
    let at_indexes = count_nonzero(numbers);
    if d.indirect[0] == 0 {
        at_indexes
    } else {
        at_indexes + 1
    }
}

fn count_nonzero(numbers: &[u32]) -> usize
    ensures value { result ≡ count_by (λ b. not (b == 0)) numbers.now }
    ensures most { result ≤ length numbers.now }
{
    numbers.iter().filter(|b| **b != 0).count()
}
