//! What the slots of one directory say.
ghost use Rattle.std.specs.Prelude.{◌≡◌, ◌==◌, map, IfOk, IsTrue, false, not, ◌&&◌};
ghost use Rattle.std.specs.List.{list_any};
ghost use Rattle.std.specs.Cmp.Lexicographic.{slice_cmp};
ghost use Rattle.std.specs.Ordering.{nat_cmp};
ghost use Rattle.std.specs.declared.cmp.Ordering.TheVariants.{Less};
ghost use Rattle.volume_model.specs.Sound.{begins_right, has_twice};
ghost use Rattle.fsck_core.specs.Slots.{slot_of, used_slots, is_used_among, unused_named};

use crate::entries::Entry;
use crate::inodes::Brief;
use lufs_base::Mem;
use std::alloc::Global;
use std::cmp::Ordering;
use std::collections::BTreeSet;

// The first two slots are the directory itself, in 12 bytes, and the one above it.
pub(crate) fn begins_right(i: u32, slots: &[Entry]) -> bool
    ensures { result ≡ begins_right i (map slot_of slots.now) }
{
    match slots {
        [this, above, ..] => {
            this.name == b".".as_slice()
                && this.len == 12
                && this.ino == i
                && above.name == b"..".as_slice()
        }
        _ => false,
    }
}

// The first name comes before the second in the order of their bytes.
fn comes_before(first: &[u8], second: &[u8]) -> bool
    ensures { IsTrue result → slice_cmp nat_cmp first.now second.now ≡ Less }
{
    matches!(first.cmp(second), Ordering::Less)
}

// Each slot in use has a name that comes after all before it, so none has one that another has.
fn are_rising(slots: &[Entry]) -> bool
    ensures { IsTrue result → has_twice (used_slots (map slot_of slots.now)) ≡ false }
{
    let mut last: &[u8] = &[];
    for slot in slots {
        if slot.ino != 0 {
            let name = slot.name;
            if !comes_before(last, name) {
                return false;
            }
            last = name;
        }
    }
    true
}

// Two slots in use have one name. Names in their order need no set.
pub(crate) fn has_twice(alloc: Global, slots: &[Entry]) -> Result<bool, Mem>
    ensures { IfOk result (λ twice. twice ≡ has_twice (used_slots (map slot_of slots.now))) }
{
    if are_rising(slots) {
        return Ok(false);
    }
    finds_twice(alloc, slots)
}

// Two slots in use have one name, which a set of their names finds.
fn finds_twice(alloc: Global, slots: &[Entry]) -> Result<bool, Mem>
    ensures { IfOk result (λ twice. twice ≡ has_twice (used_slots (map slot_of slots.now))) }
{
    let mut names = BTreeSet::new(alloc);
    for slot in slots {
        if slot.ino != 0 && !names.insert(slot.name)? {
            return Ok(true);
        }
    }
    Ok(false)
}

// An inode of this number is in use.
fn is_used(inodes: &[Option<Brief>], i: u32) -> bool
    ensures { result ≡ is_used_among inodes.now i }
{
    matches!(inodes.get(i as usize), Some(Some(_)))
}

// The slot is in use, and names an inode that isn't.
fn is_unused_named(inodes: &[Option<Brief>], slot: &Entry) -> bool
    ensures { result ≡ (not (slot.now.ino == 0) && not (is_used_among inodes.now slot.now.ino)) }
{
    slot.ino != 0 && !is_used(inodes, slot.ino)
}

fn has_unused_named(inodes: &[Option<Brief>], slots: &[Entry]) -> bool
    ensures { result ≡ list_any (λ e. not (e.ino == 0) && not (is_used_among inodes.now e.ino)) slots.now }
{
    slots.iter().any(|slot| is_unused_named(inodes, slot))
}

// A slot in use names an inode that isn't.
pub(crate) fn names_unused(inodes: &[Option<Brief>], slots: &[Entry]) -> bool
    ensures { result ≡ unused_named inodes.now (map slot_of slots.now) }
{
    has_unused_named(inodes, slots)
}

// The slots begin as they should, and have no name twice.
pub(crate) fn are_right(alloc: Global, i: u32, slots: &[Entry]) -> Result<bool, Mem>
    ensures { IfOk result (λ right. right ≡ (begins_right i (map slot_of slots.now) && not (has_twice (used_slots (map slot_of slots.now))))) }
{
    Ok(begins_right(i, slots) && !has_twice(alloc, slots)?)
}
