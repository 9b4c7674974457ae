//! What the names of directories say of each inode: its links, who names it, and what is above it.
ghost use Rattle.std.specs.Prelude.{◌≡◌, ◌<◌, ◌+◌, ℕ, map, IfOk};
ghost use Rattle.volume_model.specs.Sound.{Names, slots_at};
ghost use Rattle.fsck_core.specs.NameTables.{with_namer, is_dot, with_parent, with_link, with_name, HasSizes, HasNames};
ghost use Rattle.fsck_core.specs.Slots.{slot_of};

use crate::entries::Entry;
use lufs_base::Mem;
use std::alloc::Global;

/// Which directories name an inode, besides by `.` and `..`.
#[derive(Clone, Copy, Debug, PartialEq, Eq)]
pub(crate) enum Namer {
    Nobody,
    /// This one, once.
    One(u32),
    /// More than one, or one more than once.
    Many,
}

impl Namer {
    // As directory `i` names the inode once more.
    fn with(self, i: u32) -> Namer
        ensures { result ≡ with_namer self i }
    {
        match self {
            Namer::Nobody => Namer::One(i),
            Namer::One(_) | Namer::Many => Namer::Many,
        }
    }
}

/// What the names of directories say of each inode.
#[derive(Drop)]
pub(crate) struct NameTables {
    /// How many slots name it, as far as the number goes.
    pub(crate) links: Vec<u32>,
    pub(crate) namers: Vec<Namer>,
    /// The directory above it, where it is one, and 0 elsewhere.
    pub(crate) parents: Vec<u32>,
}

impl NameTables {
    /// Tables of `n` inodes, of which none was looked at.
    pub(crate) fn new(alloc: Global, n: u32) -> Result<Self, Mem>
        ensures sizes { IfOk result (HasSizes n) }
        ensures names { IfOk result (λ t. (m : Names) → HasNames n 0 m t) }
    {
        let n = n as usize;
        Ok(NameTables {
            links: vec![in alloc; 0; n]?,
            namers: vec![in alloc; Namer::Nobody; n]?,
            parents: vec![in alloc; 0; n]?,
        })
    }

    /// Enters the slots of directory `i`.
    pub(crate) fn enter(&mut self, i: u32, slots: &[Entry])
        ensures sizes { (n : ℕ) → HasSizes n self.old → HasSizes n self.new }
        ensures names { (n : ℕ) (m : Names) → i < n → slots_at m i ≡ map slot_of slots.now → HasNames n i m self.old → HasNames n (i + 1) m self.new }
    {
        set_parent(&mut self.parents, i, slots);
        for slot in slots {
            add_link(&mut self.links, slot);
            add_name(&mut self.namers, i, slot);
        }
    }
}

// Sets what is above directory `i`, which its second slot names.
fn set_parent(parents: &mut Vec<u32>, i: u32, slots: &[Entry])
    ensures { parents.new.items ≡ with_parent i (map slot_of slots.now) parents.old.items }
{
    let Some(above) = slots.get(1) else {
        return;
    };
    if let Some(parent) = parents.get_mut(i as usize) {
        *parent = above.ino;
    }
}

// Counts the slot for the inode that it names, if it is in use.
fn add_link(links: &mut Vec<u32>, slot: &Entry)
    ensures { links.new.items ≡ with_link links.old.items (slot_of slot.now) }
{
    if slot.ino == 0 {
        return;
    }
    if let Some(count) = links.get_mut(slot.ino as usize) {
        *count = count.saturating_add(1);
    }
}

// Enters directory `i`, whose slot it is, for the inode that it names.
fn add_name(namers: &mut Vec<Namer>, i: u32, slot: &Entry)
    ensures { namers.new.items ≡ with_name i namers.old.items (slot_of slot.now) }
{
    if slot.ino == 0 {
        return;
    }
    if is_dot(slot) {
        return;
    }
    if let Some(namer) = namers.get_mut(slot.ino as usize) {
        *namer = namer.with(i);
    }
}

// Whether the slot has the name of the directory itself or of the one above it.
fn is_dot(slot: &Entry) -> bool
    ensures { result ≡ is_dot (slot_of slot.now) }
{
    if slot.name.len() > 2 {
        return false;
    }
    slot.name == b".".as_slice() || slot.name == b"..".as_slice()
}
