//! Changes of the slots of a chunk: a name is entered, given another inode, or removed.
ghost use Rattle.std.specs.Prelude.{◌≡◌, ◌^◌, ◌<◌, ◌≤◌, sum_by, All, length, OnOk, OnErr};
ghost use Rattle.volume_model.specs.Format.{kept_length, with_name_at, with_ino, without_slot};

use crate::slot::kept_length;
use lufs_base::{Mem, Name};
use volume_model::Slot;

// The slot at this place takes a name for inode `ino`. An `Err` leaves the slots as they were.
pub fn enter_at(slots: &mut Vec<Slot>, place: usize, name: Name, ino: u32) -> Result<(), Mem>
    requires inside { place < length slots.old.items }
    requires kept { All (λ s. kept_length s ≤ s.len) slots.old.items }
    ensures ok { OnOk result (slots.new.items ≡ with_name_at slots.old.items place name ino) }
    ensures err { OnErr result (slots.new.items ≡ slots.old.items) }
{
    let slot = &mut slots[place];
    if slot.ino == 0 {
        slot.ino = ino;
        slot.name = name;
        return Ok(());
    }
    let len = slot.len;
    let kept = kept_length(slot) as u16;
    slots.insert(
        place + 1,
        Slot {
            ino,
            len: len - kept,
            name,
        },
    )?;
    let slot = &mut slots[place];
    slot.len = kept;
    Ok(())
}

// Lets the slot at this place name inode `ino`.
pub fn renumber_at(slots: &mut Vec<Slot>, place: usize, ino: u32)
    requires { place < length slots.old.items }
    ensures { slots.new.items ≡ with_ino slots.old.items place ino }
{
    let slot = &mut slots[place];
    slot.ino = ino;
}

// Removes the slot at this place.
pub fn remove_at(slots: &mut Vec<Slot>, place: usize)
    requires inside { place < length slots.old.items }
    requires fits { sum_by (λ s. s.len) slots.old.items < 2 ^ 16 }
    ensures { slots.new.items ≡ without_slot slots.old.items place }
{
    if place == 0 {
        let slot = &mut slots[0];
        slot.ino = 0;
        slot.name.clear();
    } else {
        let freed = slots.remove(place);
        let slot = &mut slots[place - 1];
        slot.len += freed.len;
    }
}
