//! One slot of a chunk: its length, its name, and how it is read and written.
ghost use Rattle.std.specs.Prelude.{◌≡◌, ◌+◌, ◌-◌, ◌^◌, ◌<◌, ◌≤◌, ◌==◌, nat_le, not, ◌&&◌, bytes_eq, true, length, IfOk};
ghost use Rattle.lufs_base.specs.Fields.{u16_at, put_at};
ghost use Rattle.volume_model.specs.Format.{least_length, kept_length, is_slot, is_named, slot_at, slot_bytes, found_at, IsSlot};

use crate::fill::{put_bytes, put_zeros};
use lufs_base::{Mem, Name, get_u16, get_u32, is_name, put_u16, put_u32};
use std::alloc::Global;
use volume_model::Slot;

/// Bytes before the name of a slot.
const HEAD: usize = 8;

// The least bytes of a slot in use whose name has so many bytes.
pub fn least_length(name_len: usize) -> usize
    requires { name_len < 2 ^ 63 }
    ensures { result ≡ least_length name_len }
{
    HEAD + 4 * ((name_len + 4) / 4)
}

// The bytes of a slot that it can't spare.
pub fn kept_length(slot: &Slot) -> usize
    ensures { result ≡ kept_length slot.now }
{
    if slot.ino == 0 {
        0
    } else {
        least_length(slot.name.as_slice().len())
    }
}

// Whether the slot can spare so many bytes.
pub fn can_take(slot: &Slot, least: usize) -> bool
    ensures { result ≡ nat_le least (slot.now.len - kept_length slot.now) }
{
    least <= usize::from(slot.len).saturating_sub(kept_length(slot))
}

// Whether the slot is in use and has this name.
fn gives(slot: &Slot, name: &Name) -> bool
    ensures { result ≡ (not (slot.now.ino == 0) && bytes_eq slot.now.name name.now) }
{
    slot.ino != 0 && slot.name.as_slice() == name.as_slice()
}

// The place of the first slot in use that has this name.
pub fn find_in(slots: &[Slot], name: &Name) -> Option<usize>
    ensures { result ≡ found_at slots.now name.now }
{
    slots.iter().position(|slot| gives(slot, name))
}

// Whether the bytes of a slot have a right name, a zero byte after it, and room for both.
fn is_named(bytes: &[u8]) -> bool
    requires head { 8 ≤ length bytes.now }
    requires inside { u16_at bytes.now 4 ≤ length bytes.now }
    ensures { result ≡ is_named bytes.now }
{
    let name_len = usize::from(get_u16(bytes, 6));
    if least_length(name_len) > usize::from(get_u16(bytes, 4)) {
        return false;
    }
    if !is_name(&bytes[HEAD..HEAD + name_len]) {
        return false;
    }
    bytes[HEAD + name_len] == 0
}

// Whether a slot stands at the front of the bytes, and ends in them.
pub fn is_slot(bytes: &[u8]) -> bool
    ensures { result ≡ is_slot bytes.now }
{
    if bytes.len() < 12 {
        return false;
    }
    let len = usize::from(get_u16(bytes, 4));
    if len < 12 {
        return false;
    }
    if len > bytes.len() {
        return false;
    }
    if len % 4 != 0 {
        return false;
    }
    get_u32(bytes, 0) == 0 || is_named(bytes)
}

// The bytes of the name of the slot at the front: none if it is unused.
fn name_bytes(bytes: &[u8]) -> &[u8]
    requires { is_slot bytes.now ≡ true }
    ensures { result.now ≡ (slot_at bytes.now).name }
{
    if get_u32(bytes, 0) == 0 {
        &[]
    } else {
        &bytes[HEAD..HEAD + usize::from(get_u16(bytes, 6))]
    }
}

// The slot at the front of the bytes.
pub fn read_slot(alloc: Global, bytes: &[u8]) -> Result<Slot, Mem>
    requires { is_slot bytes.now ≡ true }
    ensures { IfOk result (λ slot. slot ≡ slot_at bytes.now) }
{
    Ok(Slot {
        ino: get_u32(bytes, 0),
        len: get_u16(bytes, 4),
        name: Name::from_slice(alloc, name_bytes(bytes))?,
    })
}

// Writes the slot from byte `at` on.
pub fn write_slot(slot: &Slot, out: &mut [u8], at: usize)
    requires slot { IsSlot slot.now }
    requires inside { at + slot.now.len ≤ length out.old }
    ensures { out.new ≡ put_at out.old at (slot_bytes slot.now) }
{
    let name = slot.name.as_slice();
    put_u32(out, at, slot.ino);
    put_u16(out, at + 4, slot.len);
    put_u16(out, at + 6, name.len() as u16);
    put_bytes(out, at + HEAD, name);
    put_zeros(
        out,
        at + HEAD + name.len(),
        usize::from(slot.len) - HEAD - name.len(),
    );
}
