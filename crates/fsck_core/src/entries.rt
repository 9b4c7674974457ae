//! The slots of a directory where they stand in its bytes, so that no name is copied.
ghost use Rattle.std.specs.Prelude.{◌≡◌, ◌<◌, ◌≤◌, ◌^◌, [], ◌++◌, map, length, true, IfOk};
ghost use Rattle.std.specs.Bool.{OnTrue};
ghost use Rattle.std.specs.List.{list_all};
ghost use Rattle.std.specs.Option.{is_some, unwrap_or};
ghost use Rattle.lufs_base.specs.Fields.{u16_at};
ghost use Rattle.lufs_base.specs.Name.{is_name, is_name_byte};
ghost use Rattle.volume_model.specs.Format.{least_length, is_named, is_slot, slot_at, chunk_of};
ghost use Rattle.fsck_core.specs.Slots.{slot_of};

use lufs_base::{Mem, get_u16, get_u32};

/// A slot of a directory, whose name stands in the bytes of the directory.
#[derive(Clone, Copy, Debug)]
pub(crate) struct Entry<'a> {
    /// The inode that it names, 0 where it is unused.
    pub(crate) ino: u32,
    /// Its bytes.
    pub(crate) len: u16,
    pub(crate) name: &'a [u8],
}

// The bytes before the name of a slot.
const HEAD: usize = 8;

// The least bytes of a slot in use whose name has so many bytes.
fn least_length(name_len: usize) -> usize
    requires { name_len < 2 ^ 63 }
    ensures { result ≡ least_length name_len }
{
    HEAD + 4 * ((name_len + 4) / 4)
}

fn is_name_byte(b: u8) -> bool
    ensures { result ≡ is_name_byte b }
{
    0x21 <= b && b <= 0x7e && b != b'/'
}

// Whether a name may have these bytes. None ends the loop early, so that sixteen are looked at at once.
fn are_name_bytes(bytes: &[u8]) -> bool
    ensures { result ≡ list_all is_name_byte bytes.now }
{
    let mut are = true;
    for b in bytes {
        are &= is_name_byte(*b);
    }
    are
}

// Whether a directory may give a name of these bytes.
fn is_name(bytes: &[u8]) -> bool
    ensures { result ≡ is_name bytes.now }
{
    1 <= bytes.len() && bytes.len() <= 255 && are_name_bytes(bytes)
}

// Whether the bytes of a slot have a right name, a zero byte after it, and room for both.
fn is_named(bytes: &[u8]) -> bool
    requires head { 8 ≤ length bytes.now }
    requires inside { u16_at bytes.now 4 ≤ length bytes.now }
    ensures { result ≡ is_named bytes.now }
{
    let name_len = usize::from(get_u16(bytes, 6));
    if least_length(name_len) > usize::from(get_u16(bytes, 4)) {
        return false;
    }
    if !is_name(&bytes[HEAD..HEAD + name_len]) {
        return false;
    }
    bytes[HEAD + name_len] == 0
}

// Whether a slot stands at the front of the bytes, and ends in them.
fn is_slot(bytes: &[u8]) -> bool
    ensures { result ≡ is_slot bytes.now }
{
    if bytes.len() < 12 {
        return false;
    }
    let len = usize::from(get_u16(bytes, 4));
    if len < 12 {
        return false;
    }
    if len > bytes.len() {
        return false;
    }
    if len % 4 != 0 {
        return false;
    }
    get_u32(bytes, 0) == 0 || is_named(bytes)
}

// The bytes of the name of the slot at the front: none if it is unused.
fn name_bytes(bytes: &[u8]) -> &[u8]
    requires { is_slot bytes.now ≡ true }
    ensures { result.now ≡ (slot_at bytes.now).name }
{
    if get_u32(bytes, 0) == 0 {
        &[]
    } else {
        &bytes[HEAD..HEAD + usize::from(get_u16(bytes, 6))]
    }
}

// The slot at the front of the bytes.
fn entry_at(bytes: &[u8]) -> Entry
    requires { is_slot bytes.now ≡ true }
    ensures { slot_of result ≡ slot_at bytes.now }
{
    Entry {
        ino: get_u32(bytes, 0),
        len: get_u16(bytes, 4),
        name: name_bytes(bytes),
    }
}

/// Appends the slots of a chunk of 512 bytes, and answers whether it is one.
pub(crate) fn push_chunk<'a>(bytes: &'a [u8], entries: &mut Vec<Entry<'a>>) -> Result<bool, Mem>
    requires { length bytes.now ≡ 512 }
    ensures is { IfOk result (λ is. is ≡ is_some (chunk_of bytes.now)) }
    ensures slots { IfOk result (λ is. OnTrue is (map slot_of entries.new.items ≡ map slot_of entries.old.items ++ unwrap_or (chunk_of bytes.now) [])) }
{
    let mut at = 0;
    while at < bytes.len() {
        let rest = &bytes[at..];
        if !is_slot(rest) {
            return Ok(false);
        }
        let entry = entry_at(rest);
        at += usize::from(entry.len);
        entries.push(entry)?;
    }
    Ok(true)
}
