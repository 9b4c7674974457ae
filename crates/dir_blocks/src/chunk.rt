//! A directory chunk in memory: read, written, searched and changed, with the laws of reading back.
ghost use Rattle.std.specs.Prelude.{◌≡◌, ◌≢◌, ℕ, List, ◌∷◌, [], length, Some, IsSome, IfSome, IfOk, OnOk, OnErr};
ghost use Rattle.lufs_base.specs.Fields.{AreBytes};
ghost use Rattle.lufs_base.specs.Name.{IsName};
ghost use Rattle.volume_model.specs.declared.directory.Slot.{Slot};
ghost use Rattle.volume_model.specs.Format.{chunk_of, chunk_bytes, IsChunk, found_at, room_in, with_name, with_ino, without_slot, one_slot, new_directory, IsUsed};
ghost use Rattle.dir_blocks.specs.declared.chunk.ChunkError.TheVariants.{Mem as no_memory};
ghost use Rattle.dir_blocks.specs.Answers.{IsRead};

use crate::edits::{enter_at, remove_at, renumber_at};
use crate::slot::{can_take, find_in, is_slot, least_length, read_slot, write_slot};
use lufs_base::{Ino, Mem, Name};
use std::alloc::{AllocFailed, Global};
use std::marker::Model;
use volume_model::Slot;

/// The slots of a directory chunk, which fill it (`docs/FORMAT.md`, "Directory chunks").
#[derive(Debug, Drop)]
pub struct Chunk {
    slots: Vec<Slot>,
}

impl Model for Chunk {
    ghost use Rattle.std.specs.Prelude.{List};
    ghost use Rattle.volume_model.specs.declared.directory.Slot.{Slot};
    ghost use Rattle.volume_model.specs.Format.{IsChunk};

    ghost Value = { List Slot };

    ghost view = { λ c. c.slots.items };

    ghost invariant = { λ c. IsChunk c.slots.items };
}

/// Why there is no chunk.
#[derive(Clone, Copy, Debug, PartialEq, Eq)]
pub enum ChunkError {
    /// The bytes aren't a chunk.
    Bad,
    /// Out of memory.
    Mem,
}

impl From<Mem> for ChunkError {
    ghost from_gives = { λ _ e. e ≡ no_memory };

    fn from(_: Mem) -> ChunkError {
        ChunkError::Mem
    }
}

impl<T: Drop> From<AllocFailed<T>> for ChunkError {
    ghost from_gives = { λ _ e. e ≡ no_memory };

    fn from(_: AllocFailed<T>) -> ChunkError {
        ChunkError::Mem
    }
}

impl Chunk {
    /// The chunk of a new directory: `.` names inode `this`, and `..` names inode `parent`.
    pub fn new_directory(alloc: Global, this: Ino, parent: Ino) -> Result<Self, Mem>
        requires this { this.0 ≢ 0 }
        requires parent { parent.0 ≢ 0 }
        ensures { IfOk result (λ chunk. chunk ≡ new_directory this.0 parent.0) }
    {
        let mut slots = Vec::with_capacity(alloc, 2)?;
        slots.push(Slot {
            ino: this.0,
            len: 12,
            name: Name::from_slice(alloc, b".")?,
        })?;
        slots.push(Slot {
            ino: parent.0,
            len: 500,
            name: Name::from_slice(alloc, b"..")?,
        })?;
        Ok(Chunk { slots })
    }

    /// The chunk that is appended to a directory without room: its one slot names inode `i`.
    pub fn of_one(alloc: Global, name: Name, i: Ino) -> Result<Self, Mem>
        requires allowed { IsName name }
        requires number { i.0 ≢ 0 }
        ensures { IfOk result (λ chunk. chunk ≡ one_slot name i.0) }
    {
        let mut slots = Vec::with_capacity(alloc, 1)?;
        slots.push(Slot {
            ino: i.0,
            len: 512,
            name,
        })?;
        Ok(Chunk { slots })
    }

    /// The slots, in the order of the chunk.
    pub fn as_slice(&self) -> &[Slot]
        ensures value { result.now ≡ self.now }
        ensures chunk { IsChunk self.now }
    {
        self.slots.as_slice()
    }

    /// The slots, in the order of the chunk.
    pub fn into_slots(self) -> Vec<Slot>
        ensures { result.items ≡ self }
    {
        self.slots
    }

    /// The place of the first slot in use that has this name.
    pub fn find(&self, name: &Name) -> Option<usize>
        ensures value { result ≡ found_at self.now name.now }
        ensures used { IfSome result (IsUsed self.now) }
    {
        find_in(&self.slots, name)
    }

    /// The place of the first slot that has room for a new slot with this name.
    pub fn room(&self, name: &Name) -> Option<usize>
        ensures { result ≡ room_in self.now name.now }
    {
        let least = least_length(name.as_slice().len());
        self.slots.iter().position(|slot| can_take(slot, least))
    }

    /// Enters a name for inode `i` in the first slot with room. An `Err` leaves the chunk as it was.
    pub fn put(&mut self, name: Name, i: Ino) -> Result<(), Mem>
        requires room { IsSome (room_in self.old name) }
        requires allowed { IsName name }
        requires number { i.0 ≢ 0 }
        ensures ok { OnOk result (self.new ≡ with_name self.old name i.0) }
        ensures err { OnErr result (self.new ≡ self.old) }
    {
        let place = self.room(&name).unwrap();
        enter_at(&mut self.slots, place, name, i.0)
    }

    /// Lets the slot at this place name inode `i`.
    pub fn set(&mut self, place: usize, i: Ino)
        requires used { IsUsed self.old place }
        requires number { i.0 ≢ 0 }
        ensures { self.new ≡ with_ino self.old place i.0 }
    {
        renumber_at(&mut self.slots, place, i.0);
    }

    /// Removes the slot at this place. The first slot of a chunk becomes unused; any other gives its bytes to the
    /// slot before it.
    pub fn take_out(&mut self, place: usize)
        requires { IsUsed self.old place }
        ensures { self.new ≡ without_slot self.old place }
    {
        remove_at(&mut self.slots, place);
    }
}

/// Reads a chunk from these 512 bytes (`docs/FORMAT.md`, "Directory chunks"). It answers `Bad` exactly where
/// the format allows no chunk.
pub fn read_chunk(alloc: Global, bytes: &[u8]) -> Result<Chunk, ChunkError>
    requires { length bytes.now ≡ 512 }
    ensures { IsRead (chunk_of bytes.now) result }
{
    let mut slots = Vec::new(alloc);
    let mut at = 0;
    while at < bytes.len() {
        let rest = &bytes[at..];
        if !is_slot(rest) {
            return Err(ChunkError::Bad);
        }
        let slot = read_slot(alloc, rest)?;
        at += usize::from(slot.len);
        slots.push(slot)?;
    }
    Ok(Chunk { slots })
}

/// Writes the chunk to these 512 bytes, with zeros in the bytes that a reader ignores.
pub fn write_chunk(chunk: &Chunk, out: &mut [u8])
    requires { length out.old ≡ 512 }
    ensures { out.new ≡ chunk_bytes chunk.now }
{
    let mut at = 0;
    for slot in &chunk.slots {
        write_slot(slot, out, at);
        at += usize::from(slot.len);
    }
}

/// A chunk reads as the slots that were written.
pub fn chunk_read_back()
    ensures { (slots : List Slot) → IsChunk slots → chunk_of (chunk_bytes slots) ≡ Some slots }
{}

/// Slots that were read may be written.
pub fn chunk_writable()
    ensures { (bytes : List ℕ) (slots : List Slot) → AreBytes bytes → chunk_of bytes ≡ Some slots → IsChunk slots }
{}
