//! Chunks that are read or refused, what each change makes of a chunk, and the bytes that are written.
ghost use Rattle.std.specs.Prelude.{◌≡◌, length};

use crate::{Chunk, ChunkError, read_chunk, write_chunk};
use lufs_base::{Ino, Mem, Name};
use std::alloc::Global;
use std::test::Fail;

// The chunk of a new root, with these bytes at these places.
fn root_with(changes: &[(usize, u8)]) -> [u8; 512] {
    let mut bytes = [0; 512];
    bytes[3] = 2;
    bytes[5] = 12;
    bytes[7] = 1;
    bytes[8] = b'.';
    bytes[15] = 2;
    bytes[16] = 1;
    bytes[17] = 244;
    bytes[19] = 2;
    bytes[20] = b'.';
    bytes[21] = b'.';
    for (at, byte) in changes {
        if *at < 512 {
            bytes[*at] = *byte;
        }
    }
    bytes
}

// Whether the bytes are a chunk, if there is memory.
fn is_chunk(alloc: Global, bytes: &[u8]) -> Result<bool, Mem>
    requires { length bytes.now ≡ 512 }
{
    match read_chunk(alloc, bytes) {
        Ok(_) => Ok(true),
        Err(ChunkError::Bad) => Ok(false),
        Err(ChunkError::Mem) => Err(Mem),
    }
}

#[test]
fn chunks(rt: HostRuntime) -> Result<(), Fail> {
    for (what, changes, want) in [
        ("new root", [].as_slice(), true),
        ("lengths 13 and 499", [(5, 13), (17, 243)].as_slice(), false),
        ("lengths 8 and 504", [(5, 8), (17, 248)].as_slice(), false),
        ("a slot past the end", [(17, 248)].as_slice(), false),
        ("four bytes left", [(17, 240)].as_slice(), false),
        ("no name", [(7, 0)].as_slice(), false),
        (
            "three bytes in 12",
            [(7, 3), (9, b'a'), (10, b'a')].as_slice(),
            true,
        ),
        (
            "four bytes in 12",
            [(7, 4), (9, b'a'), (10, b'a'), (11, b'a')].as_slice(),
            false,
        ),
        ("no NUL", [(9, 1)].as_slice(), false),
        ("a byte after the NUL", [(10, 0xff)].as_slice(), true),
        ("a space", [(8, 0x20)].as_slice(), false),
        ("first byte of names", [(8, 0x21)].as_slice(), true),
        ("before the slash", [(8, 0x2e)].as_slice(), true),
        ("a slash", [(8, 0x2f)].as_slice(), false),
        ("after the slash", [(8, 0x30)].as_slice(), true),
        ("last byte of names", [(8, 0x7e)].as_slice(), true),
        ("past the bytes of names", [(8, 0x7f)].as_slice(), false),
        ("a high inode", [(0, 0xff)].as_slice(), true),
        (
            "unused",
            [(3, 0), (6, 0xff), (8, 0x20), (9, 1)].as_slice(),
            true,
        ),
    ] {
        assert_eq!(rt; is_chunk(rt.alloc(), &root_with(changes))?, want, "{what}");
    }
    Ok(())
}

// A change of a chunk: a name is so many copies of a byte.
#[derive(Clone, Copy)]
enum Change {
    Put(u8, usize, u32),
    Set(u8, usize, u32),
    TakeOut(u8, usize),
}

fn name_of(alloc: Global, byte: u8, count: usize) -> Result<Name, Mem> {
    let bytes = vec![in alloc; byte; count]?;
    Name::from_slice(alloc, bytes.as_slice())
}

fn put(alloc: Global, chunk: &mut Chunk, byte: u8, count: usize, i: u32) -> Result<bool, Mem> {
    let name = name_of(alloc, byte, count)?;
    if i == 0 {
        return Ok(false);
    }
    if !name.is_allowed() {
        return Ok(false);
    }
    if chunk.room(&name).is_none() {
        return Ok(false);
    }
    chunk.put(name, Ino(i))?;
    Ok(true)
}

fn set(alloc: Global, chunk: &mut Chunk, byte: u8, count: usize, i: u32) -> Result<bool, Mem> {
    let name = name_of(alloc, byte, count)?;
    if i == 0 {
        return Ok(false);
    }
    match chunk.find(&name) {
        None => Ok(false),
        Some(place) => {
            chunk.set(place, Ino(i));
            Ok(true)
        }
    }
}

fn take_out(alloc: Global, chunk: &mut Chunk, byte: u8, count: usize) -> Result<bool, Mem> {
    let name = name_of(alloc, byte, count)?;
    match chunk.find(&name) {
        None => Ok(false),
        Some(place) => {
            chunk.take_out(place);
            Ok(true)
        }
    }
}

// Whether the slots have these inodes, lengths and lengths of names.
fn has_slots(chunk: &Chunk, want: &[(u32, u16, usize)]) -> bool {
    let slots = chunk.as_slice();
    if slots.len() != want.len() {
        return false;
    }
    for (slot, (ino, len, name_len)) in slots.iter().zip(want) {
        if slot.ino != *ino || slot.len != *len || slot.name.as_slice().len() != *name_len {
            return false;
        }
    }
    true
}

#[test]
fn changes(rt: HostRuntime) -> Result<(), Fail> {
    let alloc = rt.alloc();
    let mut chunk = Chunk::new_directory(alloc, Ino(2), Ino(2))?;
    for (what, change, done, want) in [
        (
            "a slash",
            Change::Put(b'/', 1, 9),
            false,
            [(2, 12, 1), (2, 500, 2)].as_slice(),
        ),
        (
            "256 bytes",
            Change::Put(b'a', 256, 9),
            false,
            [(2, 12, 1), (2, 500, 2)].as_slice(),
        ),
        (
            "255 bytes",
            Change::Put(b'a', 255, 3),
            true,
            [(2, 12, 1), (2, 12, 2), (3, 488, 255)].as_slice(),
        ),
        (
            "216 bytes",
            Change::Put(b'b', 216, 4),
            false,
            [(2, 12, 1), (2, 12, 2), (3, 488, 255)].as_slice(),
        ),
        (
            "215 bytes",
            Change::Put(b'b', 215, 4),
            true,
            [(2, 12, 1), (2, 12, 2), (3, 264, 255), (4, 224, 215)].as_slice(),
        ),
        (
            "full",
            Change::Put(b'c', 1, 5),
            false,
            [(2, 12, 1), (2, 12, 2), (3, 264, 255), (4, 224, 215)].as_slice(),
        ),
        (
            "another inode",
            Change::Set(b'b', 215, 7),
            true,
            [(2, 12, 1), (2, 12, 2), (3, 264, 255), (7, 224, 215)].as_slice(),
        ),
        (
            "joined",
            Change::TakeOut(b'a', 255),
            true,
            [(2, 12, 1), (2, 276, 2), (7, 224, 215)].as_slice(),
        ),
        (
            "gone",
            Change::TakeOut(b'a', 255),
            false,
            [(2, 12, 1), (2, 276, 2), (7, 224, 215)].as_slice(),
        ),
        (
            "split again",
            Change::Put(b'c', 4, 5),
            true,
            [(2, 12, 1), (2, 12, 2), (5, 264, 4), (7, 224, 215)].as_slice(),
        ),
        (
            "first unused",
            Change::TakeOut(b'.', 1),
            true,
            [(0, 12, 0), (2, 12, 2), (5, 264, 4), (7, 224, 215)].as_slice(),
        ),
        (
            "too long for it",
            Change::Put(b'd', 4, 6),
            true,
            [
                (0, 12, 0),
                (2, 12, 2),
                (5, 16, 4),
                (6, 248, 4),
                (7, 224, 215),
            ]
            .as_slice(),
        ),
        (
            "taken over",
            Change::Put(b'e', 3, 8),
            true,
            [
                (8, 12, 3),
                (2, 12, 2),
                (5, 16, 4),
                (6, 248, 4),
                (7, 224, 215),
            ]
            .as_slice(),
        ),
    ] {
        let got = match change {
            Change::Put(byte, count, i) => put(alloc, &mut chunk, byte, count, i)?,
            Change::Set(byte, count, i) => set(alloc, &mut chunk, byte, count, i)?,
            Change::TakeOut(byte, count) => take_out(alloc, &mut chunk, byte, count)?,
        };
        assert_eq!(rt; got, done, "{what}");
        assert_eq!(rt; has_slots(&chunk, want), true, "{what}");
    }
    Ok(())
}

#[test]
fn written(rt: HostRuntime) -> Result<(), Fail> {
    let alloc = rt.alloc();
    let mut out = [0xee; 512];
    let mut chunk = Chunk::new_directory(alloc, Ino(2), Ino(2))?;
    write_chunk(&chunk, &mut out);
    assert_eq!(rt; out.as_slice(), root_with(&[]).as_slice());
    take_out(alloc, &mut chunk, b'.', 1)?;
    write_chunk(&chunk, &mut out);
    assert_eq!(rt;
        out.as_slice(),
        root_with(&[(3, 0), (7, 0), (8, 0)]).as_slice()
    );
    let chunk = Chunk::of_one(alloc, Name::from_slice(alloc, b"a")?, Ino(5))?;
    assert_eq!(rt; has_slots(&chunk, &[(5, 512, 1)]), true);
    Ok(())
}
