//! Readers and writers of the log, at the limits of each row, with bytes from the format.
ghost use Rattle.std.specs.Prelude.{◌≡◌, ◌≤◌, ◌*◌, length};
ghost use Rattle.volume_model.specs.Log.{delta_bytes};

use crate::{
    Header, Run, RunError, Trailer, read_header, read_run, read_trailer, write_header,
    write_trailer, write_tx,
};
use lufs_base::{Delta, Geometry, Mem, put_u32};
use std::alloc::Global;
use std::test::Fail;

const SMALLEST: Geometry = Geometry {
    version: 1,
    groups: 1,
    bpg: 64,
    ipg: 32,
    log: 256,
};

/// A word of 32 bits at a byte.
type Word = (usize, u32);

/// The commit record of transaction 1, without deltas.
const NOTHING: [Word; 3] = [(4, 1), (8, 0), (12, 8)];

/// The root's inode record.
const INODE: [Word; 7] = [
    (4, 0x24100),
    (8, 128),
    (12, 2),
    (16, 0x41c0_0002),
    (148, 1),
    (152, 1),
    (156, 8),
];

/// A block of zeros, and two block numbers over it.
const ZEROS_AND_POINTERS: [Word; 11] = [
    (4, 0x26000),
    (8, 4096),
    (12, 5),
    (20, 0x26004),
    (24, 8),
    (28, 4),
    (32, 40),
    (36, 41),
    (44, 1),
    (48, 2),
    (52, 8),
];

/// The text of a link, after which the commit record ends at the end of the sector's payload.
const FULL: [Word; 7] = [
    (4, 0x27000),
    (8, 472),
    (12, 6),
    (484, 0x6162_6364),
    (492, 1),
    (496, 1),
    (500, 8),
];

/// A directory chunk that goes on in a second sector.
const OVER_BORDER: [Word; 8] = [
    (4, 0x26000),
    (8, 512),
    (12, 3),
    (500, 0x0102_0304),
    (504, 0x0506_0708),
    (532, 1),
    (536, 1),
    (540, 8),
];

/// What the payload of a run is.
#[derive(Clone, Copy, Debug, PartialEq, Eq)]
enum Told {
    /// Whole, with so many deltas.
    Whole(usize),
    Short,
    Bad,
    Mem,
}

// Writes a word, where it fits.
fn put(bytes: &mut [u8], at: usize, word: u32) {
    if bytes.len() >= 4 && at <= bytes.len() - 4 {
        put_u32(bytes, at, word);
    }
}

fn put_all(bytes: &mut [u8], words: &[Word]) {
    for (at, word) in words {
        put(bytes, *at, *word);
    }
}

// A sector of these words, and zeros.
fn sector_of(words: &[Word]) -> [u8; 512] {
    let mut sector = [0; 512];
    put_all(&mut sector, words);
    sector
}

// The payload of so many sectors, two at most, with these words, and zeros.
fn payload_of(alloc: Global, words: &[Word], sectors: usize) -> Result<Vec<u8>, Mem> {
    let mut payload = vec![in alloc; 0u8; 504 * sectors.min(2)]?;
    put_all(&mut payload, words);
    Ok(payload)
}

// The sectors of transaction 1 of epoch 3 that carry a payload.
fn sectors_of(alloc: Global, payload: &[u8]) -> Result<Vec<u8>, Mem> {
    let mut sectors = Vec::new(alloc);
    for piece in payload.chunks(504) {
        sectors.extend_from_slice(piece)?;
        sectors.extend_from_slice(&[0, 0, 0, 1, 0, 0, 0, 3])?;
    }
    Ok(sectors)
}

// What a payload of transaction 1 is.
fn read(alloc: Global, payload: &[u8]) -> Told {
    match read_run(alloc, &SMALLEST, 1, payload) {
        Ok(Run::Whole(deltas)) => Told::Whole(deltas.len()),
        Ok(Run::Short) => Told::Short,
        Err(RunError::Bad) => Told::Bad,
        Err(RunError::Mem) => Told::Mem,
    }
}

// The bytes of the deltas in the log, with the 16 bytes at the head of each.
fn bytes_of(deltas: &[Delta]) -> u128
    ensures sum { result ≡ delta_bytes deltas.now }
    ensures bound { result ≤ length deltas.now * 4294967311 }
{
    let mut bytes = 0;
    for delta in deltas {
        bytes += 16;
        if delta.kind.has_bytes() {
            bytes += u128::from(delta.len);
        }
    }
    bytes
}

// Reads transaction 1 from a payload of two sectors at most, and writes it in epoch 3.
fn write_again(alloc: Global, payload: &[u8]) -> Result<Option<Vec<u8>>, Mem> {
    let Ok(Run::Whole(deltas)) = read_run(alloc, &SMALLEST, 1, payload) else {
        return Ok(None);
    };
    let sectors = (bytes_of(deltas.as_slice()) + 16 + 503) / 504;
    if sectors > 2 {
        return Ok(None);
    }
    let mut out = vec![in alloc; 0xeeu8; 512 * sectors as usize]?;
    write_tx(&deltas, 1, 3, &mut out);
    Ok(Some(out))
}

#[test]
fn headers_and_trailers(rt: HostRuntime) {
    for (at, word, want) in [
        (16, 0, true),
        (0, 0x4C55_4652, false),
        (4, 0, false),
        (8, 254, true),
        (8, 255, false),
        (12, 0, false),
        (16, 1, false),
        (508, 1, false),
    ] {
        let mut sector = sector_of(&[(0, 0x4C55_4653), (4, 3), (12, 1)]);
        put(&mut sector, at, word);
        assert_eq!(rt;
            read_header(&SMALLEST, &sector).is_ok(),
            want,
            "{at} {word}"
        );
    }
    let mut sector = [0xee; 512];
    let header = Header {
        epoch: 0x0102_0304,
        head: 254,
        tid: 0x0506_0708,
    };
    write_header(&header, &mut sector);
    let words = [
        (0, 0x4C55_4653),
        (4, 0x0102_0304),
        (8, 254),
        (12, 0x0506_0708),
    ];
    assert_eq!(rt; sector, sector_of(&words), "header");
    let trailer = Trailer {
        tid: 0x0a0b_0c0d,
        ident: 0x0e0f_1011,
    };
    write_trailer(&trailer, &mut sector);
    let mut want = sector_of(&words);
    put_all(&mut want, &[(504, 0x0a0b_0c0d), (508, 0x0e0f_1011)]);
    assert_eq!(rt; sector, want, "trailer");
    assert_eq!(rt; read_trailer(&sector), trailer, "trailer read");
}

#[test]
fn runs_and_transactions(rt: HostRuntime) -> Result<(), Fail> {
    let alloc = rt.alloc();
    for (what, words, sectors, deltas) in [
        ("no deltas", &NOTHING[..], 1, 0),
        ("one sector", &INODE[..], 1, 1),
        ("two deltas", &ZEROS_AND_POINTERS[..], 1, 2),
        ("filled to its end", &FULL[..], 1, 1),
        ("over the border", &OVER_BORDER[..], 2, 1),
    ] {
        let payload = payload_of(alloc, words, sectors)?;
        assert_eq!(rt; read(alloc, &payload), Told::Whole(deltas), "{what}");
        let written = write_again(alloc, &payload)?.ok_or("no transaction")?;
        let want = sectors_of(alloc, &payload)?;
        assert_eq!(rt; written.as_slice(), want.as_slice(), "{what}");
    }
    for (what, words, change, sectors, want) in [
        ("no sector", &INODE[..], (0, 0), 0, Told::Short),
        ("cut", &OVER_BORDER[..], (0, 0), 1, Told::Short),
        ("type 9", &INODE[..], (12, 9), 1, Told::Bad),
        (
            "commit of another number",
            &INODE[..],
            (148, 2),
            1,
            Told::Bad,
        ),
        (
            "commit of another count",
            &INODE[..],
            (152, 2),
            1,
            Told::Bad,
        ),
        ("byte after the commit", &INODE[..], (500, 1), 1, Told::Bad),
        ("sector after the commit", &INODE[..], (0, 0), 2, Told::Bad),
        (
            "falling homes",
            &ZEROS_AND_POINTERS[..],
            (20, 0x25004),
            1,
            Told::Bad,
        ),
        (
            "in a cancelled block",
            &ZEROS_AND_POINTERS[..],
            (12, 7),
            1,
            Told::Bad,
        ),
        (
            "past its block",
            &ZEROS_AND_POINTERS[..],
            (20, 0x26ffc),
            1,
            Told::Bad,
        ),
    ] {
        let mut payload = payload_of(alloc, words, sectors)?;
        put(&mut payload, change.0, change.1);
        assert_eq!(rt; read(alloc, &payload), want, "{what}");
    }
    Ok(())
}
