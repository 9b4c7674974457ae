//! Logs of each kind, cut, wrapped and largest, read and listed.
use crate::{GeometryError, ScanError, Tx, TxSummary, list, read_geometry, scan};
use lufs_base::{Geometry, Mem, put_u32};
use sector_disk::{Disk, Fail, MemDisk};
use std::alloc::Global;

/// A word of 32 bits at a byte of a sector of the ring.
type Word = (u32, u32, u32);

const SMALLEST: Geometry = Geometry {
    version: 1,
    groups: 1,
    bpg: 64,
    ipg: 32,
    log: 256,
};

/// Epoch 3, and transaction 1 in place 0: the root's inode record, and its commit.
const ROOT: [Word; 9] = [
    (0, 4, 0x24100),
    (0, 8, 128),
    (0, 12, 2),
    (0, 16, 0x41c0_0002),
    (0, 148, 1),
    (0, 152, 1),
    (0, 156, 8),
    (0, 504, 1),
    (0, 508, 3),
];

/// Transaction 1 from the last place of the ring on: two directory chunks, in three sectors.
const WRAPPED: [Word; 15] = [
    (254, 4, 0x26000),
    (254, 8, 512),
    (254, 12, 3),
    (254, 504, 1),
    (254, 508, 3),
    (0, 28, 0x26200),
    (0, 32, 512),
    (0, 36, 3),
    (0, 504, 1),
    (0, 508, 3),
    (1, 52, 1),
    (1, 56, 2),
    (1, 60, 8),
    (1, 504, 1),
    (1, 508, 3),
];

/// What was found of a transaction.
#[derive(Clone, Copy, PartialEq, Eq)]
struct Found {
    tid: u32,
    first: u32,
    sectors: u32,
    deltas: usize,
}

fn scanned(tx: &Tx) -> Found {
    Found {
        tid: tx.tid,
        first: tx.first,
        sectors: tx.sectors,
        deltas: tx.deltas.len(),
    }
}

fn listed(tx: &TxSummary) -> Found {
    Found {
        tid: tx.tid,
        first: tx.first,
        sectors: tx.sectors,
        deltas: tx.deltas as usize,
    }
}

/// The first transaction that is found, if there is one.
type Ending = Result<Option<Found>, ScanError>;

const NONE: Ending = Ok(None);

const ROOT_FOUND: Ending = Ok(Some(Found {
    tid: 1,
    first: 0,
    sectors: 1,
    deltas: 1,
}));

const WRAPPED_FOUND: Ending = Ok(Some(Found {
    tid: 1,
    first: 254,
    sectors: 3,
    deltas: 2,
}));

const BAD: Ending = Err(ScanError::BadLog { tid: 1, place: 0 });

const DISK: Ending = Err(ScanError::Disk);

/// Nothing writes, so no call fails.
const NO_FAIL: Fail = Fail::Write(1);

/// A log of the smallest volume: its head, the words of its ring, one more word, and which call fails.
#[derive(Clone, Copy)]
struct Log {
    head: u32,
    words: &'static [Word],
    change: Word,
    fail: Fail,
}

// Writes a word, where it fits.
fn put(bytes: &mut [u8], at: usize, word: u32) {
    if bytes.len() >= 4 && at <= bytes.len() - 4 {
        put_u32(bytes, at, word);
    }
}

fn put_all(bytes: &mut [u8], words: &[(usize, u32)]) {
    for (at, word) in words {
        put(bytes, *at, *word);
    }
}

// Writes a word of the ring.
fn put_in_ring(image: &mut [u8], word: Word) {
    let (place, at, word) = word;
    put(image, 512 * (25 + place as usize) + at as usize, word);
}

fn write_log(image: &mut [u8], log: &Log) {
    put_all(
        image,
        &[
            (24 * 512, 0x4C55_4653),
            (24 * 512 + 4, 3),
            (24 * 512 + 8, log.head),
            (24 * 512 + 12, 1),
        ],
    );
    for word in log.words {
        put_in_ring(image, *word);
    }
    put_in_ring(image, log.change);
}

// A disk of whole sectors, whose named call fails.
fn disk_of(alloc: Global, image: Vec<u8>, fail: Fail) -> Result<MemDisk, Mem> {
    if image.len() % 512 != 0 {
        return Err(Mem);
    }
    Ok(MemDisk::new(image, Vec::from_slice(alloc, &[fail])?))
}

fn disk_with(alloc: Global, log: &Log) -> Result<MemDisk, Mem> {
    let mut image = vec![in alloc; 0u8; 792 * 512]?;
    write_log(&mut image, log);
    disk_of(alloc, image, log.fail)
}

fn first_scanned(alloc: Global, disk: &mut MemDisk) -> Ending {
    if disk.sectors() < 8 * u64::from(SMALLEST.total()) {
        return Err(ScanError::Mem);
    }
    let (_, txs) = scan(alloc, disk, &SMALLEST)?;
    Ok(txs.as_slice().first().map(scanned))
}

fn first_listed(alloc: Global, disk: &mut MemDisk) -> Ending {
    if disk.sectors() < 8 * u64::from(SMALLEST.total()) {
        return Err(ScanError::Mem);
    }
    let (_, txs) = list(alloc, disk, &SMALLEST)?;
    Ok(txs.as_slice().first().map(listed))
}

fn is_scanned_so(alloc: Global, log: &Log, want: Ending) -> Result<bool, Mem> {
    let mut disk = disk_with(alloc, log)?;
    Ok(first_scanned(alloc, &mut disk) == want)
}

fn is_listed_so(alloc: Global, log: &Log, want: Ending) -> Result<bool, Mem> {
    let mut disk = disk_with(alloc, log)?;
    Ok(first_listed(alloc, &mut disk) == want)
}

// Whether a scan and a list of that log both end so.
fn ends_so(alloc: Global, log: &Log, want: Ending) -> bool {
    is_scanned_so(alloc, log, want).unwrap_or(false)
        && is_listed_so(alloc, log, want).unwrap_or(false)
}

const OF_ONE_SECTOR: [(&str, Word, Ending); 7] = [
    ("whole", (0, 0, 0), ROOT_FOUND),
    ("empty", (0, 504, 0), NONE),
    ("type 9", (0, 12, 9), BAD),
    ("other epoch", (0, 508, 2), NONE),
    ("commit of another number", (0, 148, 2), BAD),
    ("commit of another count", (0, 152, 2), BAD),
    ("byte after the commit", (0, 160, 1), BAD),
];

#[test]
fn logs_of_one_sector(rt: HostRuntime) {
    for (what, change, want) in OF_ONE_SECTOR {
        let log = Log {
            head: 0,
            words: &ROOT,
            change,
            fail: NO_FAIL,
        };
        assert!(rt; ends_so(rt.alloc(), &log, want), "{what}");
    }
}

const WHOLE: Word = (254, 0, 0);

const THAT_WRAP: [(&str, Word, Fail, Ending); 5] = [
    ("whole", WHOLE, NO_FAIL, WRAPPED_FOUND),
    ("second sector missing", (0, 504, 0), NO_FAIL, NONE),
    ("header unread", WHOLE, Fail::Read(1), DISK),
    ("ring unread from its head", WHOLE, Fail::Read(2), DISK),
    ("ring unread up to its head", WHOLE, Fail::Read(3), DISK),
];

#[test]
fn logs_that_wrap(rt: HostRuntime) {
    for (what, change, fail, want) in THAT_WRAP {
        let log = Log {
            head: 254,
            words: &WRAPPED,
            change,
            fail,
        };
        assert!(rt; ends_so(rt.alloc(), &log, want), "{what}");
    }
}

/// One read for the header and one for a piece, and where the log goes on past the ring's last place one more.
const READS: [(&str, u32, &[Word], u64, Ending); 5] = [
    ("a piece", 0, &[], 2, DISK),
    ("no more than that", 0, &[], 3, NONE),
    ("an empty log inside", 100, &[], 3, NONE),
    ("both ends", 254, &WRAPPED, 3, DISK),
    ("no more than those", 254, &WRAPPED, 4, WRAPPED_FOUND),
];

#[test]
fn reads_of_a_log(rt: HostRuntime) {
    for (what, head, words, read, want) in READS {
        let log = Log {
            head,
            words,
            change: (0, 0, 0),
            fail: Fail::Read(read),
        };
        assert!(rt; ends_so(rt.alloc(), &log, want), "{what}");
    }
}

/// Transactions of as many deltas of one kind each, one after the other in the ring.
#[derive(Clone, Copy)]
struct Filling {
    txs: u32,
    /// The sectors of a transaction.
    sectors: u32,
    deltas: u32,
    kind: u32,
    len: u32,
    /// The bytes of a record in the log.
    bytes: u32,
    /// The home of the first one, and how far that of the next one is from it.
    home: u32,
    step: u32,
}

// Writes a word of the payload that the ring carries.
fn put_carried(image: &mut [u8], at: u32, word: u32) {
    let at = at as usize;
    put(image, 512 * (25 + at / 504) + at % 504, word);
}

// Writes the head of a record in that payload.
fn put_record(image: &mut [u8], at: u32, home: u32, len: u32, kind: u32) {
    put_carried(image, at.wrapping_add(4), home);
    put_carried(image, at.wrapping_add(8), len);
    put_carried(image, at.wrapping_add(12), kind);
}

// Writes transaction t + 1.
fn put_tx(image: &mut [u8], filling: &Filling, t: u32) {
    let place = filling.sectors.wrapping_mul(t);
    let mut at = place.wrapping_mul(504);
    let mut home = filling.home;
    for _ in 0..filling.deltas {
        put_record(image, at, home, filling.len, filling.kind);
        at = at.wrapping_add(filling.bytes);
        home = home.wrapping_add(filling.step);
    }
    let tid = t.wrapping_add(1);
    put_record(image, at, tid, filling.deltas, 8);
    for i in 0..filling.sectors {
        let sector = 512 * (25 + place.wrapping_add(i) as usize);
        put_all(image, &[(sector + 504, tid), (sector + 508, 3)]);
    }
}

// A volume of these numbers of groups, blocks, inodes and sectors of the log.
fn volume(alloc: Global, numbers: [u32; 4], filling: &Filling) -> Result<MemDisk, Mem> {
    let [groups, bpg, ipg, log] = numbers;
    let blocks = groups
        .wrapping_mul(bpg)
        .wrapping_add(log / 8)
        .wrapping_add(3);
    let mut image = vec![in alloc; 0u8; 4096 * blocks as usize]?;
    put_all(
        &mut image,
        &[
            (8192, 0x0001_1954),
            (8196, 1),
            (8200, groups),
            (8204, bpg),
            (8208, ipg),
            (8212, log),
            (8216, blocks),
            (12288, 0x4C55_4653),
            (12292, 3),
            (12300, 1),
        ],
    );
    for t in 0..filling.txs {
        put_tx(&mut image, filling, t);
    }
    disk_of(alloc, image, NO_FAIL)
}

// How many transactions a list finds of that volume, and the last of them.
fn last_listed(alloc: Global, disk: &mut MemDisk) -> Result<(usize, Option<Found>), ScanError> {
    let g = read_geometry(disk).map_err(|_| ScanError::Disk)?;
    let (_, txs) = list(alloc, disk, &g)?;
    Ok((txs.len(), txs.as_slice().last().map(listed)))
}

// How many transactions a scan finds of it, and the last of them.
fn last_scanned(alloc: Global, disk: &mut MemDisk) -> Result<(usize, Option<Found>), ScanError> {
    let g = read_geometry(disk).map_err(|_| ScanError::Disk)?;
    let (_, txs) = scan(alloc, disk, &g)?;
    Ok((txs.len(), txs.as_slice().last().map(scanned)))
}

// Whether a scan and a list of that volume both find all, the last of them at this place.
fn is_found_full(
    alloc: Global,
    numbers: [u32; 4],
    filling: &Filling,
    place: u32,
) -> Result<bool, Mem> {
    let want = Ok((
        filling.txs as usize,
        Some(Found {
            tid: filling.txs,
            first: place,
            sectors: filling.sectors,
            deltas: filling.deltas as usize,
        }),
    ));
    let mut disk = volume(alloc, numbers, filling)?;
    Ok(last_scanned(alloc, &mut disk) == want && last_listed(alloc, &mut disk) == want)
}

const ZEROS: Filling = Filling {
    txs: 1,
    sectors: 32,
    deltas: 1000,
    kind: 5,
    len: 4096,
    bytes: 16,
    home: 0x25000,
    step: 4096,
};

const GROUPS: Filling = Filling {
    txs: 1,
    sectors: 55,
    deltas: 64,
    kind: 1,
    len: 416,
    bytes: 432,
    home: 0x23000,
    step: 0x40000,
};

const CHUNKS: Filling = Filling {
    txs: 1,
    sectors: 255,
    deltas: 243,
    kind: 3,
    len: 512,
    bytes: 528,
    home: 0x25000,
    step: 512,
};

const COMMITS: Filling = Filling {
    txs: 65_535,
    sectors: 1,
    deltas: 0,
    kind: 5,
    len: 4096,
    bytes: 16,
    home: 0x25000,
    step: 4096,
};

const LARGEST: [(&str, [u32; 4], Filling, u32); 4] = [
    ("a run of 1,000 deltas", [1, 2048, 32, 256], ZEROS, 0),
    ("64 groups", [64, 64, 32, 256], GROUPS, 0),
    ("a run that fills the ring", [1, 64, 32, 256], CHUNKS, 0),
    (
        "the largest log, full",
        [1, 64, 32, 65_536],
        COMMITS,
        65_534,
    ),
];

#[test]
fn largest_logs(rt: HostRuntime) {
    for (what, numbers, filling, place) in LARGEST {
        let is_full = is_found_full(rt.alloc(), numbers, &filling, place).unwrap_or(false);
        assert!(rt; is_full, "{what}");
    }
}

/// What is read of a superblock.
type Read = Result<Geometry, GeometryError>;

const NOT_VOLUME: Read = Err(GeometryError::NotVolume);

// Whether this is read of the superblock of the smallest volume, with one word changed, on a disk of so many sectors.
fn is_read_so(
    alloc: Global,
    sectors: u16,
    change: (u32, u32),
    fail: Fail,
    want: Read,
) -> Result<bool, Mem> {
    let mut image = vec![in alloc; 0u8; 512 * sectors as usize]?;
    put_all(
        &mut image,
        &[
            (8192, 0x0001_1954),
            (8196, 1),
            (8200, 1),
            (8204, 64),
            (8208, 32),
            (8212, 256),
            (8216, 99),
            (8192 + change.0 as usize, change.1),
        ],
    );
    let mut disk = disk_of(alloc, image, fail)?;
    Ok(read_geometry(&mut disk) == want)
}

const GEOMETRIES: [(&str, u16, (u32, u32), Fail, Read); 7] = [
    ("smallest volume", 792, (24, 99), NO_FAIL, Ok(SMALLEST)),
    ("other magic", 792, (0, 0x0001_1955), NO_FAIL, NOT_VOLUME),
    (
        "other number of blocks",
        792,
        (24, 100),
        NO_FAIL,
        NOT_VOLUME,
    ),
    ("a sector too few", 791, (24, 99), NO_FAIL, NOT_VOLUME),
    ("no superblock", 16, (24, 99), NO_FAIL, NOT_VOLUME),
    (
        "unread",
        792,
        (24, 99),
        Fail::Read(1),
        Err(GeometryError::Disk),
    ),
    ("no more reads", 792, (24, 99), Fail::Read(2), Ok(SMALLEST)),
];

#[test]
fn geometries(rt: HostRuntime) {
    for (what, sectors, change, fail, want) in GEOMETRIES {
        let is_so = is_read_so(rt.alloc(), sectors, change, fail, want).unwrap_or(false);
        assert!(rt; is_so, "{what}");
    }
}
