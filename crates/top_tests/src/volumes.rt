//! Volumes in memory, and what a command does over a host that holds one.
ghost use Rattle.std.specs.Prelude.{◌≡◌, ◌%◌, IfOk, length};
ghost use Rattle.lufs_base.specs.Layout.{IsGeometry};

use host_io::MemHost;
use lufs_base::{Geometry, Mem, put_u32};
use lufs_top::run;
use new_volume::mkfs;
use sector_disk::{Disk, Fail, MemDisk};
use std::alloc::Global;

/// A sector of the volume, a byte of it, and the word of 32 bits that is there.
pub(crate) type Word = (usize, usize, u32);

pub(crate) const SMALLEST: Geometry = Geometry {
    version: 1,
    groups: 1,
    bpg: 64,
    ipg: 32,
    log: 256,
};

/// No word is changed: the reserved byte is 0 as it is.
pub(crate) const SAME: Word = (16, 28, 0);

/// The superblock of the smallest volume, and its log header of epoch 3.
pub(crate) const VOLUME: [Word; 11] = [
    (16, 0, 0x11954),
    (16, 4, 1),
    (16, 8, 1),
    (16, 12, 64),
    (16, 16, 32),
    (16, 20, 256),
    (16, 24, 99),
    (24, 0, 0x4C55_4653),
    (24, 4, 3),
    (24, 8, 0),
    (24, 12, 1),
];

/// Transaction 1 in ring place 0: the inode record of the root.
pub(crate) const ROOT: [Word; 9] = [
    (25, 4, 0x24100),
    (25, 8, 128),
    (25, 12, 2),
    (25, 16, 0x41c0_0002),
    (25, 148, 1),
    (25, 152, 1),
    (25, 156, 8),
    (25, 504, 1),
    (25, 508, 3),
];

/// Transaction 1 from the last place of the ring on: two directory chunks, in three sectors.
pub(crate) const WRAPPED: [Word; 16] = [
    (24, 8, 254),
    (279, 4, 0x26000),
    (279, 8, 512),
    (279, 12, 3),
    (279, 504, 1),
    (279, 508, 3),
    (25, 28, 0x26200),
    (25, 32, 512),
    (25, 36, 3),
    (25, 504, 1),
    (25, 508, 3),
    (26, 52, 1),
    (26, 56, 2),
    (26, 60, 8),
    (26, 504, 1),
    (26, 508, 3),
];

/// The type of a delta, its home, its length, and whether the table of types allows it.
pub(crate) type Row = (u32, u32, u32, bool);

/// The smallest volume has its inode records from 0x24000 on, and its body from 0x25000 to 0x63000.
pub(crate) const ROWS: [Row; 52] = [
    (1, 0x23000, 416, true),
    (1, 0x23000, 415, false),
    (1, 0x23000, 417, false),
    (1, 0x23004, 416, false),
    (1, 0x22000, 416, false),
    (1, 0x24000, 416, false),
    (2, 0x24000, 128, true),
    (2, 0x24f80, 128, true),
    (2, 0x23f80, 128, false),
    (2, 0x25000, 128, false),
    (2, 0x24040, 128, false),
    (2, 0x24000, 127, false),
    (2, 0x24000, 129, false),
    (3, 0x25000, 512, true),
    (3, 0x62e00, 512, true),
    (3, 0x24e00, 512, false),
    (3, 0x63000, 512, false),
    (3, 0x25100, 512, false),
    (3, 0x25000, 511, false),
    (3, 0x25000, 513, false),
    (4, 0x25000, 4, true),
    (4, 0x25000, 4096, true),
    (4, 0x62ffc, 4, true),
    (4, 0x24ffc, 4, false),
    (4, 0x63000, 4, false),
    (4, 0x25002, 4, false),
    (4, 0x25000, 0, false),
    (4, 0x25000, 6, false),
    (4, 0x25000, 4100, false),
    (4, 0x25ffc, 8, false),
    (5, 0x25000, 4096, true),
    (5, 0x62000, 4096, true),
    (5, 0x24000, 4096, false),
    (5, 0x63000, 4096, false),
    (5, 0x25200, 4096, false),
    (5, 0x25000, 4095, false),
    (5, 0x25000, 4097, false),
    (6, 0x25000, 1, true),
    (6, 0x62000, 1024, true),
    (6, 0x24000, 1, false),
    (6, 0x63000, 1, false),
    (6, 0x25001, 1, false),
    (6, 0x25000, 0, false),
    (6, 0x25000, 1025, false),
    (7, 0x25000, 4096, true),
    (7, 0x62000, 4096, true),
    (7, 0x24000, 4096, false),
    (7, 0x63000, 4096, false),
    (7, 0x25000, 4095, false),
    (7, 0x25000, 4097, false),
    (0, 0x25000, 4096, false),
    (9, 0x25000, 4096, false),
];

pub(crate) const ONE: &str =
    "epoch 3 head 0 tid 1 ring 255\ntx 1 sectors 1 deltas 1 bytes 144\ncommitted 1 sectors 1\n";

/// What a check says of the smallest volume as it is made.
pub(crate) const CLEAN: &str = "clean inodes 1 blocks 1 free 61\n";

pub(crate) const NONE: &str = "epoch 3 head 0 tid 1 ring 255\ncommitted 0 sectors 0\n";

/// The call that fails: a take or make of the host, a take of a source, a put of a sink, or a call of the disk.
#[derive(Clone, Copy)]
pub(crate) enum Failing {
    Nothing,
    Host(u64),
    Take(&'static str, u64),
    Put(&'static str, u64),
    Disk(Fail),
}

// Writes a word, where it fits.
pub(crate) fn put(image: &mut [u8], word: Word)
    ensures { length image.new ≡ length image.old }
{
    let (sector, byte, value) = word;
    if sector < 1024 && byte < 512 {
        let at = 512 * sector + byte;
        if image.len() >= 4 && at <= image.len() - 4 {
            put_u32(image, at, value);
        }
    }
}

// The first sectors of that volume with a log, with one word changed.
pub(crate) fn volume(
    alloc: Global,
    sectors: u16,
    log: &[Word],
    change: Word,
) -> Result<Vec<u8>, Mem>
    ensures { IfOk result (λ image. length image.items % 512 ≡ 0) }
{
    let mut image = vec![in alloc; 0u8; 512 * usize::from(sectors)]?;
    for word in VOLUME {
        put(&mut image, word);
    }
    for word in log {
        put(&mut image, *word);
    }
    put(&mut image, change);
    if image.len() % 512 != 0 {
        return Err(Mem);
    }
    Ok(image)
}

// Writes the head of a record at a byte of the payload from ring place 0 on.
pub(crate) fn put_head(image: &mut [u8], at: usize, home: u32, len: u32, kind: u32)
    ensures { length image.new ≡ length image.old }
{
    if at < 130_000 {
        let head = [0, home, len, kind];
        for (k, word) in head.into_iter().enumerate() {
            let at = at + 4 * k;
            put(image, (25 + at / 504, at % 504, word));
        }
    }
}

// Makes the first sectors of the ring those of transaction 1.
pub(crate) fn put_trailers(image: &mut [u8], sectors: usize)
    ensures { length image.new ≡ length image.old }
{
    for sector in 25..280 {
        if sector - 25 < sectors {
            put(image, (sector, 504, 1));
            put(image, (sector, 508, 3));
        }
    }
}

// A volume whose log has one transaction, of one delta.
pub(crate) fn one_delta(alloc: Global, kind: u32, home: u32, len: u32) -> Result<Vec<u8>, Mem>
    ensures { IfOk result (λ image. length image.items % 512 ≡ 0) }
{
    let mut image = volume(alloc, 792, &[], SAME)?;
    let logged = if kind == 5 || kind == 7 || len > 4100 {
        0
    } else {
        len as usize
    };
    put_head(&mut image, 0, home, len, kind);
    put_head(&mut image, 16 + logged, 1, 1, 8);
    put_trailers(&mut image, (16 + logged + 16).div_ceil(504));
    Ok(image)
}

// Fills the payload of the whole ring with directory chunks, of which the last is cut.
pub(crate) fn put_chunks(image: &mut [u8])
    ensures { length image.new ≡ length image.old }
{
    for k in 0..244u32 {
        put_head(image, 528 * k as usize, 0x25000 + 512 * k, 512, 3);
    }
}

// A volume whose ring is full of directory chunks of one transaction.
pub(crate) fn endless(alloc: Global) -> Result<Vec<u8>, Mem>
    ensures { IfOk result (λ image. length image.items % 512 ≡ 0) }
{
    let mut image = volume(alloc, 792, &[], SAME)?;
    put_chunks(&mut image);
    put_trailers(&mut image, 255);
    Ok(image)
}

// The smallest volume as it is made.
pub(crate) fn made(alloc: Global) -> Result<Vec<u8>, Mem>
    ensures { IfOk result (λ image. length image.items % 512 ≡ 0) }
{
    let mut disk = MemDisk::new(volume(alloc, 792, &[], SAME)?, Vec::new(alloc));
    if mkfs(alloc, &mut disk, &SMALLEST, 1000).is_err() {
        return Err(Mem);
    }
    let image = disk.crash(alloc, disk.calls(), &[]).map_err(|_| Mem)?;
    if image.len() % 512 != 0 {
        return Err(Mem);
    }
    Ok(image)
}

// Logs the record of the group, as it stands, in transaction 1 of the volume as it is made.
pub(crate) fn log_group(image: &mut [u8])
    ensures { length image.new ≡ length image.old }
{
    if image.len() < 512 * 792 {
        return;
    }
    image.copy_within(0x23000..0x23000 + 416, 512 * 25 + 16);
    put_head(image, 0, 0x23000, 416, 1);
    put_head(image, 16 + 416, 1, 1, 8);
    put(image, (25, 504, 1));
    put(image, (25, 508, 1));
}

// A host at moment 1000 that holds that image under `S`.
pub(crate) fn host_with(alloc: Global, image: Vec<u8>, failing: Failing) -> Result<MemHost, Mem>
    requires { length image.items % 512 ≡ 0 }
{
    let mut host = MemHost::new(alloc, 1000);
    let mut fails = Vec::new(alloc);
    match failing {
        Failing::Nothing => {}
        Failing::Host(k) => host.fail_host(k)?,
        Failing::Take(name, k) => host.fail_take(name, k)?,
        Failing::Put(name, k) => host.fail_put(name, k)?,
        Failing::Disk(fail) => fails.push(fail)?,
    }
    host.add_disk("S", MemDisk::new(image, fails))?;
    Ok(host)
}

// Whether the sink of that name holds that text, or there is none where the text is "none".
pub(crate) fn holds(host: &MemHost, name: &str, text: &str) -> bool {
    host.sink(name).unwrap_or(b"none") == text.as_bytes()
}

// What `lufs` answers to these words.
pub(crate) fn run_words(alloc: Global, host: &mut MemHost, words: &[&str]) -> Result<u8, Mem> {
    let mut said = Vec::new(alloc);
    for word in words {
        said.push(String::from_str(alloc, word)?)?;
    }
    Ok(run(alloc, host, &said))
}

// Whether `lufs` answers that status to these words, and says that text.
pub(crate) fn answers(
    alloc: Global,
    host: &mut MemHost,
    words: &[&str],
    status: u8,
    text: &str,
) -> Result<bool, Mem> {
    let answer = run_words(alloc, host, words)?;
    Ok(answer == status && holds(host, "-", text))
}

// Whether `lufs` answers that over a host that holds that image, and leaves a disk of as many sectors, which lists so
// many writes and flushes.
pub(crate) fn leaves(
    alloc: Global,
    words: &[&str],
    image: Vec<u8>,
    failing: Failing,
    want: (u8, &str, u64),
) -> Result<bool, Mem>
    requires { length image.items % 512 ≡ 0 }
{
    let (status, text, calls) = want;
    let bytes = image.len() as u64;
    let mut host = host_with(alloc, image, failing)?;
    let is_told = answers(alloc, &mut host, words, status, text)?;
    Ok(
        is_told
            && host.disk("S").is_some_and(|disk| disk.sectors() == bytes / 512
                && disk.calls() == calls),
    )
}
