//! New volumes as bytes, disks that are too small or fail, and crashes over an older volume.
ghost use Rattle.lufs_base.specs.Layout.{IsGeometry};

use crate::{MkfsError, mkfs};
use lufs_base::{BLOCK, DiskFault, Geometry, Mem, SECTOR};
use sector_disk::{Disk, Fail, MemDisk, SureDisk};
use std::alloc::Global;
use std::test::Fail as TestFail;
use ufs_super::read_super;

const SMALLEST: Geometry = Geometry {
    version: 1,
    groups: 1,
    bpg: 64,
    ipg: 32,
    log: 256,
};

/// An older volume on the same disk, of 107 blocks.
const OLDER: Geometry = Geometry {
    version: 1,
    groups: 1,
    bpg: 72,
    ipg: 32,
    log: 256,
};

/// The largest log, in the smallest volume that has room for it.
const LARGEST_LOG: Geometry = Geometry {
    version: 1,
    groups: 1,
    bpg: 64,
    ipg: 32,
    log: 65_536,
};

/// As many groups as there may be.
const MOST_GROUPS: Geometry = Geometry {
    version: 1,
    groups: 64,
    bpg: 64,
    ipg: 64,
    log: 256,
};

/// The sectors of a disk that has room for both.
const SECTORS: usize = 8 * 107;

/// What a crash left.
#[derive(Clone, Copy, Debug, PartialEq, Eq)]
enum Kind {
    Old,
    NoVolume,
    New,
}

// A disk of so many sectors of zeros, of which these calls fail.
fn zeros(alloc: Global, sectors: usize, fails: &[Fail]) -> Result<MemDisk, Mem> {
    if sectors > SECTORS {
        return Err(Mem);
    }
    let image = vec![in alloc; 0u8; 512 * sectors]?;
    if image.len() % 512 != 0 {
        return Err(Mem);
    }
    Ok(MemDisk::new(image, Vec::from_slice(alloc, fails)?))
}

// A disk that holds the older volume, and a second one that begins as the first stands.
fn older(alloc: Global) -> Result<MemDisk, MkfsError> {
    let mut disk = zeros(alloc, SECTORS, &[])?;
    mkfs(alloc, &mut disk, &OLDER, 7)?;
    let image = disk.crash(alloc, disk.calls(), &[]).map_err(|_| Mem)?;
    if image.len() % 512 != 0 {
        return Err(MkfsError::Mem);
    }
    Ok(MemDisk::new(image, Vec::new(alloc)))
}

// Eight bytes of an image.
fn eight_at(image: &[u8], at: usize) -> Option<&[u8]> {
    image.get(at..)?.get(..8)
}

// The kind of an image, by its superblock.
fn kind_of(image: &[u8]) -> Kind {
    let Some(sector) = image.get(16 * 512..17 * 512) else {
        return Kind::NoVolume;
    };
    match read_super(sector, SECTORS as u64) {
        Ok(g) if g == OLDER => Kind::Old,
        Ok(_) => Kind::New,
        Err(_) => Kind::NoVolume,
    }
}

// What a crash after n calls leaves, where every step-th of these sectors is new.
fn left_by(alloc: Global, disk: &MemDisk, n: u64, sectors: &[u64], step: u64) -> Result<Kind, Mem> {
    let mut choice = Vec::new(alloc);
    for sector in sectors {
        if step > 0 && sector % step == 0 {
            choice.push((*sector, 1))?;
        }
    }
    if n > disk.calls() {
        return Err(Mem);
    }
    let image = disk.crash(alloc, n, &choice).map_err(|_| Mem)?;
    Ok(kind_of(&image))
}

// The first eight bytes of a sector.
fn eight_of<D: Disk>(disk: &mut D, sector: u64) -> Result<[u8; 8], DiskFault> {
    if sector >= disk.sectors() {
        return Err(DiskFault);
    }
    let mut bytes = [0; SECTOR];
    disk.read(sector, &mut bytes)?;
    let mut eight = [0; 8];
    eight.copy_from_slice(&bytes[..8]);
    Ok(eight)
}

// A new volume on a disk of other bytes: what the superblock and the log's header begin with, the last sector of
// the ring, the last group block, and the sector after the last inode block of that group.
fn ends_of(alloc: Global, g: &Geometry) -> Result<[[u8; 8]; 5], TestFail>
    requires { IsGeometry g.now }
{
    let image = vec![in alloc; 0xa5u8; BLOCK * g.total() as usize]?;
    if image.len() % 512 != 0 {
        return Err("no whole sectors".into());
    }
    let mut disk = SureDisk::new(image);
    mkfs(alloc, &mut disk, g, 1000).map_err(|_| "no volume")?;
    let group = 8 * u64::from(g.group_block(g.groups - 1).0);
    Ok([
        eight_of(&mut disk, 16)?,
        eight_of(&mut disk, 24)?,
        eight_of(&mut disk, 23 + u64::from(g.log))?,
        eight_of(&mut disk, group)?,
        eight_of(&mut disk, group + 8 + u64::from(g.ipg / 4))?,
    ])
}

/// Places of a new volume, and the eight bytes from there on.
const MADE: &[(usize, [u8; 8])] = &[
    // Superblock.
    (8192, [0x00, 0x01, 0x19, 0x54, 0, 0, 0, 1]),
    // Its numbers.
    (8200, [0, 0, 0, 1, 0, 0, 0, 64]),
    // More of them.
    (8208, [0, 0, 0, 32, 0, 0, 1, 0]),
    // Its blocks.
    (8216, [0, 0, 0, 99, 0, 0, 0, 0]),
    // Log header.
    (12288, [0x4c, 0x55, 0x46, 0x53, 0, 0, 0, 1]),
    // Head and tid.
    (12296, [0, 0, 0, 0, 0, 0, 0, 1]),
    // Ring.
    (12800, [0; 8]),
    // Group.
    (143360, [0, 9, 2, 0x55, 0, 0, 0, 0]),
    // Free of it.
    (143368, [0, 0, 0, 29, 0, 0, 0, 61]),
    // Inode bits.
    (143392, [7, 0, 0, 0, 0, 0, 0, 0]),
    // Block bits.
    (143520, [7, 0, 0, 0, 0, 0, 0, 0]),
    // Root.
    (147712, [0x41, 0xed, 0, 2, 0, 0, 0, 0]),
    // Its size.
    (147728, [0, 0, 0, 0, 0, 0, 2, 0]),
    // Its moment.
    (147736, [0, 0, 0, 0, 0, 0, 3, 0xe8]),
    // Its block.
    (147744, [0, 0, 0, 37, 0, 0, 0, 0]),
    // Its names.
    (151552, [0, 0, 0, 2, 0, 12, 0, 1]),
    // The second.
    (151564, [0, 0, 0, 2, 0x01, 0xf4, 0, 2]),
];

fn has_bytes(image: &[u8]) -> bool {
    MADE.iter()
        .all(|(at, want)| eight_at(image, *at) == Some(want.as_slice()))
}

// Whether a new volume has these bytes, and is made by seven writes and flushes.
fn is_made(alloc: Global) -> Result<bool, MkfsError> {
    let mut disk = zeros(alloc, 792, &[])?;
    mkfs(alloc, &mut disk, &SMALLEST, 1000)?;
    let mut image = [0u8; 512 * 300];
    if disk.calls() != 7 || disk.sectors() < 792 {
        return Ok(false);
    }
    Ok(disk.read(0, &mut image).is_ok() && has_bytes(&image))
}

#[test]
fn bytes_of_a_new_volume(rt: HostRuntime) -> Result<(), TestFail> {
    assert!(rt; is_made(rt.alloc()).map_err(|_| "no volume")?);
    Ok(())
}

/// The call that fails, the sectors of the disk, the answer, and how many writes and flushes were made.
type Failing = (Fail, usize, Result<(), MkfsError>, u64);

const FAILING: &[Failing] = &[
    (Fail::Write(5), 791, Err(MkfsError::Sectors(791)), 0),
    (Fail::Write(1), 792, Err(MkfsError::Disk), 1),
    (Fail::Flush(1), 792, Err(MkfsError::Disk), 1),
    (Fail::Write(2), 792, Err(MkfsError::Disk), 3),
    (Fail::Write(3), 792, Err(MkfsError::Disk), 4),
    (Fail::Flush(2), 792, Err(MkfsError::Disk), 4),
    (Fail::Write(4), 792, Err(MkfsError::Disk), 6),
    (Fail::Flush(3), 792, Err(MkfsError::Disk), 6),
    (Fail::Write(5), 856, Ok(()), 7),
];

fn answers(alloc: Global, row: &Failing) -> Result<bool, Mem> {
    let (fail, sectors, want, calls) = *row;
    let mut disk = zeros(alloc, sectors, &[fail])?;
    Ok(mkfs(alloc, &mut disk, &SMALLEST, 1000) == want && disk.calls() == calls)
}

#[test]
fn disks_that_are_small_or_fail(rt: HostRuntime) -> Result<(), TestFail> {
    for row in FAILING {
        assert!(rt; answers(rt.alloc(), row)?, "{row:?}");
    }
    Ok(())
}

#[test]
fn crashes_over_an_older_volume(rt: HostRuntime) -> Result<(), TestFail> {
    let alloc = rt.alloc();
    let mut disk = older(alloc).map_err(|_| "no older volume")?;
    mkfs(alloc, &mut disk, &SMALLEST, 1000).map_err(|_| "no volume")?;
    let mut log = Vec::new(alloc);
    let mut written = Vec::new(alloc);
    for sector in 24..304 {
        if sector < 280 {
            log.push(sector)?;
        }
        written.push(sector)?;
    }
    for (n, sectors, old, new, half) in [
        (0, &[][..], Kind::Old, Kind::Old, Kind::Old),
        (1, &[16], Kind::Old, Kind::NoVolume, Kind::NoVolume),
        (2, &[], Kind::NoVolume, Kind::NoVolume, Kind::NoVolume),
        (3, &log, Kind::NoVolume, Kind::NoVolume, Kind::NoVolume),
        (4, &written, Kind::NoVolume, Kind::NoVolume, Kind::NoVolume),
        (5, &[], Kind::NoVolume, Kind::NoVolume, Kind::NoVolume),
        (6, &[16], Kind::NoVolume, Kind::New, Kind::New),
        (7, &[], Kind::New, Kind::New, Kind::New),
    ] {
        let left = [
            left_by(alloc, &disk, n, sectors, 0)?,
            left_by(alloc, &disk, n, sectors, 1)?,
            left_by(alloc, &disk, n, sectors, 2)?,
        ];
        assert_eq!(rt; left, [old, new, half], "{n}");
    }
    Ok(())
}

#[test]
fn largest_volumes(rt: HostRuntime) -> Result<(), TestFail> {
    let alloc = rt.alloc();
    let superblock = [0x00, 0x01, 0x19, 0x54, 0, 0, 0, 1];
    let header = [0x4c, 0x55, 0x46, 0x53, 0, 0, 0, 1];
    let log = [
        superblock,
        header,
        [0; 8],
        [0, 9, 2, 0x55, 0, 0, 0, 0],
        [0, 0, 0, 2, 0, 12, 0, 1],
    ];
    assert_eq!(rt; ends_of(alloc, &LARGEST_LOG)?, log, "log");
    let groups = [
        superblock,
        header,
        [0; 8],
        [0, 9, 2, 0x55, 0, 0, 0, 63],
        [0xa5; 8],
    ];
    assert_eq!(rt; ends_of(alloc, &MOST_GROUPS)?, groups, "groups");
    Ok(())
}
