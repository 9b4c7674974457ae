//! Reads, failures and crashes of disks in memory.
ghost use Rattle.std.specs.Prelude.{◌≡◌, ◌≤◌, IfOk, length};

use crate::{CrashError, Disk, DiskFault, Fail, MemDisk, SureDisk};
use lufs_base::Mem;
use std::alloc::Global;

/// The bytes that fill the four sectors of a disk.
type Sectors = [u8; 4];

/// Which of three calls of a kind succeeded.
type Ok3 = [bool; 3];

// A disk of four sectors, each filled with its number.
fn four_sectors(alloc: Global, fails: &[Fail]) -> Result<MemDisk, Mem>
    ensures { IfOk result (λ d. length d.image ≡ 2048) }
{
    let mut image = Vec::new(alloc);
    for k in 0..4u8 {
        image.extend_from_slice(&[k; 512])?;
    }
    if image.len() != 2048 {
        return Err(Mem);
    }
    let fails = Vec::from_slice(alloc, fails)?;
    Ok(MemDisk::new(image, fails))
}

// The first and the last byte of two sectors.
fn read_two(disk: &mut MemDisk, first: u64) -> Result<[u8; 4], DiskFault>
    requires four { length disk.old.image ≡ 2048 }
    requires inside { first ≤ 2 }
    ensures { length disk.new.image ≡ 2048 }
{
    let mut out = [0xee; 1024];
    disk.read(first, &mut out)?;
    Ok([out[0], out[511], out[512], out[1023]])
}

// Fills two sectors with one byte.
fn fill_two(disk: &mut MemDisk, first: u64, byte: u8) -> Result<(), DiskFault>
    requires four { length disk.old.image ≡ 2048 }
    requires inside { first ≤ 2 }
    ensures { length disk.new.image ≡ 2048 }
{
    disk.write(first, &[byte; 1024])
}

// Which of three reads, of three writes that overlap, and of three flushes succeed.
fn call_all(disk: &mut MemDisk) -> (Ok3, Ok3, Ok3)
    requires { length disk.old.image ≡ 2048 }
    ensures { length disk.new.image ≡ 2048 }
{
    let writes = [
        fill_two(disk, 0, 7).is_ok(),
        fill_two(disk, 1, 8).is_ok(),
        fill_two(disk, 2, 9).is_ok(),
    ];
    let flushes = [
        disk.flush().is_ok(),
        disk.flush().is_ok(),
        disk.flush().is_ok(),
    ];
    let reads = [
        read_two(disk, 0).is_ok(),
        read_two(disk, 1).is_ok(),
        read_two(disk, 2).is_ok(),
    ];
    (reads, writes, flushes)
}

// The sectors of a disk, by their first bytes and by their last ones.
fn ends(disk: &mut MemDisk) -> Result<[Sectors; 2], DiskFault>
    requires { length disk.old.image ≡ 2048 }
{
    let mut out = [0xee; 2048];
    disk.read(0, &mut out)?;
    Ok([
        [out[0], out[512], out[1024], out[1536]],
        [out[511], out[1023], out[1535], out[2047]],
    ])
}

#[test]
fn reads_of_what_stands_there(rt: HostRuntime) -> Result<(), std::test::Fail> {
    let mut disk = four_sectors(rt.alloc(), &[])?;
    assert_eq!(rt; disk.sectors(), 4);
    assert_eq!(rt; read_two(&mut disk, 0)?, [0, 0, 1, 1]);
    assert_eq!(rt; read_two(&mut disk, 2)?, [2, 2, 3, 3]);
    fill_two(&mut disk, 1, 7)?;
    assert_eq!(rt; read_two(&mut disk, 0)?, [0, 0, 7, 7]);
    assert_eq!(rt; read_two(&mut disk, 2)?, [7, 7, 3, 3]);
    Ok(())
}

#[test]
fn only_the_named_call_fails(rt: HostRuntime) -> Result<(), std::test::Fail> {
    let all = [true; 3];
    let first = [false, true, true];
    let second = [true, false, true];
    let third = [true, true, false];
    let whole = [7, 8, 9, 9];
    for (fail, results, sectors, calls, faults) in [
        (Fail::Read(1), (first, all, all), whole, 6, 1),
        (Fail::Read(2), (second, all, all), whole, 6, 1),
        (Fail::Read(3), (third, all, all), whole, 6, 1),
        (Fail::Read(9), (all, all, all), whole, 6, 0),
        (Fail::Write(1), (all, first, all), [0, 8, 9, 9], 6, 1),
        (Fail::Write(2), (all, second, all), [7, 7, 9, 9], 6, 1),
        (Fail::Write(3), (all, third, all), [7, 8, 8, 3], 6, 1),
        (Fail::Write(4), (all, all, all), whole, 6, 0),
        (Fail::Flush(1), (all, all, first), whole, 5, 1),
        (Fail::Flush(2), (all, all, second), whole, 5, 1),
        (Fail::Flush(3), (all, all, third), whole, 5, 1),
    ] {
        let mut disk = four_sectors(rt.alloc(), &[fail])?;
        assert_eq!(rt; call_all(&mut disk), results, "{fail:?}");
        assert_eq!(rt; disk.calls(), calls, "{fail:?}");
        assert_eq!(rt; disk.faults(), faults, "{fail:?}");
        assert_eq!(rt; disk.starved(), 0, "{fail:?}");
        assert_eq!(rt; ends(&mut disk)?, [sectors, sectors], "{fail:?}");
    }
    Ok(())
}

// Six listed calls on sectors 0 to 3: two writes that overlap, a flush, and three writes of which the last one fails.
fn six_calls(disk: &mut MemDisk) -> Result<(), DiskFault>
    requires { length disk.old.image ≡ 2048 }
    ensures { length disk.new.image ≡ 2048 }
{
    fill_two(disk, 0, 7)?;
    fill_two(disk, 1, 8)?;
    disk.flush()?;
    fill_two(disk, 1, 9)?;
    fill_two(disk, 2, 5)?;
    fill_two(disk, 2, 6)
}

fn no_such(sector: u64, j: u32) -> Result<Sectors, CrashError> {
    Err(CrashError::NoSuch { sector, j })
}

#[test]
fn crashes(rt: HostRuntime) -> Result<(), std::test::Fail> {
    let alloc = rt.alloc();
    let mut disk = four_sectors(alloc, &[Fail::Write(5)])?;
    assert!(rt; six_calls(&mut disk).is_err());
    assert_eq!(rt; disk.calls(), 6);
    for (n, choice, left) in [
        // Before any call, and after the first two, of which none is after a flush.
        (0, &[][..], Ok([0, 1, 2, 3])),
        (0, &[(0, 1)][..], no_such(0, 1)),
        (1, &[][..], Ok([0, 1, 2, 3])),
        (1, &[(0, 1)][..], Ok([7, 1, 2, 3])),
        (1, &[(1, 1)][..], Ok([0, 7, 2, 3])),
        (1, &[(1, 1), (0, 1)][..], Ok([7, 7, 2, 3])),
        (1, &[(1, 2)][..], no_such(1, 2)),
        (1, &[(2, 1)][..], no_such(2, 1)),
        (2, &[][..], Ok([0, 1, 2, 3])),
        (2, &[(1, 1)][..], Ok([0, 7, 2, 3])),
        (2, &[(1, 2)][..], Ok([0, 8, 2, 3])),
        (2, &[(0, 1), (1, 2), (2, 1)][..], Ok([7, 8, 8, 3])),
        (2, &[(1, 3)][..], no_such(1, 3)),
        (2, &[(1, 0)][..], no_such(1, 0)),
        // The flush leaves one content.
        (3, &[][..], Ok([7, 8, 8, 3])),
        (3, &[(0, 1)][..], no_such(0, 1)),
        // What was written after it, with the write that failed.
        (4, &[(2, 1)][..], Ok([7, 8, 9, 3])),
        (4, &[(2, 2)][..], no_such(2, 2)),
        (5, &[(2, 2)][..], Ok([7, 8, 5, 3])),
        (6, &[][..], Ok([7, 8, 8, 3])),
        (6, &[(1, 1), (2, 3), (3, 1)][..], Ok([7, 9, 6, 5])),
        (6, &[(3, 2)][..], Ok([7, 8, 8, 6])),
        (6, &[(1, 1), (2, 4), (3, 9)][..], no_such(2, 4)),
        (6, &[(0, 1)][..], no_such(0, 1)),
        (6, &[(4, 1)][..], no_such(4, 1)),
    ] {
        assert!(rt; n <= disk.calls());
        let found = match disk.crash(alloc, n, choice) {
            Ok(image) => {
                assert_eq!(rt; image.len(), 2048, "{n} {choice:?}");
                Ok([image[0], image[512], image[1024], image[2047]])
            }
            Err(e) => Err(e),
        };
        assert_eq!(rt; found, left, "{n} {choice:?}");
    }
    Ok(())
}

#[test]
fn what_never_fails(rt: HostRuntime) -> Result<(), std::test::Fail> {
    let mut disk = SureDisk::new(Vec::from_slice(rt.alloc(), &[1; 1024])?);
    let mut out = [0xee; 1024];
    disk.write(1, &[2; 512])?;
    disk.flush()?;
    disk.read(0, &mut out)?;
    assert_eq!(rt; [out[0], out[511], out[512], out[1023]], [1, 1, 2, 2]);
    assert_eq!(rt; (disk.sectors(), disk.calls(), disk.faults()), (2, 2, 0));
    Ok(())
}
