//! An image read whole, and written back to disks of which calls fail.

use crate::{read_image, write_image};
use lufs_base::{BLOCK, DiskFault, Geometry, Mem};
use meta_store::{PlainStore, StoreError};
use sector_disk::{Disk, Fail, MemDisk};
use std::alloc::Global;
use volume_model::Header;

/// Its home blocks are those from 35 to 98.
const SMALLEST: Geometry = Geometry {
    version: 1,
    groups: 1,
    bpg: 64,
    ipg: 32,
    log: 256,
};

const HEADER: Header = Header {
    epoch: 4,
    head: 9,
    tid: 7,
};

/// The call that fails, whether the image is written, and what is left: how many writes and flushes were made, and the
/// first bytes of blocks 4, 35 and 98 with the last byte of the epoch in the log's header.
type Written = (Fail, Result<(), DiskFault>, u64, [u8; 4]);

const WRITTEN: &[Written] = &[
    (Fail::Read(1), Err(DiskFault), 0, [0, 0, 0, 0]),
    (Fail::Write(1), Err(DiskFault), 1, [0, 0, 0, 0]),
    (Fail::Read(64), Err(DiskFault), 1, [0, 7, 0, 0]),
    (Fail::Write(2), Err(DiskFault), 2, [0, 7, 0, 0]),
    (Fail::Flush(1), Err(DiskFault), 2, [0, 7, 7, 0]),
    (Fail::Write(3), Err(DiskFault), 4, [0, 7, 7, 0]),
    (Fail::Flush(2), Err(DiskFault), 4, [0, 7, 7, 5]),
    (Fail::Read(1_000), Ok(()), 5, [0, 7, 7, 5]),
];

// Zeros, but for the first bytes of a block of the log, of the first home block, and of the last one.
fn changed(alloc: Global) -> Result<Vec<u8>, Mem> {
    let mut image = vec![in alloc; 0u8; 99 * BLOCK]?;
    for at in [16_384, 143_360, 401_408] {
        let Some(byte) = image.get_mut(at) else {
            return Err(Mem);
        };
        *byte = 7;
    }
    Ok(image)
}

// A disk of zeros, of which this call fails.
fn zeros(alloc: Global, fail: Fail) -> Result<MemDisk, Mem> {
    let image = vec![in alloc; 0u8; 99 * BLOCK]?;
    if image.len() % 512 != 0 {
        return Err(Mem);
    }
    Ok(MemDisk::new(image, Vec::from_slice(alloc, &[fail])?))
}

// Writes the image to the disk, if it has room.
fn write_back(disk: &mut MemDisk, image: &[u8]) -> Result<(), DiskFault> {
    if disk.sectors() < 792 || image.len() < 99 * BLOCK {
        return Err(DiskFault);
    }
    write_image(disk, &SMALLEST, &HEADER, image)
}

// A byte of a sector.
fn byte_at(disk: &mut MemDisk, first: u64, at: usize) -> Result<u8, DiskFault> {
    if first >= disk.sectors() || at >= 512 {
        return Err(DiskFault);
    }
    let mut sector = [0; 512];
    disk.read(first, &mut sector)?;
    Ok(sector[at])
}

// The first bytes of blocks 4, 35 and 98, and the last byte of the epoch in the log's header.
fn bytes_of(disk: &mut MemDisk) -> Result<[u8; 4], DiskFault> {
    Ok([
        byte_at(disk, 32, 0)?,
        byte_at(disk, 280, 0)?,
        byte_at(disk, 784, 0)?,
        byte_at(disk, 24, 7)?,
    ])
}

// Whether the image is written back, and leaves this of the disk.
fn is_written(disk: &mut MemDisk, image: &[u8], row: &Written) -> Result<bool, DiskFault> {
    let (_, want, calls, left) = row;
    let written = write_back(disk, image) == *want && disk.calls() == *calls;
    Ok(written && bytes_of(disk)? == *left)
}

fn are_written(alloc: Global, image: &[u8]) -> Result<bool, StoreError> {
    for row in WRITTEN {
        if !is_written(&mut zeros(alloc, row.0)?, image, row)? {
            return Ok(false);
        }
    }
    Ok(true)
}

// Whether a store of these bytes is read whole.
fn is_read(alloc: Global, image: &[u8]) -> Result<bool, StoreError> {
    let copy = image.to_vec(alloc)?;
    if copy.len() < 99 * BLOCK {
        return Ok(false);
    }
    let mut store = PlainStore::new(&SMALLEST, copy);
    Ok(read_image(alloc, &mut store)?.as_slice() == image)
}

fn is_served(alloc: Global) -> Result<bool, StoreError> {
    let image = changed(alloc)?;
    Ok(are_written(alloc, image.as_slice())? && is_read(alloc, image.as_slice())?)
}

#[test]
fn images_written_and_read(rt: HostRuntime) -> Result<(), std::test::Fail> {
    assert!(rt; is_served(rt.alloc())?);
    Ok(())
}
