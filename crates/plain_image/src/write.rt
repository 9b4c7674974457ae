//! An image in memory, written back to its disk.
ghost use Rattle.std.specs.Prelude.{◌≡◌, ◌≤◌, ◌<◌, ◌+◌, ◌*◌, ◌^◌, ◌∷◌, length, IfOk, IfSome, OnOk, OnErr};
ghost use Rattle.lufs_base.specs.Layout.{IsGeometry, blocks_of};
ghost use Rattle.volume_model.specs.declared.device_call.DeviceCall.TheVariants.{Flush};
ghost use Rattle.sector_disk.specs.Disk.{HasMade, Makes, CountsFailure};
ghost use Rattle.plain_image.specs.HomesWritten.{is_other, block_calls, IsStoppedAt, HasHomes, HasStopped, IsHeaderPartly};
ghost use Rattle.plain_image.specs.WrittenBack.{emptying, write_back_calls, WritesHomes, HoldsImage, HoldsPartly};

use log_format::write_header;
use lufs_base::{BLOCK, DiskFault, Geometry, SECTOR};
use sector_disk::Disk;
use volume_model::Header;

// Writes block b, unless it is these bytes already. Whether it was written.
fn write_block<D: Disk>(disk: &mut D, b: u32, bytes: &[u8]) -> Result<bool, DiskFault>
    requires size { length bytes.now ≡ 4096 }
    requires room { 8 * b + 8 ≤ (D.told disk.old).sectors }
    requires counted { (D.told disk.old).calls < 2 ^ 64 }
    ensures made { IfOk result (λ wrote. HasMade (block_calls b bytes.now wrote) (D.told disk.old) (D.told disk.new)) }
    ensures told { IfOk result (λ wrote. IfSome (D.told disk.old).present (λ before. wrote ≡ is_other before b bytes.now)) }
    ensures stopped { OnErr result (IsStoppedAt b bytes.now (D.told disk.old) (D.told disk.new)) }
    ensures failure { CountsFailure result (D.told disk.old) (D.told disk.new) }
{
    let first = 8 * u64::from(b);
    let mut there = [0; BLOCK];
    disk.read(first, &mut there)?;
    if there.as_slice() == bytes {
        return Ok(false);
    }
    disk.write(first, bytes)?;
    Ok(true)
}

// Writes each block of the groups in which the image differs from the disk.
fn write_homes<D: Disk>(disk: &mut D, g: &Geometry, image: &[u8]) -> Result<(), DiskFault>
    requires geometry { IsGeometry g.now }
    requires room { 8 * blocks_of g.now ≤ (D.told disk.old).sectors }
    requires counted { (D.told disk.old).calls < 2 ^ 64 }
    requires image { 4096 * blocks_of g.now ≤ length image.now }
    ensures written { OnOk result (HasHomes g.now image.now (blocks_of g.now) (D.told disk.old) (D.told disk.new)) }
    ensures stopped { OnErr result (HasStopped g.now image.now (D.told disk.old) (D.told disk.new)) }
    ensures failure { CountsFailure result (D.told disk.old) (D.told disk.new) }
{
    for b in g.group_block(0).0..g.total() {
        let at = BLOCK * b as usize;
        write_block(disk, b, &image[at..at + BLOCK])?;
    }
    Ok(())
}

// Keeps what was written, and then writes and keeps the header of the next epoch, with an empty log.
fn empty_log<D: Disk>(disk: &mut D, g: &Geometry, header: &Header) -> Result<(), DiskFault>
    requires room { 25 ≤ (D.told disk.old).sectors }
    requires counted { (D.told disk.old).calls < 2 ^ 64 }
    requires epoch { header.now.epoch + 1 < 2 ^ 32 }
    ensures calls { Makes (Flush ∷ emptying g.now header.now) result (D.told disk.old) (D.told disk.new) }
    ensures partly { IsHeaderPartly g.now header.now (D.told disk.old) (D.told disk.new) }
    ensures failure { CountsFailure result (D.told disk.old) (D.told disk.new) }
{
    let next = Header {
        epoch: header.epoch + 1,
        head: 0,
        tid: 1,
    };
    let mut sector = [0; SECTOR];
    write_header(&next, &mut sector);
    disk.flush()?;
    disk.write(g.header_sector(), &sector)?;
    disk.flush()
}

/// Writes each block of the groups in which the image differs from the disk, in rising order, and flushes; then writes
/// the header of the next epoch, with an empty log, and flushes (`docs/FORMAT.md`, "Log header").
///
/// # Errors
///
/// Exactly where a call of the disk failed, the last one. Each sector is as it was or as it was to be then, and the log's
/// header isn't new before all blocks are kept.
pub fn write_image<D: Disk>(
    disk: &mut D,
    g: &Geometry,
    header: &Header,
    image: &[u8],
) -> Result<(), DiskFault>
    requires geometry { IsGeometry g.now }
    requires room { 8 * blocks_of g.now ≤ (D.told disk.old).sectors }
    requires image { 4096 * blocks_of g.now ≤ length image.now }
    requires epoch { header.now.epoch + 1 < 2 ^ 32 }
    // Where the disk tells its content, just these calls are made; at an `Err` no others than the first of them.
    ensures calls { IfSome (D.told disk.old).present (λ before. Makes (write_back_calls g.now header.now image.now before) result (D.told disk.old) (D.told disk.new)) }
    ensures form { WritesHomes g.now header.now image.now result (D.told disk.old) (D.told disk.new) }
    ensures holds { OnOk result (HoldsImage g.now header.now image.now (D.told disk.old) (D.told disk.new)) }
    ensures partly { OnErr result (HoldsPartly g.now header.now image.now (D.told disk.old) (D.told disk.new)) }
    ensures failure { CountsFailure result (D.told disk.old) (D.told disk.new) }
{
    // What the disk tells of its size and its count goes with these.
    let _sectors = disk.sectors();
    let _calls = disk.calls();
    write_homes(disk, g, image)?;
    empty_log(disk, g, header)
}
