//! Makes an empty volume on a disk (`docs/FORMAT.md`, "A new volume").
ghost use Rattle.std.specs.Prelude.{◌≡◌, ◌≤◌, ◌<◌, ◌*◌, ◌^◌, ℕ, length, ◌⊎◌, Err, IfErr, IsErrOf, OnOk};
ghost use Rattle.lufs_base.specs.Layout.{IsGeometry, blocks_of, superblock_sector};
ghost use Rattle.volume_model.specs.MkfsImage.{used_blocks};
ghost use Rattle.sector_disk.specs.Disk.{IsUnwritten, Makes, CountsFailure, FailsJustAt};
ghost use Rattle.sector_disk.specs.Continued.{CrashLeaves};
ghost use Rattle.new_volume.specs.Mkfs.{sealing, group_calls, other_metadata, IsRoom, volume_calls, mkfs_calls};
ghost use Rattle.new_volume.specs.MkfsCrash.{IsMkfsOutcome};
ghost use Rattle.new_volume.specs.NewVolume.{HoldsNewVolume};
ghost use Rattle.new_volume.specs.declared.make.MkfsError.TheVariants.{Disk, Sectors, Mem as no_memory};

use crate::blocks::{empty_log, first_metadata, group_block, other_metadata};
use lufs_base::{BLOCK, DiskFault, Geometry, Mem, SUPERBLOCK_SECTOR};
use sector_disk::Disk;
use std::alloc::Global;
use ufs_super::write_super;

/// Why there is no new volume.
#[derive(Clone, Copy, Debug, PartialEq, Eq)]
pub enum MkfsError {
    /// The disk failed.
    Disk,
    /// The disk has so many sectors, which are fewer than those of the volume.
    Sectors(u64),
    /// Out of memory.
    Mem,
}

impl From<DiskFault> for MkfsError {
    ghost use Rattle.new_volume.specs.declared.make.MkfsError.TheVariants.{Disk};

    ghost from_gives = { λ _ e. e ≡ Disk };

    fn from(_: DiskFault) -> Self {
        MkfsError::Disk
    }
}

impl From<Mem> for MkfsError {
    ghost use Rattle.new_volume.specs.declared.make.MkfsError.TheVariants.{Mem};

    ghost from_gives = { λ _ e. e ≡ Mem };

    fn from(_: Mem) -> Self {
        MkfsError::Mem
    }
}

// Writes the superblock's sector, and keeps it.
fn put_superblock<D: Disk>(disk: &mut D, sector: &[u8; 512]) -> Result<(), DiskFault>
    requires room { superblock_sector < (D.told disk.old).sectors }
    requires counted { (D.told disk.old).calls < 2 ^ 64 }
    ensures calls { Makes (sealing sector.now) result (D.told disk.old) (D.told disk.new) }
    ensures failure { CountsFailure result (D.told disk.old) (D.told disk.new) }
{
    disk.write(SUPERBLOCK_SECTOR, sector)?;
    disk.flush()
}

// Puts the group block of group n in the place of another group's.
fn put_group_block(g: &Geometry, n: u32, metadata: &mut [u8])
    requires geometry { IsGeometry g.now }
    requires room { IsRoom g.now metadata.old }
    ensures { metadata.new ≡ other_metadata g.now n }
{
    metadata[..BLOCK].copy_from_slice(&group_block(g, n));
}

// Writes the metadata of each group: that of the first one, and of the others in their room.
fn write_groups<D: Disk>(
    disk: &mut D,
    g: &Geometry,
    first: &[u8],
    other: &mut [u8],
) -> Result<(), DiskFault>
    requires geometry { IsGeometry g.now }
    requires room { 8 * blocks_of g.now ≤ (D.told disk.old).sectors }
    requires counted { (D.told disk.old).calls < 2 ^ 64 }
    requires first { length first.now ≡ 4096 * used_blocks g.now 0 }
    requires other { IsRoom g.now other.old }
    ensures calls { Makes (group_calls g.now first.now g.now.groups) result (D.told disk.old) (D.told disk.new) }
    ensures failure { CountsFailure result (D.told disk.old) (D.told disk.new) }
{
    disk.write(8 * u64::from(g.group_block(0).0), first)?;
    for n in 1..g.groups {
        put_group_block(g, n, other);
        disk.write(8 * u64::from(g.group_block(n).0), other)?;
    }
    Ok(())
}

// Writes the volume. Once the first flush is done no old volume is left, and once the second is done all of
// the new one but its superblock is on the disk.
fn write_volume<D: Disk>(
    disk: &mut D,
    g: &Geometry,
    log: &[u8],
    first: &[u8],
    other: &mut [u8],
) -> Result<(), DiskFault>
    requires geometry { IsGeometry g.now }
    requires room { 8 * blocks_of g.now ≤ (D.told disk.old).sectors }
    requires counted { (D.told disk.old).calls < 2 ^ 64 }
    requires log { length log.now ≡ 512 * g.now.log }
    requires first { length first.now ≡ 4096 * used_blocks g.now 0 }
    requires other { IsRoom g.now other.old }
    ensures calls { Makes (volume_calls g.now log.now first.now) result (D.told disk.old) (D.told disk.new) }
    ensures failure { CountsFailure result (D.told disk.old) (D.told disk.new) }
{
    let mut superblock = [0; 512];
    put_superblock(disk, &superblock)?;
    disk.write(g.header_sector(), log)?;
    write_groups(disk, g, first, other)?;
    disk.flush()?;
    write_super(g, &mut superblock);
    put_superblock(disk, &superblock)
}

// Makes the volume on a disk with room for it. All memory is taken before the first write.
fn make_volume<D: Disk>(
    alloc: Global,
    disk: &mut D,
    g: &Geometry,
    moment: u64,
) -> Result<(), MkfsError>
    requires geometry { IsGeometry g.now }
    requires room { 8 * blocks_of g.now ≤ (D.told disk.old).sectors }
    requires counted { (D.told disk.old).calls < 2 ^ 64 }
    ensures calls { Makes (mkfs_calls g.now moment) result (D.told disk.old) (D.told disk.new) }
    ensures unwritten { IfErr result (λ e. (e ≡ Disk) ⊎ ((e ≡ no_memory) × IsUnwritten (D.told disk.old) (D.told disk.new))) }
    ensures failure { FailsJustAt (IsErrOf result MkfsError.Disk) (D.told disk.old) (D.told disk.new) }
{
    let log = empty_log(alloc, g)?;
    let first = first_metadata(alloc, g, moment)?;
    let mut other = other_metadata(alloc, g)?;
    write_volume(disk, g, &log, &first, &mut other)?;
    Ok(())
}

/// Makes an empty volume of this geometry, whose root directory gets this time, in seconds since 1970
/// (`docs/FORMAT.md`, "A new volume"). Only the sectors of the volume's superblock, log and metadata change.
///
/// # Errors
///
/// `Sectors` where the disk is too small, and `Mem` where memory ran out; the disk is then as it was. `Disk`
/// exactly where one of the disk's calls failed. No other call failed then, and no write and no flush was
/// counted after that call.
pub fn mkfs<D: Disk>(
    alloc: Global,
    disk: &mut D,
    g: &Geometry,
    moment: u64,
) -> Result<(), MkfsError>
    requires { IsGeometry g.now }
    ensures calls { Makes (mkfs_calls g.now moment) result (D.told disk.old) (D.told disk.new) }
    ensures made { OnOk result (HoldsNewVolume g.now moment (D.told disk.old) (D.told disk.new)) }
    ensures small { (D.told disk.old).sectors < 8 * blocks_of g.now → result ≡ Err (Sectors (D.told disk.old).sectors) }
    ensures only_small { (n : ℕ) → result ≡ Err (Sectors n) → (n ≡ (D.told disk.old).sectors) × (n < 8 * blocks_of g.now) }
    ensures unwritten { IfErr result (λ e. (e ≡ Disk) ⊎ IsUnwritten (D.told disk.old) (D.told disk.new)) }
    ensures crash { CrashLeaves (IsMkfsOutcome g.now moment) (D.told disk.old) (D.told disk.new) }
    ensures failure { FailsJustAt (IsErrOf result MkfsError.Disk) (D.told disk.old) (D.told disk.new) }
{
    let sectors = disk.sectors();
    // The content goes with the calls, by what this one ensures.
    let _calls = disk.calls();
    if sectors < 8 * u64::from(g.total()) {
        return Err(MkfsError::Sectors(sectors));
    }
    make_volume(alloc, disk, g, moment)
}
