//! Reads the superblock of a volume, and the geometry in it.
ghost use Rattle.std.specs.Prelude.{◌≡◌, ◌≤◌, ◌*◌, IfSome, IfOk, IsErrOf};
ghost use Rattle.lufs_base.specs.Layout.{IsGeometry, blocks_of};
ghost use Rattle.volume_model.specs.Format.{geometry_of};
ghost use Rattle.sector_disk.specs.Disk.{IsUnwritten, FailsJustAt};
ghost use Rattle.log_scan.specs.declared.geometry.GeometryError.TheVariants.{Disk, NotVolume};
ghost use Rattle.log_scan.specs.Answers.{IsGeometryAnswer};

use lufs_base::{DiskFault, Geometry, SECTOR, SUPERBLOCK_SECTOR};
use sector_disk::Disk;
use ufs_super::read_super;

/// Why a disk gives no geometry.
#[derive(Clone, Copy, PartialEq, Eq)]
pub enum GeometryError {
    /// The read of the superblock failed.
    Disk,
    /// The sector is no superblock, or the disk is smaller than the volume.
    NotVolume,
}

impl From<DiskFault> for GeometryError {
    ghost from_gives = { λ _ e. e ≡ Disk };

    fn from(_: DiskFault) -> GeometryError {
        GeometryError::Disk
    }
}

impl From<ufs_super::NotVolume> for GeometryError {
    ghost from_gives = { λ _ e. e ≡ NotVolume };

    fn from(_: ufs_super::NotVolume) -> GeometryError {
        GeometryError::NotVolume
    }
}

/// The geometry of the volume on a disk, by its superblock (`docs/FORMAT.md`, "Superblock"). It fails where
/// the read failed, or there is no volume, and says which.
pub fn read_geometry<D: Disk>(disk: &mut D) -> Result<Geometry, GeometryError>
    ensures value { IfSome (D.told disk.old).present (λ image. IsGeometryAnswer (geometry_of image) result) }
    ensures in_range { IfOk result IsGeometry }
    ensures fits { IfOk result (λ g. 8 * blocks_of g ≤ (D.told disk.new).sectors) }
    ensures unwritten { IsUnwritten (D.told disk.old) (D.told disk.new) }
    ensures failure { FailsJustAt (IsErrOf result GeometryError.Disk) (D.told disk.old) (D.told disk.new) }
{
    let sectors = disk.sectors();
    if sectors <= SUPERBLOCK_SECTOR {
        return Err(GeometryError::NotVolume);
    }
    let mut sector = [0u8; SECTOR];
    disk.read(SUPERBLOCK_SECTOR, &mut sector)?;
    Ok(read_super(&sector, sectors)?)
}
