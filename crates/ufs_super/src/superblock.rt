//! Reads a superblock from its sector and writes it there, with the laws that the two agree.
ghost use Rattle.std.specs.Prelude.{◌≡◌, ◌<◌, ◌≤◌, ◌*◌, ℕ, List, Some, length, IfOk, IsTrue};
ghost use Rattle.std.specs.Result.{result_ok};
ghost use Rattle.lufs_base.specs.Fields.{AreBytes};
ghost use Rattle.lufs_base.specs.Layout.{is_step, IsGeometry, blocks_of};
ghost use Rattle.lufs_base.specs.declared.geometry.Geometry.{Geometry};
ghost use Rattle.volume_model.specs.Format.{super_of, super_bytes, is_geometry};

use lufs_base::{Geometry, are_zeros, clear, get_u32, is_step, put_u32};

/// The first four bytes of a superblock, as in UFS.
const MAGIC: u32 = 0x0001_1954;

/// The sector isn't a superblock, or the disk is smaller than the superblock says.
#[derive(Clone, Copy, Debug, PartialEq, Eq)]
pub struct NotVolume;

// Whether each number is in its range.
fn is_geometry(g: &Geometry) -> bool
    ensures test { result ≡ is_geometry g.now }
    ensures range { IsTrue result → IsGeometry g.now }
{
    g.version == 1
        && is_step(1, 64, 1, u64::from(g.groups))
        && is_step(64, 2048, 8, u64::from(g.bpg))
        && is_step(32, 1024, 32, u64::from(g.ipg))
        && is_step(256, 65_536, 8, u64::from(g.log))
        && 2 + g.ipg / 32 <= g.bpg
}

/// Reads the geometry from a superblock, on a disk of so many sectors (`docs/FORMAT.md`, "Superblock"). It
/// answers an error exactly where the format gives no geometry.
pub fn read_super(sector: &[u8], sectors: u64) -> Result<Geometry, NotVolume>
    requires { length sector.now ≡ 512 }
    ensures value { result_ok result ≡ super_of sector.now sectors }
    ensures in_range { IfOk result IsGeometry }
    ensures fits { IfOk result (λ g. 8 * blocks_of g ≤ sectors) }
{
    let g = Geometry {
        version: get_u32(sector, 4),
        groups: get_u32(sector, 8),
        bpg: get_u32(sector, 12),
        ipg: get_u32(sector, 16),
        log: get_u32(sector, 20),
    };
    if get_u32(sector, 0) != MAGIC {
        return Err(NotVolume);
    }
    if !is_geometry(&g) {
        return Err(NotVolume);
    }
    let blocks = g.total();
    if get_u32(sector, 24) != blocks {
        return Err(NotVolume);
    }
    if !are_zeros(&sector[28..]) {
        return Err(NotVolume);
    }
    if sectors < 8 * u64::from(blocks) {
        return Err(NotVolume);
    }
    Ok(g)
}

/// Writes a superblock to a sector of 512 bytes (`docs/FORMAT.md`, "Superblock").
pub fn write_super(g: &Geometry, out: &mut [u8])
    requires geometry { IsGeometry g.now }
    requires sector { length out.old ≡ 512 }
    ensures { out.new ≡ super_bytes g.now }
{
    clear(out);
    put_u32(out, 0, MAGIC);
    put_u32(out, 4, g.version);
    put_u32(out, 8, g.groups);
    put_u32(out, 12, g.bpg);
    put_u32(out, 16, g.ipg);
    put_u32(out, 20, g.log);
    put_u32(out, 24, g.total());
}

/// On a disk with room for the volume, a superblock reads as the geometry that it was written from.
pub fn superblock_read_back()
    ensures { (g : Geometry) (sectors : ℕ) → IsGeometry g → 8 * blocks_of g ≤ sectors → super_of (super_bytes g) sectors ≡ Some g }
{}

/// A geometry that was read from a sector is written as that same sector.
pub fn superblock_spelled_again()
    ensures { (g : Geometry) (sector : List ℕ) (sectors : ℕ) → AreBytes sector → length sector ≡ 512
        → super_of sector sectors ≡ Some g → super_bytes g ≡ sector }
{}
