//! The header of the log, in its first sector.
ghost use Rattle.std.specs.Prelude.{◌≡◌, length, IfOk, ◌<◌};
ghost use Rattle.std.specs.Result.{result_ok};
ghost use Rattle.lufs_base.specs.Layout.{IsGeometry, ring_of};
ghost use Rattle.volume_model.specs.Log.{header_of, header_bytes};

use crate::Header;
use lufs_base::{Geometry, are_zeros, clear, get_u32, put_u32};

/// The first four bytes of a log header: `LUFS`.
const MAGIC: u32 = 0x4C55_4653;

/// The sector is no log header.
#[derive(Clone, Copy, Debug, PartialEq, Eq)]
pub struct BadHeader;

/// The log header in a sector (`docs/FORMAT.md`, "Log header"). It is refused exactly where the
/// format allows none.
pub fn read_header(g: &Geometry, sector: &[u8]) -> Result<Header, BadHeader>
    requires geometry { IsGeometry g.now }
    requires sector { length sector.now ≡ 512 }
    ensures value { result_ok result ≡ header_of g.now sector.now }
    ensures head { IfOk result (λ h. h.head < ring_of g.now) }
{
    let header = Header {
        epoch: get_u32(sector, 4),
        head: get_u32(sector, 8),
        tid: get_u32(sector, 12),
    };
    if get_u32(sector, 0) != MAGIC {
        return Err(BadHeader);
    }
    if !are_zeros(&sector[16..]) {
        return Err(BadHeader);
    }
    if header.epoch == 0 {
        return Err(BadHeader);
    }
    if header.head >= g.ring() {
        return Err(BadHeader);
    }
    if header.tid == 0 {
        return Err(BadHeader);
    }
    Ok(header)
}

/// Writes a log header to a sector of 512 bytes (`docs/FORMAT.md`, "Log header").
pub fn write_header(header: &Header, out: &mut [u8])
    requires { length out.old ≡ 512 }
    ensures { out.new ≡ header_bytes header.now }
{
    clear(out);
    put_u32(out, 0, MAGIC);
    put_u32(out, 4, header.epoch);
    put_u32(out, 8, header.head);
    put_u32(out, 12, header.tid);
}
