//! The trailer of a log sector.
ghost use Rattle.std.specs.Prelude.{◌≡◌, ◌++◌, length, take};
ghost use Rattle.volume_model.specs.Log.{trailer_of, trailer_bytes};

use crate::Trailer;
use lufs_base::{PAYLOAD, get_u32, put_u32};

/// The trailer of a log sector of 512 bytes (`docs/FORMAT.md`, "Log sectors").
pub fn read_trailer(sector: &[u8]) -> Trailer
    requires { length sector.now ≡ 512 }
    ensures { result ≡ trailer_of sector.now }
{
    Trailer {
        tid: get_u32(sector, PAYLOAD),
        ident: get_u32(sector, PAYLOAD + 4),
    }
}

/// Writes the last 8 bytes of a log sector of 512 bytes (`docs/FORMAT.md`, "Log sectors"). The others
/// stay.
pub fn write_trailer(trailer: &Trailer, out: &mut [u8])
    requires { length out.old ≡ 512 }
    ensures { out.new ≡ take 504 out.old ++ trailer_bytes trailer.now }
{
    put_u32(out, PAYLOAD, trailer.tid);
    put_u32(out, PAYLOAD + 4, trailer.ident);
}
