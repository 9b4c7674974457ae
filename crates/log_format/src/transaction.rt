//! A transaction written to log sectors.
ghost use Rattle.std.specs.Prelude.{◌≡◌, ◌+◌, ◌*◌, ◌/◌, ◌%◌, ◌-◌, ◌≤◌, ◌<◌, ◌^◌, ◌++◌, length, take, drop, replicate};
ghost use Rattle.std.specs.List.{flat_map};
ghost use Rattle.lufs_base.specs.Fields.{put_at};
ghost use Rattle.lufs_base.specs.Layout.{IsGeometry};
ghost use Rattle.lufs_base.specs.declared.geometry.Geometry.{Geometry};
ghost use Rattle.volume_model.specs.Log.{trailer_bytes, AreLoggable, tx_sectors, record_head, delta_record, records_of, carrying, tx_bytes};

use crate::kinds::{COMMIT, HEAD, type_of};
use crate::{Trailer, write_trailer};
use lufs_base::{Delta, DeltaList, PAYLOAD, SECTOR, clear, put_u32, put_u64};

// Writes the head of a record to the 16 bytes from byte `at`. The other bytes stay.
fn put_head(out: &mut [u8], at: usize, home: u64, len: u32, record_type: u32)
    requires { at + 16 ≤ length out.old }
    ensures { out.new ≡ put_at out.old at (record_head home len record_type) }
{
    put_u64(out, at, home);
    put_u32(out, at + 8, len);
    put_u32(out, at + 12, record_type);
}

// Writes these bytes from byte `at` on. The other bytes stay.
fn put_bytes(out: &mut [u8], at: usize, bytes: &[u8])
    requires { at + length bytes.now ≤ length out.old }
    ensures { out.new ≡ put_at out.old at bytes.now }
{
    out[at..at + bytes.len()].copy_from_slice(bytes);
}

// Writes the record of a delta from byte `at` on, and answers where it ends. The other bytes stay.
fn put_delta(out: &mut [u8], at: usize, delta: &Delta) -> usize
    requires { at + length (delta_record delta.now) ≤ length out.old }
    ensures end { result ≡ at + length (delta_record delta.now) }
    ensures bytes { out.new ≡ put_at out.old at (delta_record delta.now) }
{
    put_head(out, at, delta.home, delta.len, type_of(delta.kind));
    put_bytes(out, at + HEAD, delta.bytes.as_slice());
    at + HEAD + delta.bytes.len()
}

// Writes the records of the deltas to the front, and answers where they end.
fn put_deltas(out: &mut [u8], deltas: &[Delta]) -> usize
    requires { length (flat_map delta_record deltas.now) ≤ length out.old }
    ensures end { result ≡ length (flat_map delta_record deltas.now) }
    ensures bytes { take result out.new ≡ flat_map delta_record deltas.now }
{
    let mut at = 0;
    for delta in deltas {
        at = put_delta(out, at, delta);
    }
    at
}

// Writes the records of the deltas and the commit record to the front, and zeros after them.
fn put_records(out: &mut [u8], deltas: &[Delta], tid: u32)
    requires count { length deltas.now < 2 ^ 32 }
    requires fits { length (records_of deltas.now tid) ≤ length out.old }
    ensures { out.new ≡ records_of deltas.now tid ++ replicate (length out.old - length (records_of deltas.now tid)) 0 }
{
    let end = put_deltas(out, deltas);
    put_head(out, end, u64::from(tid), deltas.len() as u32, COMMIT);
    clear(&mut out[end + HEAD..]);
}

// Makes sector `i` of its piece of the payload, which stands at the front. The other bytes stay.
fn make_sector(out: &mut [u8], i: usize, trailer: &Trailer)
    requires { 512 * i + 512 ≤ length out.old }
    ensures { out.new ≡ put_at out.old (512 * i) (take 504 (drop (504 * i) out.old) ++ trailer_bytes trailer.now) }
{
    out.copy_within(PAYLOAD * i..PAYLOAD * i + PAYLOAD, SECTOR * i);
    write_trailer(trailer, &mut out[SECTOR * i..SECTOR * i + SECTOR]);
}

// Makes sectors of the payload that stands at the front. The last one is made first, since it lies
// after all that is still to be read.
fn make_sectors(out: &mut [u8], trailer: &Trailer)
    requires { length out.old % 512 ≡ 0 }
    ensures { out.new ≡ carrying trailer.now (take (504 * (length out.old / 512)) out.old) }
{
    let mut i = out.len() / SECTOR;
    while i > 0 {
        i -= 1;
        make_sector(out, i, trailer);
    }
}

/// Writes the sectors of transaction `tid` (`docs/FORMAT.md`, "Log records"): the records of the deltas
/// and the commit record, with a trailer after each 504 bytes of them, and zeros to the end of the last
/// sector's payload. `out` is exactly these sectors.
pub fn write_tx(deltas: &DeltaList, tid: u32, ident: u32, out: &mut [u8])
    requires deltas { (g : Geometry) × IsGeometry g × AreLoggable g deltas.now }
    requires size { length out.old ≡ 512 * tx_sectors deltas.now }
    ensures { out.new ≡ tx_bytes deltas.now tid ident }
{
    put_records(out, deltas.as_slice(), tid);
    make_sectors(out, &Trailer { tid, ident });
}
