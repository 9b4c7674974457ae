//! What the sectors of one transaction carry, read from the ring.
ghost use Rattle.std.specs.Prelude.{◌≡◌, ◌<◌, ◌≤◌, ◌+◌, ◌*◌, ◌^◌, length, drop, [], IfOk, IfErr, IfSome, IsErrOf};
ghost use Rattle.lufs_base.specs.Layout.{IsGeometry, ring_of, blocks_of};
ghost use Rattle.sector_disk.specs.Disk.{IsUnwritten, FailsJustAt};
ghost use Rattle.log_scan.specs.Ring.{ring_in};
ghost use Rattle.log_scan.specs.Pieces.{Holds};
ghost use Rattle.log_scan.specs.Answers.{IsRow, IsStop};

use crate::ring::Piece;
use crate::{Header, ScanError};
use lufs_base::Geometry;
use sector_disk::Disk;
use std::alloc::Global;

// Adds to an empty payload what the sectors of the ring carry that belong to this transaction, from sector `at` on, and
// answers how many they are.
fn extend_row<D: Disk>(
    disk: &mut D,
    piece: &mut Piece,
    g: &Geometry,
    header: &Header,
    tid: u64,
    at: u32,
    payload: &mut Vec<u8>,
) -> Result<u32, ScanError>
    requires geometry { IsGeometry g.now }
    requires head { header.now.head < ring_of g.now }
    requires disk { 8 * blocks_of g.now ≤ (D.told disk.old).sectors }
    requires at { at ≤ ring_of g.now }
    requires held { Holds g.now header.now.head (D.told disk.old).present piece.old }
    requires empty { payload.old.items ≡ [] }
    ensures row { IfSome (D.told disk.old).present (λ image. IfOk result (λ count.
        IsRow header.now.epoch tid (drop at (ring_in g.now header.now.head image)) count payload.new.items)) }
    ensures stop { IfErr result IsStop }
    ensures inside { IfOk result (λ count. at + count ≤ ring_of g.now) }
    ensures number { IfOk result (λ count. 0 < count → tid < 2 ^ 32) }
    ensures held { Holds g.now header.now.head (D.told disk.old).present piece.new }
    ensures unwritten { IsUnwritten (D.told disk.old) (D.told disk.new) }
    ensures failure { FailsJustAt (IsErrOf result ScanError.Disk) (D.told disk.old) (D.told disk.new) }
{
    let mut i = at;
    while piece.goes_on(disk, g, header, tid, i)? {
        payload.extend_from_slice(piece.carried(i))?;
        i += 1;
    }
    Ok(i - at)
}

/// How many sectors of the ring, from sector `at` on, belong to this transaction, and what they carry.
pub(crate) fn read_row<D: Disk>(
    alloc: Global,
    disk: &mut D,
    piece: &mut Piece,
    g: &Geometry,
    header: &Header,
    tid: u64,
    at: u32,
) -> Result<(u32, Vec<u8>), ScanError>
    requires geometry { IsGeometry g.now }
    requires head { header.now.head < ring_of g.now }
    requires disk { 8 * blocks_of g.now ≤ (D.told disk.old).sectors }
    requires at { at ≤ ring_of g.now }
    requires held { Holds g.now header.now.head (D.told disk.old).present piece.old }
    ensures row { IfSome (D.told disk.old).present (λ image. IfOk result (λ row.
        IsRow header.now.epoch tid (drop at (ring_in g.now header.now.head image)) row.0 row.1.items)) }
    ensures stop { IfErr result IsStop }
    ensures inside { IfOk result (λ row. at + row.0 ≤ ring_of g.now) }
    ensures number { IfOk result (λ row. 0 < row.0 → tid < 2 ^ 32) }
    ensures held { Holds g.now header.now.head (D.told disk.old).present piece.new }
    ensures unwritten { IsUnwritten (D.told disk.old) (D.told disk.new) }
    ensures failure { FailsJustAt (IsErrOf result ScanError.Disk) (D.told disk.old) (D.told disk.new) }
{
    let mut payload = Vec::new(alloc);
    let count = extend_row(disk, piece, g, header, tid, at, &mut payload)?;
    Ok((count, payload))
}
