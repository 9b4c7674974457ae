//! Reads the log with its deltas: the header, and then one transaction after the other.
ghost use Rattle.std.specs.Prelude.{◌≡◌, ◌<◌, ◌≤◌, ◌+◌, ◌*◌, ◌%◌, ◌^◌, drop, IfOk, IfSome, IsErrOf};
ghost use Rattle.lufs_base.specs.Layout.{IsGeometry, ring_of, blocks_of};
ghost use Rattle.volume_model.specs.Log.{log_of, log_after};
ghost use Rattle.volume_model.specs.Format.{sector};
ghost use Rattle.sector_disk.specs.Disk.{IsUnwritten, FailsJustAt};
ghost use Rattle.log_scan.specs.declared.log.ScanError.TheVariants.{Disk, BadHeader, Mem};
ghost use Rattle.log_scan.specs.Ring.{ring_in, transactions_of};
ghost use Rattle.log_scan.specs.Pieces.{Holds};
ghost use Rattle.log_scan.specs.Answers.{IsTx, IsListing, IsScan, IsHeaderAnswer};

use crate::ring::Piece;
use crate::runs::read_row;
use crate::{Header, Tx, TxList};
use log_format::{Run, RunError, read_header, read_run};
use lufs_base::{DiskFault, Geometry, SECTOR};
use sector_disk::Disk;
use std::alloc::{AllocError, Global};

/// Why a scan told no log.
#[derive(Clone, Copy, PartialEq, Eq)]
pub enum ScanError {
    /// A read of the disk failed.
    Disk,
    /// The first sector of the log is no header.
    BadHeader,
    /// The run of transaction `tid`, which begins at this place of the ring, breaks a rule of the log.
    BadLog { tid: u32, place: u32 },
    /// Out of memory.
    Mem,
}

impl From<DiskFault> for ScanError {
    ghost from_gives = { λ _ e. e ≡ Disk };

    fn from(_: DiskFault) -> ScanError {
        ScanError::Disk
    }
}

impl From<log_format::BadHeader> for ScanError {
    ghost from_gives = { λ _ e. e ≡ BadHeader };

    fn from(_: log_format::BadHeader) -> ScanError {
        ScanError::BadHeader
    }
}

impl From<lufs_base::Mem> for ScanError {
    ghost from_gives = { λ _ e. e ≡ Mem };

    fn from(_: lufs_base::Mem) -> ScanError {
        ScanError::Mem
    }
}

impl From<AllocError> for ScanError {
    ghost from_gives = { λ _ e. e ≡ Mem };

    fn from(_: AllocError) -> ScanError {
        ScanError::Mem
    }
}

/// The place in the ring of the sector `at` after the head.
pub(crate) fn place_of(g: &Geometry, header: &Header, at: u32) -> u32
    requires geometry { IsGeometry g.now }
    requires head { header.now.head < ring_of g.now }
    requires at { at ≤ ring_of g.now }
    ensures { result ≡ (header.now.head + at) % ring_of g.now }
{
    (header.head + at) % g.ring()
}

// The transaction that stands from sector `at` after the head on, unless the log ends there.
fn read_tx<D: Disk>(
    alloc: Global,
    disk: &mut D,
    piece: &mut Piece,
    g: &Geometry,
    header: &Header,
    tid: u64,
    at: u32,
) -> Result<Option<Tx>, ScanError>
    requires geometry { IsGeometry g.now }
    requires head { header.now.head < ring_of g.now }
    requires disk { 8 * blocks_of g.now ≤ (D.told disk.old).sectors }
    requires at { at ≤ ring_of g.now }
    requires held { Holds g.now header.now.head (D.told disk.old).present piece.old }
    ensures value { IfSome (D.told disk.old).present (λ image. IsTx g.now header.now tid at (drop at (ring_in g.now header.now.head image)) result) }
    ensures inside { IfOk result (λ found. IfSome found (λ tx. (0 < tx.sectors) × (at + tx.sectors ≤ ring_of g.now) × (tid < 2 ^ 32))) }
    ensures held { Holds g.now header.now.head (D.told disk.old).present piece.new }
    ensures unwritten { IsUnwritten (D.told disk.old) (D.told disk.new) }
    ensures failure { FailsJustAt (IsErrOf result ScanError.Disk) (D.told disk.old) (D.told disk.new) }
{
    let (sectors, payload) = read_row(alloc, disk, piece, g, header, tid, at)?;
    if sectors == 0 {
        return Ok(None);
    }
    let tid = tid as u32;
    match read_run(alloc, g, tid, &payload) {
        Ok(Run::Whole(deltas)) => Ok(Some(Tx {
            tid,
            first: place_of(g, header, at),
            sectors,
            deltas,
        })),
        Ok(Run::Short) => Ok(None),
        Err(RunError::Bad) => Err(ScanError::BadLog {
            tid,
            place: place_of(g, header, at),
        }),
        Err(RunError::Mem) => Err(ScanError::Mem),
    }
}

// The transactions of the log, from those at the front of the ring on. A number above those of 32 bits, which no
// sector names, ends it.
fn read_transactions<D: Disk>(
    alloc: Global,
    disk: &mut D,
    piece: &mut Piece,
    g: &Geometry,
    header: &Header,
) -> Result<TxList, ScanError>
    requires geometry { IsGeometry g.now }
    requires head { header.now.head < ring_of g.now }
    requires disk { 8 * blocks_of g.now ≤ (D.told disk.old).sectors }
    requires held { Holds g.now header.now.head (D.told disk.old).present piece.old }
    ensures log { IfSome (D.told disk.old).present (λ image. IsListing (transactions_of g.now header.now image) result) }
    ensures unwritten { IsUnwritten (D.told disk.old) (D.told disk.new) }
    ensures failure { FailsJustAt (IsErrOf result ScanError.Disk) (D.told disk.old) (D.told disk.new) }
{
    let mut txs = TxList::new(alloc);
    let mut at = 0;
    let mut tid = u64::from(header.tid);
    loop {
        let Some(tx) = read_tx(alloc, disk, piece, g, header, tid, at)? else {
            return Ok(txs);
        };
        at += tx.sectors;
        tid += 1;
        txs.push(tx)?;
    }
}

/// The header of the log of a volume.
pub(crate) fn read_log_header<D: Disk>(disk: &mut D, g: &Geometry) -> Result<Header, ScanError>
    requires geometry { IsGeometry g.now }
    requires disk { 8 * blocks_of g.now ≤ (D.told disk.old).sectors }
    ensures value { IfSome (D.told disk.old).present (λ image. IsHeaderAnswer g.now image result) }
    ensures head { IfOk result (λ h. h.head < ring_of g.now) }
    ensures unwritten { IsUnwritten (D.told disk.old) (D.told disk.new) }
    ensures failure { FailsJustAt (IsErrOf result ScanError.Disk) (D.told disk.old) (D.told disk.new) }
{
    let mut sector = [0u8; SECTOR];
    disk.read(g.header_sector(), &mut sector)?;
    Ok(read_header(g, &sector)?)
}

/// Reads the log of a volume, each sector of the ring at most once, and of the ring no more than to the end of the
/// piece in which the log ends. It fails where a read failed, there was no memory, or the log is none or bad, and
/// says which.
pub fn scan<D: Disk>(
    alloc: Global,
    disk: &mut D,
    g: &Geometry,
) -> Result<(Header, TxList), ScanError>
    requires geometry { IsGeometry g.now }
    requires disk { 8 * blocks_of g.now ≤ (D.told disk.old).sectors }
    ensures log { IfSome ((D.told disk.old).present) (λ image. IsScan (log_of g.now image) result) }
    ensures unwritten { IsUnwritten (D.told disk.old) (D.told disk.new) }
    ensures failure { FailsJustAt (IsErrOf result ScanError.Disk) (D.told disk.old) (D.told disk.new) }
{
    let header = read_log_header(disk, g)?;
    let mut piece = Piece::new(alloc)?;
    let txs = read_transactions(alloc, disk, &mut piece, g, &header)?;
    Ok((header, txs))
}
