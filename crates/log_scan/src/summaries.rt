//! Reads the log without its deltas: of each transaction a summary is kept.
ghost use Rattle.std.specs.Prelude.{◌≡◌, ◌<◌, ◌≤◌, ◌+◌, ◌*◌, ◌%◌, ◌^◌, drop, IfOk, IfSome, IsErrOf};
ghost use Rattle.lufs_base.specs.Layout.{IsGeometry, ring_of, blocks_of};
ghost use Rattle.volume_model.specs.Log.{log_of};
ghost use Rattle.sector_disk.specs.Disk.{IsUnwritten, FailsJustAt};
ghost use Rattle.log_scan.specs.declared.log.ScanError.TheVariants.{Disk};
ghost use Rattle.log_scan.specs.Ring.{ring_in, transactions_of};
ghost use Rattle.log_scan.specs.Pieces.{Holds};
ghost use Rattle.log_scan.specs.Summaries.{IsTxSummary, IsSummed, IsList};

use crate::log::{place_of, read_log_header};
use crate::ring::Piece;
use crate::{Header, ScanError, TxSummaries, TxSummary};
use log_format::{RunError, RunReader};
use lufs_base::Geometry;
use sector_disk::Disk;
use std::alloc::Global;

// The summary of the transaction that stands from sector `at` after the head on, unless the log ends there.
fn read_summary<D: Disk>(
    disk: &mut D,
    piece: &mut Piece,
    run: &mut RunReader,
    g: &Geometry,
    header: &Header,
    tid: u64,
    at: u32,
) -> Result<Option<TxSummary>, ScanError>
    requires geometry { IsGeometry g.now }
    requires head { header.now.head < ring_of g.now }
    requires disk { 8 * blocks_of g.now ≤ (D.told disk.old).sectors }
    requires at { at ≤ ring_of g.now }
    requires held { Holds g.now header.now.head (D.told disk.old).present piece.old }
    ensures value { IfSome (D.told disk.old).present (λ image. IsTxSummary g.now header.now tid at (drop at (ring_in g.now header.now.head image)) result) }
    ensures inside { IfOk result (λ found. IfSome found (λ tx. (0 < tx.sectors) × (at + tx.sectors ≤ ring_of g.now) × (tid < 2 ^ 32))) }
    ensures held { Holds g.now header.now.head (D.told disk.old).present piece.new }
    ensures unwritten { IsUnwritten (D.told disk.old) (D.told disk.new) }
    ensures failure { FailsJustAt (IsErrOf result ScanError.Disk) (D.told disk.old) (D.told disk.new) }
{
    run.begin(tid);
    let mut i = at;
    while piece.goes_on(disk, g, header, tid, i)? {
        match run.feed(g, piece.carried(i)) {
            Ok(()) => i += 1,
            Err(RunError::Bad) => {
                return Err(ScanError::BadLog {
                    tid: tid as u32,
                    place: place_of(g, header, at),
                });
            }
            Err(RunError::Mem) => return Err(ScanError::Mem),
        }
    }
    if i == at {
        return Ok(None);
    }
    match run.total() {
        None => Ok(None),
        Some(tally) => Ok(Some(TxSummary {
            tid: tid as u32,
            first: place_of(g, header, at),
            sectors: i - at,
            deltas: tally.deltas,
            bytes: tally.bytes,
        })),
    }
}

// The summaries of the transactions of the log.
fn read_summaries<D: Disk>(
    alloc: Global,
    disk: &mut D,
    piece: &mut Piece,
    g: &Geometry,
    header: &Header,
) -> Result<TxSummaries, ScanError>
    requires geometry { IsGeometry g.now }
    requires head { header.now.head < ring_of g.now }
    requires disk { 8 * blocks_of g.now ≤ (D.told disk.old).sectors }
    requires held { Holds g.now header.now.head (D.told disk.old).present piece.old }
    ensures log { IfSome (D.told disk.old).present (λ image. IsSummed (transactions_of g.now header.now image) result) }
    ensures unwritten { IsUnwritten (D.told disk.old) (D.told disk.new) }
    ensures failure { FailsJustAt (IsErrOf result ScanError.Disk) (D.told disk.old) (D.told disk.new) }
{
    let mut txs = TxSummaries::new(alloc);
    let mut run = RunReader::new(alloc, 0);
    let mut at = 0;
    let mut tid = u64::from(header.tid);
    loop {
        let Some(tx) = read_summary(disk, piece, &mut run, g, header, tid, at)? else {
            return Ok(txs);
        };
        at += tx.sectors;
        tid += 1;
        txs.push(tx)?;
    }
}

/// Reads the log of a volume as `scan` does, and keeps a summary of each transaction in place of its deltas.
pub fn list<D: Disk>(
    alloc: Global,
    disk: &mut D,
    g: &Geometry,
) -> Result<(Header, TxSummaries), ScanError>
    requires geometry { IsGeometry g.now }
    requires disk { 8 * blocks_of g.now ≤ (D.told disk.old).sectors }
    ensures log { IfSome (D.told disk.old).present (λ image. IsList (log_of g.now image) result) }
    ensures unwritten { IsUnwritten (D.told disk.old) (D.told disk.new) }
    ensures failure { FailsJustAt (IsErrOf result ScanError.Disk) (D.told disk.old) (D.told disk.new) }
{
    let header = read_log_header(disk, g)?;
    let mut piece = Piece::new(alloc)?;
    let txs = read_summaries(alloc, disk, &mut piece, g, &header)?;
    Ok((header, txs))
}
