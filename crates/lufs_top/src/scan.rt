//! The command `scan`: lists the transactions in the log of a volume.
ghost use Rattle.std.specs.Prelude.{◌≡◌, IfOk, IfSome, IsErrOf};
ghost use Rattle.sector_disk.specs.Disk.{IsUnwritten, FailsJustAt};
ghost use Rattle.lufs_top.specs.Ending.{scan_status};
ghost use Rattle.lufs_top.specs.Scan.{IsScanOf, IsStopped, ScanRan, ended_by};

mod listing;

use crate::ending::Ending;
use host_io::Host;
use listing::listing_text;
use log_scan::{GeometryError, ScanError, list, read_geometry};
use sector_disk::Disk;
use std::alloc::Global;

/// What a scan found.
#[derive(Drop)]
pub(crate) enum ScanEnding {
    /// The log, in this listing.
    Listed(String),
    /// The disk holds no volume.
    NotVolume,
    /// The volume has no log header.
    BadHeader,
    /// The first run of the log that breaks its rules.
    BadRun { tid: u32, place: u32 },
}

impl ScanEnding {
    /// The exit status of the program.
    pub(crate) fn status(&self) -> u8
        ensures { result ≡ scan_status self.now }
    {
        match self {
            ScanEnding::Listed(_) => 0,
            ScanEnding::NotVolume => 6,
            ScanEnding::BadHeader | ScanEnding::BadRun { .. } => 11,
        }
    }
}

/// Why a volume wasn't scanned to its end.
#[derive(Clone, Copy)]
enum Stop {
    DiskFault,
    NoMemory,
}

// What a scan found whose log gave this error, or why it stopped.
fn ended_by(error: ScanError) -> Result<ScanEnding, Stop>
    ensures { result ≡ ended_by error }
{
    match error {
        ScanError::BadHeader => Ok(ScanEnding::BadHeader),
        ScanError::BadLog { tid, place } => Ok(ScanEnding::BadRun { tid, place }),
        ScanError::Disk => Err(Stop::DiskFault),
        ScanError::Mem => Err(Stop::NoMemory),
    }
}

// The ending of a scan of that volume that stopped.
fn stopped(stop: Stop, volume: &str) -> Ending<'_>
    ensures { IsStopped stop volume.now result }
{
    match stop {
        Stop::DiskFault => Ending::DiskFault(volume),
        Stop::NoMemory => Ending::NoMemory,
    }
}

// Reads the superblock and the log of a volume, and makes the listing of its transactions.
fn scan_volume<D: Disk>(alloc: Global, disk: &mut D) -> Result<ScanEnding, Stop>
    ensures ended { IfSome (D.told disk.old).present (λ image. IfOk result (IsScanOf image)) }
    ensures unwritten { IsUnwritten (D.told disk.old) (D.told disk.new) }
    ensures failure { FailsJustAt (IsErrOf result Stop.DiskFault) (D.told disk.old) (D.told disk.new) }
{
    let g = match read_geometry(disk) {
        Ok(g) => g,
        Err(GeometryError::NotVolume) => return Ok(ScanEnding::NotVolume),
        Err(GeometryError::Disk) => return Err(Stop::DiskFault),
    };
    match list(alloc, disk, &g) {
        Ok((header, txs)) => match listing_text(alloc, &g, &header, &txs) {
            Ok(text) => Ok(ScanEnding::Listed(text)),
            Err(_) => Err(Stop::NoMemory),
        },
        Err(error) => ended_by(error),
    }
}

/// Takes the disk of that name, reads its log, and gives the disk back.
pub(crate) fn scan_named<'a, H: Host>(alloc: Global, host: &mut H, volume: &'a str) -> Ending<'a>
    ensures { ScanRan volume.now result (H.outside host.old) (H.outside host.new) }
{
    let mut disk = match host.take_disk(volume) {
        Ok(disk) => disk,
        Err(error) => return Ending::refused(error, volume),
    };
    let ended = scan_volume(alloc, &mut disk);
    host.give_disk(volume, disk);
    match ended {
        Ok(ended) => Ending::Scan { volume, ended },
        Err(stop) => stopped(stop, volume),
    }
}
