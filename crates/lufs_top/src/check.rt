//! The command `check`: tells whether a volume is sound once its log is replayed, and else what is wrong.
ghost use Rattle.std.specs.Prelude.{◌≡◌, ◌≤◌, ◌*◌, IfOk, IfSome, IsErrOf};
ghost use Rattle.lufs_base.specs.Layout.{IsGeometry, blocks_of};
ghost use Rattle.sector_disk.specs.Disk.{IsUnwritten, FailsJustAt};
ghost use Rattle.lufs_top.specs.Check.{CheckRan, IsCheckOf, IsStopped, IsVerdictAfter, ended_by};
ghost use Rattle.lufs_top.specs.Ending.{check_status};

use crate::ending::Ending;
use fsck_core::check;
use host_io::Host;
use log_scan::{GeometryError, ScanError, TxList, read_geometry, scan};
use lufs_base::Geometry;
use meta_store::{LaidDeltas, ReplayedDisk, StoreError};
use sector_disk::Disk;
use std::alloc::Global;
use volume_model::Verdict;

/// What a check found.
#[derive(Clone, Copy)]
pub(crate) enum CheckEnding {
    /// The volume was checked to its end, or to the first finding.
    Checked(Verdict),
    /// The disk holds no volume.
    NotVolume,
    /// The volume has no log header.
    BadHeader,
    /// The first run of the log that breaks its rules.
    BadRun { tid: u32, place: u32 },
}

impl CheckEnding {
    /// The exit status of the program.
    pub(crate) fn status(&self) -> u8
        ensures { result ≡ check_status self.now }
    {
        match self {
            CheckEnding::Checked(Verdict::Clean(_)) => 0,
            CheckEnding::Checked(Verdict::Finding(..)) => 7,
            CheckEnding::NotVolume => 6,
            CheckEnding::BadHeader | CheckEnding::BadRun { .. } => 11,
        }
    }
}

// What a check found whose log gave this error, or why it stopped.
fn ended_by(error: ScanError) -> Result<CheckEnding, StoreError>
    ensures { result ≡ ended_by error }
{
    match error {
        ScanError::BadHeader => Ok(CheckEnding::BadHeader),
        ScanError::BadLog { tid, place } => Ok(CheckEnding::BadRun { tid, place }),
        ScanError::Disk => Err(StoreError::Disk),
        ScanError::Mem => Err(StoreError::Mem),
    }
}

// The ending of a check of that volume that stopped.
fn stopped(error: StoreError, volume: &str) -> Ending<'_>
    ensures { IsStopped error volume.now result }
{
    match error {
        StoreError::Disk => Ending::DiskFault(volume),
        StoreError::Mem => Ending::NoMemory,
    }
}

// Checks a volume with the transactions of its log replayed, and gives its disk back.
fn check_replayed<D: Disk>(
    alloc: Global,
    disk: D,
    g: &Geometry,
    log: &TxList,
) -> (D, Result<Verdict, StoreError>)
    requires geometry { IsGeometry g.now }
    requires blocks { 8 * blocks_of g.now ≤ (D.told disk).sectors }
    ensures verdict { IfSome (D.told disk).present (λ image. IsVerdictAfter g.now log.now image result.1) }
    ensures unwritten { IsUnwritten (D.told disk) (D.told result.0) }
    ensures failure { FailsJustAt (IsErrOf result.1 StoreError.Disk) (D.told disk) (D.told result.0) }
{
    let laid = match LaidDeltas::new(alloc, log) {
        Ok(laid) => laid,
        Err(_) => return (disk, Err(StoreError::Mem)),
    };
    let mut store = ReplayedDisk::over(disk, g, laid);
    let verdict = check(alloc, &mut store);
    (store.into_disk(), verdict)
}

// Reads the superblock and the log of a volume, checks it, and gives its disk back.
fn check_volume<D: Disk>(alloc: Global, mut disk: D) -> (D, Result<CheckEnding, StoreError>)
    ensures ended { IfSome (D.told disk).present (λ image. IfOk result.1 (IsCheckOf image)) }
    ensures unwritten { IsUnwritten (D.told disk) (D.told result.0) }
    ensures failure { FailsJustAt (IsErrOf result.1 StoreError.Disk) (D.told disk) (D.told result.0) }
{
    let g = match read_geometry(&mut disk) {
        Ok(g) => g,
        Err(GeometryError::NotVolume) => return (disk, Ok(CheckEnding::NotVolume)),
        Err(GeometryError::Disk) => return (disk, Err(StoreError::Disk)),
    };
    let log = match scan(alloc, &mut disk, &g) {
        Ok((_, log)) => log,
        Err(error) => return (disk, ended_by(error)),
    };
    let (disk, verdict) = check_replayed(alloc, disk, &g, &log);
    (disk, verdict.map(CheckEnding::Checked))
}

/// Takes the disk of that name, checks the volume on it, and gives the disk back.
pub(crate) fn check_named<'a, H: Host>(alloc: Global, host: &mut H, volume: &'a str) -> Ending<'a>
    ensures { CheckRan volume.now result (H.outside host.old) (H.outside host.new) }
{
    let disk = match host.take_disk(volume) {
        Ok(disk) => disk,
        Err(error) => return Ending::refused(error, volume),
    };
    let (disk, ended) = check_volume(alloc, disk);
    host.give_disk(volume, disk);
    match ended {
        Ok(ended) => Ending::Check { volume, ended },
        Err(error) => stopped(error, volume),
    }
}
