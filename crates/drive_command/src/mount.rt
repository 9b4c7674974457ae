//! The volume of a session is read from its disk, and checked.
ghost use Rattle.std.specs.Prelude.{◌≡◌, ◌≤◌, ◌<◌, ◌*◌, [], List, length, Some, IfOk, IfErr, IfSome, IsErrOf};
ghost use Rattle.lufs_base.specs.Layout.{IsGeometry, blocks_of};
ghost use Rattle.volume_model.specs.declared.log.Header.{Header as HeaderValue};
ghost use Rattle.volume_model.specs.Format.{Image, block};
ghost use Rattle.volume_model.specs.Log.{WithHeader, Listed, log_of, replayed};
ghost use Rattle.volume_model.specs.Sound.{Sound};
ghost use Rattle.sector_disk.specs.Disk.{IsUnwritten, FailsJustAt};
ghost use Rattle.drive_command.specs.Volume.{last_epoch, IsRefusalOf, TellsRefusal, IsDiskRefusal, IsMounted, IsHeaderRead, IsLogRead, HasBlocksOf, IsUnsound, no_geometry, unlisted, stopped};

use crate::DriveEnding;
use fsck_core::check;
use host_io::HostError;
use log_format::read_header;
use log_scan::{GeometryError, Header, ScanError, TxList, read_geometry, scan};
use lufs_base::{Geometry, SECTOR};
use meta_store::{LaidDeltas, MetaRead, PlainStore, ReplayedDisk, StoreError};
use plain_image::read_image;
use sector_disk::Disk;
use std::alloc::Global;
use volume_model::{Kind, Verdict};

/// Why a session has no volume, though its disk was lent.
#[derive(Clone, Copy)]
pub enum MountError {
    /// The disk holds no volume.
    NotVolume,
    /// The volume has no log header.
    BadHeader,
    /// The volume is in the last epoch.
    EpochSpent,
    /// The first run of the log that breaks its rules.
    BadLog { tid: u32, place: u32 },
    /// The first rule that the volume breaks.
    Unsound(Kind, u32),
    /// A read of the disk failed.
    Disk,
    /// Memory ran out.
    Mem,
}

/// The volume of a session, with its recovered content in memory.
#[derive(Drop)]
pub(crate) struct Mounted {
    pub(crate) geometry: Geometry,
    pub(crate) header: Header,
    pub(crate) store: PlainStore,
}

/// The ending where the host gave no disk of that name.
pub(crate) fn disk_refused(error: HostError, name: &str) -> DriveEnding<'_>
    ensures { IsDiskRefusal error name.now result }
{
    match error {
        HostError::Missing => DriveEnding::Missing(name),
        HostError::Failed => DriveEnding::DiskFault(name),
        HostError::Mem => DriveEnding::NoMemory,
    }
}

/// The ending where the volume of that name was refused.
pub(crate) fn refused(why: MountError, volume: &str) -> DriveEnding<'_>
    ensures { TellsRefusal why volume.now result }
{
    match why {
        MountError::NotVolume => DriveEnding::NotVolume(volume),
        MountError::BadHeader => DriveEnding::BadHeader,
        MountError::EpochSpent => DriveEnding::EpochSpent(volume),
        MountError::BadLog { tid, place } => DriveEnding::BadLog { tid, place },
        MountError::Unsound(kind, number) => DriveEnding::Unsound(kind, number),
        MountError::Disk => DriveEnding::DiskFault(volume),
        MountError::Mem => DriveEnding::NoMemory,
    }
}

// Reads the header of the log, which is to be of an epoch before the last one.
fn read_log_header<D: Disk>(disk: &mut D, g: &Geometry) -> Result<Header, MountError>
    requires geometry { IsGeometry g.now }
    requires disk { 8 * blocks_of g.now ≤ (D.told disk.old).sectors }
    ensures header { IfSome (D.told disk.old).present (λ image. IsHeaderRead g.now image result) }
    ensures epoch { IfOk result (λ h. h.epoch < last_epoch) }
    ensures unwritten { IsUnwritten (D.told disk.old) (D.told disk.new) }
    ensures failure { FailsJustAt (IsErrOf result MountError.Disk) (D.told disk.old) (D.told disk.new) }
{
    let mut sector = [0u8; SECTOR];
    let Ok(()) = disk.read(g.header_sector(), &mut sector) else {
        return Err(MountError::Disk);
    };
    let header = match read_header(g, &sector) {
        Ok(header) => header,
        Err(_) => return Err(MountError::BadHeader),
    };
    if header.epoch == u32::MAX {
        return Err(MountError::EpochSpent);
    }
    Ok(header)
}

// Why a session has no volume whose log gave this error.
fn unlisted(error: ScanError) -> MountError
    ensures { result ≡ unlisted error }
{
    match error {
        ScanError::Disk => MountError::Disk,
        ScanError::BadHeader => MountError::BadHeader,
        ScanError::BadLog { tid, place } => MountError::BadLog { tid, place },
        ScanError::Mem => MountError::Mem,
    }
}

// Reads the log: its header first, and its transactions only if their epoch isn't the last one.
fn read_log<D: Disk>(
    alloc: Global,
    disk: &mut D,
    g: &Geometry,
) -> Result<(Header, TxList), MountError>
    requires geometry { IsGeometry g.now }
    requires disk { 8 * blocks_of g.now ≤ (D.told disk.old).sectors }
    ensures log { IfSome (D.told disk.old).present (λ image. IsLogRead g.now image result) }
    ensures epoch { IfOk result (λ read. read.0.epoch < last_epoch) }
    ensures unwritten { IsUnwritten (D.told disk.old) (D.told disk.new) }
    ensures failure { FailsJustAt (IsErrOf result MountError.Disk) (D.told disk.old) (D.told disk.new) }
{
    let header = match read_log_header(disk, g) {
        Ok(header) => header,
        Err(why) => return Err(why),
    };
    match scan(alloc, disk, g) {
        Ok((_, txs)) => Ok((header, txs)),
        Err(error) => Err(unlisted(error)),
    }
}

// Reads the blocks of a volume with the transactions of its log replayed, and gives its disk back.
fn read_content<D: Disk>(
    alloc: Global,
    disk: D,
    g: &Geometry,
    log: &TxList,
) -> (D, Result<Vec<u8>, StoreError>)
    requires geometry { IsGeometry g.now }
    requires disk { 8 * blocks_of g.now ≤ (D.told disk).sectors }
    ensures content { IfSome (D.told disk).present (λ image. (h : HeaderValue) → log_of g.now image ≡ WithHeader h (Listed log.now)
        → IfOk result.1 (λ read. HasBlocksOf g.now read.items (replayed image log.now))) }
    ensures size { IfOk result.1 (λ read. length read.items ≡ 4096 * blocks_of g.now) }
    ensures unwritten { IsUnwritten (D.told disk) (D.told result.0) }
    ensures failure { FailsJustAt (IsErrOf result.1 StoreError.Disk) (D.told disk) (D.told result.0) }
{
    let laid = match LaidDeltas::new(alloc, log) {
        Ok(laid) => laid,
        Err(_) => return (disk, Err(StoreError::Mem)),
    };
    let mut store = ReplayedDisk::over(disk, g, laid);
    let read = read_image(alloc, &mut store);
    (store.into_disk(), read)
}

// Checks the content of a volume in memory. It has no disk, so only memory may be wanting.
fn checked(alloc: Global, g: &Geometry, content: Vec<u8>) -> Result<PlainStore, MountError>
    requires geometry { IsGeometry g.now }
    requires size { 4096 * blocks_of g.now ≤ length content.items }
    ensures sound { IfOk result (λ store. Sound g.now (block content.items) []) }
    ensures geometry { IfOk result (λ store. (⟦<PlainStore as MetaRead>⟧.store store).geometry ≡ g.now) }
    ensures content { IfOk result (λ store. (⟦<PlainStore as MetaRead>⟧.store store).content ≡ Some content.items) }
    ensures unsound { IfErr result (IsUnsound g.now content.items) }
{
    let mut store = PlainStore::new(g, content);
    match check(alloc, &mut store) {
        Ok(Verdict::Clean(_)) => Ok(store),
        Ok(Verdict::Finding(kind, number)) => Err(MountError::Unsound(kind, number)),
        Err(_) => Err(MountError::Mem),
    }
}

fn stopped(error: StoreError) -> MountError
    ensures { result ≡ stopped error }
{
    match error {
        StoreError::Disk => MountError::Disk,
        StoreError::Mem => MountError::Mem,
    }
}

fn no_geometry(error: GeometryError) -> MountError
    ensures { result ≡ no_geometry error }
{
    match error {
        GeometryError::NotVolume => MountError::NotVolume,
        GeometryError::Disk => MountError::Disk,
    }
}

/// Reads the volume on a disk and checks it, and gives the disk back: first the superblock, then the header of the log,
/// its transactions, and the content that they leave.
pub(crate) fn mount<D: Disk>(alloc: Global, mut disk: D) -> (D, Result<Mounted, MountError>)
    ensures mounted { IfOk result.1 (λ m. (content : Image) × ((⟦<PlainStore as MetaRead>⟧.store m.store).geometry ≡ m.geometry)
        × ((⟦<PlainStore as MetaRead>⟧.store m.store).content ≡ Some content) × IsMounted m.geometry m.header content (D.told disk) (D.told result.0)) }
    ensures refused { IfErr result.1 (λ why. IfSome (D.told disk).present (λ image. IsRefusalOf image why)) }
    ensures unwritten { IsUnwritten (D.told disk) (D.told result.0) }
    ensures failure { FailsJustAt (IsErrOf result.1 MountError.Disk) (D.told disk) (D.told result.0) }
{
    let geometry = match read_geometry(&mut disk) {
        Ok(geometry) => geometry,
        Err(error) => return (disk, Err(no_geometry(error))),
    };
    let (header, log) = match read_log(alloc, &mut disk, &geometry) {
        Ok(read) => read,
        Err(why) => return (disk, Err(why)),
    };
    let (disk, content) = read_content(alloc, disk, &geometry, &log);
    let content = match content {
        Ok(content) => content,
        Err(error) => return (disk, Err(stopped(error))),
    };
    match checked(alloc, &geometry, content) {
        Ok(store) => (
            disk,
            Ok(Mounted {
                geometry,
                header,
                store,
            }),
        ),
        Err(why) => (disk, Err(why)),
    }
}
