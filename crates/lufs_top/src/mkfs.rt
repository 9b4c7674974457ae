//! The command `mkfs`: makes an empty volume on a disk, which is made where there is none.
ghost use Rattle.std.specs.Prelude.{◌≡◌, IfOk, string_bytes};
ghost use Rattle.lufs_base.specs.Layout.{IsGeometry};
ghost use Rattle.volume_model.specs.Texts.{mkfs_text};
ghost use Rattle.lufs_top.specs.Ending.{mkfs_status};
ghost use Rattle.lufs_top.specs.Mkfs.{IsMkfsFailure, MkfsRan};

use crate::ending::Ending;
use crate::numbers::{BadNumber, GeometryWord, VolumeNumbers, geometry_from};
use host_io::Host;
use lufs_base::{Geometry, Mem};
use new_volume::{MkfsError, mkfs};
use std::alloc::Global;

/// What came of making a volume.
#[derive(Drop)]
pub(crate) enum MkfsEnding {
    /// It is made, and this line tells of it.
    Made(String),
    /// It can't be made with this number.
    Refused(BadNumber),
}

impl MkfsEnding {
    /// The exit status of the program.
    pub(crate) fn status(&self) -> u8
        ensures { result ≡ mkfs_status self.now }
    {
        match self {
            MkfsEnding::Made(_) => 0,
            MkfsEnding::Refused(_) => 10,
        }
    }
}

// What `mkfs` prints of the volume that it made (`docs/FORMAT.md`, "What mkfs prints").
#[tactic(auto, unfolding(volume_model::specs::Texts::MkfsText::mkfs_text))]
fn mkfs_text(alloc: Global, g: &Geometry) -> Result<String, Mem>
    requires { IsGeometry g.now }
    ensures { IfOk result (λ text. string_bytes text ≡ mkfs_text g.now) }
{
    let blocks = g.total();
    let inodes = g.groups * g.ipg - 2;
    let free = g.groups * (g.bpg - (1 + g.ipg / 32)) - 1;
    let ring = g.ring();
    Ok(format!(in alloc; "made blocks {blocks} inodes {inodes} free {free} ring {ring}\n")?)
}

// The ending of a `mkfs` of that volume that failed so.
fn failed(error: MkfsError, volume: &str) -> Ending<'_>
    ensures { IsMkfsFailure error volume.now result }
{
    match error {
        MkfsError::Sectors(number) => Ending::Mkfs(MkfsEnding::Refused(BadNumber {
            word: GeometryWord::Sectors,
            number,
        })),
        MkfsError::Disk => Ending::DiskFault(volume),
        MkfsError::Mem => Ending::NoMemory,
    }
}

/// Makes an empty volume of these numbers under that name, if they are in their ranges.
pub(crate) fn mkfs_named<'a, H: Host>(
    alloc: Global,
    host: &mut H,
    volume: &'a str,
    numbers: VolumeNumbers,
) -> Ending<'a>
    ensures { MkfsRan volume.now numbers result (H.outside host.old) (H.outside host.new) }
{
    let g = match geometry_from(numbers) {
        Ok(g) => g,
        Err(bad) => return Ending::Mkfs(MkfsEnding::Refused(bad)),
    };
    // What is printed is made first, so that memory doesn't run out once the disk is written.
    let Ok(text) = mkfs_text(alloc, &g) else {
        return Ending::NoMemory;
    };
    let moment = host.moment();
    let mut disk = match host.make_disk(volume, 8 * u64::from(g.total())) {
        Ok(disk) => disk,
        Err(error) => return Ending::refused(error, volume),
    };
    let made = mkfs(alloc, &mut disk, &g, moment);
    host.give_disk(volume, disk);
    match made {
        Ok(()) => Ending::Mkfs(MkfsEnding::Made(text)),
        Err(error) => failed(error, volume),
    }
}
