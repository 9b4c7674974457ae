//! How a command can end, and the exit status of each ending.
ghost use Rattle.std.specs.Prelude.{◌≡◌};
ghost use Rattle.lufs_top.specs.Ending.{status_of, IsRefusal};

use crate::check::CheckEnding;
use crate::mkfs::MkfsEnding;
use crate::scan::ScanEnding;
use drive_command::DriveEnding;
use host_io::HostError;

/// How a command ended, with the name of the volume where a line names it.
#[derive(Drop)]
pub(crate) enum Ending<'a> {
    /// The words aren't a command.
    Usage,
    /// There is nothing of that name.
    Missing(&'a str),
    /// The disk of that name failed, or the host failed to lend it.
    DiskFault(&'a str),
    /// Memory ran out.
    NoMemory,
    Scan { volume: &'a str, ended: ScanEnding },
    Check { volume: &'a str, ended: CheckEnding },
    Mkfs(MkfsEnding),
    Drive(DriveEnding<'a>),
}

impl<'a> Ending<'a> {
    /// How a command ended that asked the host for this name and got an error.
    pub(crate) fn refused(error: HostError, name: &'a str) -> Self
        ensures { IsRefusal error name.now result }
    {
        match error {
            HostError::Missing => Ending::Missing(name),
            HostError::Failed => Ending::DiskFault(name),
            HostError::Mem => Ending::NoMemory,
        }
    }

    /// The exit status of the program, if the text of the ending was put whole.
    pub(crate) fn status(&self) -> u8
        ensures { result ≡ status_of self.now }
    {
        match self {
            Ending::Usage => 1,
            Ending::Missing(_) => 2,
            Ending::DiskFault(_) => 4,
            Ending::NoMemory => 12,
            Ending::Scan { ended, .. } => ended.status(),
            Ending::Check { ended, .. } => ended.status(),
            Ending::Mkfs(ended) => ended.status(),
            Ending::Drive(ended) => ended.status(),
        }
    }
}
