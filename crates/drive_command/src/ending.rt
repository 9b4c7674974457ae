//! How a session of `drive` can end, and the exit status of each ending.
ghost use Rattle.std.specs.Prelude.{◌≡◌};
ghost use Rattle.drive_command.specs.Ending.{drive_status};

use lufs_base::Bytes;
use volume_model::Kind;

/// A sink that a session writes.
#[derive(Clone, Copy)]
pub enum SinkName<'a> {
    /// That of the history, which is named after the volume.
    History(&'a str),
    /// That of the replies, which is named after the script.
    Replies(&'a str),
}

/// How a session ended, with the name that its line says (`docs/FORMAT.md`, "Statuses").
#[derive(Drop)]
pub enum DriveEnding<'a> {
    /// There is no source, or no disk, of this name.
    Missing(&'a str),
    /// The source of this name failed, or the host failed to lend it.
    ReadFault(&'a str),
    /// The source of this name has more bytes, or more lines, than this.
    OverLimit { name: &'a str, limit: u32 },
    /// The disk of this name failed, or the host failed to lend it.
    DiskFault(&'a str),
    /// The disk of this name holds no volume.
    NotVolume(&'a str),
    /// The volume has no log header.
    BadHeader,
    /// The volume of this name is in the last epoch.
    EpochSpent(&'a str),
    /// The first run of the log that breaks its rules.
    BadLog { tid: u32, place: u32 },
    /// The first rule that the volume breaks.
    Unsound(Kind, u32),
    /// This sink failed, or the host failed to lend it.
    ReplyFault(SinkName<'a>),
    /// Memory ran out.
    NoMemory,
    /// The session was written back, and this text sums it up. `starved` says whether a call or the history lacked memory.
    Driven { text: Bytes, starved: bool },
}

impl DriveEnding<'_> {
    /// The exit status of the program, if the text of the ending was put whole.
    pub fn status(&self) -> u8
        ensures { result ≡ drive_status self.now }
    {
        match self {
            DriveEnding::Missing(_) => 2,
            DriveEnding::ReadFault(_) => 3,
            DriveEnding::DiskFault(_) => 4,
            DriveEnding::ReplyFault(_) => 5,
            DriveEnding::NotVolume(_) => 6,
            DriveEnding::Unsound(..) => 7,
            DriveEnding::EpochSpent(_) => 8,
            DriveEnding::OverLimit { .. } => 9,
            DriveEnding::BadHeader | DriveEnding::BadLog { .. } => 11,
            DriveEnding::NoMemory => 12,
            DriveEnding::Driven { starved, .. } => { if *starved { 12 } else { 0 } }
        }
    }
}
