//! The sources of a session: its schedule and its script.
ghost use Rattle.std.specs.Prelude.{◌≡◌, List, ℕ, MatchResult};
ghost use Rattle.history_model.specs.Lines.{lines_of};
ghost use Rattle.drive_command.specs.Sources.{IsSourceRefusal, IsUnread, IsUnparted, IsSourceRead, SourceStops, IsScriptRead, ScriptStops};

use crate::DriveEnding;
use host_io::{Host, HostError, ReadError, read_whole};
use lufs_base::Bytes;
use script_text::{LinesError, lines_of};
use std::alloc::Global;
use tree_types::Line;

/// The most bytes of a schedule.
pub(crate) const MOST_SCHEDULE: u32 = 1_048_576;

/// The most bytes of a script.
const MOST_SCRIPT: u32 = 67_108_864;

/// The most lines of a script.
const MOST_LINES: u32 = 100_000;

// The ending where the host gave no source of that name.
fn source_refused(error: HostError, name: &str) -> DriveEnding<'_>
    ensures { IsSourceRefusal error name.now result }
{
    match error {
        HostError::Missing => DriveEnding::Missing(name),
        HostError::Failed => DriveEnding::ReadFault(name),
        HostError::Mem => DriveEnding::NoMemory,
    }
}

// The ending where the source of that name wasn't read whole.
fn unread(error: ReadError, name: &str, limit: u32) -> DriveEnding<'_>
    ensures { IsUnread error name.now limit result }
{
    match error {
        ReadError::Fault => DriveEnding::ReadFault(name),
        ReadError::TooLong => DriveEnding::OverLimit { name, limit },
        ReadError::Mem => DriveEnding::NoMemory,
    }
}

// The ending where the lines of the script of that name weren't read.
fn unparted(error: LinesError, name: &str) -> DriveEnding<'_>
    ensures { IsUnparted error name.now result }
{
    match error {
        LinesError::TooMany => DriveEnding::OverLimit {
            name,
            limit: MOST_LINES,
        },
        LinesError::Mem => DriveEnding::NoMemory,
    }
}

/// Takes the source of that name, for good, and reads it whole, if it has at most `limit` bytes.
pub(crate) fn read_source<'a, H: Host>(
    alloc: Global,
    host: &mut H,
    name: &'a str,
    limit: u32,
) -> Result<Bytes, DriveEnding<'a>>
    ensures { MatchResult result (λ bytes. IsSourceRead name.now limit bytes (H.outside host.old) (H.outside host.new))
        (λ ending. SourceStops name.now limit ending (H.outside host.old) (H.outside host.new)) }
{
    let mut source = match host.take_source(name) {
        Ok(source) => source,
        Err(error) => return Err(source_refused(error, name)),
    };
    match read_whole(alloc, &mut source, limit as usize) {
        Ok(bytes) => Ok(bytes),
        Err(error) => Err(unread(error, name, limit)),
    }
}

/// Takes the script of that name, for good, and reads its lines. Its bytes are counted before its lines.
pub(crate) fn read_script<'a, H: Host>(
    alloc: Global,
    host: &mut H,
    name: &'a str,
) -> Result<Vec<Line>, DriveEnding<'a>>
    ensures { MatchResult result (λ lines. (script : List ℕ) × IsScriptRead name.now script (H.outside host.old) (H.outside host.new) × (lines.items ≡ lines_of script))
        (λ ending. ScriptStops name.now ending (H.outside host.old) (H.outside host.new)) }
{
    let script = match read_source(alloc, host, name, MOST_SCRIPT) {
        Ok(script) => script,
        Err(ending) => return Err(ending),
    };
    match lines_of(alloc, script.as_slice(), MOST_LINES) {
        Ok(read) => Ok(read.lines),
        Err(error) => Err(unparted(error, name)),
    }
}
