//! The top call: takes standard output, runs the command of the words, and says how it ended.
ghost use Rattle.std.specs.Prelude.{◌≡◌, ◌≤◌, ◌∷◌, [], Some, None, Contains};
ghost use Rattle.host_io.specs.declared.host.AskKind.TheVariants.{TakeSink};
ghost use Rattle.lufs_top.specs.Run.{Ran, Runs, AsksInOrder, HasCauses, KeepsOthers, IsBack, TellsVerdict, asked_by, named_by, status_without_output};
ghost use Rattle.lufs_top.specs.Session.{TellsSession};
ghost use Rattle.lufs_top.specs.Words.{command_meant, command_of, standard_output};

use crate::check::check_named;
use crate::ending::Ending;
use crate::mkfs::mkfs_named;
use crate::report::{REPLY_FAULT, report};
use crate::scan::scan_named;
use crate::words::{Command, command_of};
use drive_command::drive_named;
use host_io::{Host, HostError};
use std::alloc::Global;

/// The name of standard output.
const STANDARD_OUTPUT: &str = "-";

/// The status where memory ran out.
pub const NO_MEMORY: u8 = 12;

// Does what a command asks for.
fn run_command<'a, H: Host>(alloc: Global, host: &mut H, command: Command<'a>) -> Ending<'a>
    ensures { Ran (Some (command_meant command.entry)) result (H.outside host.old) (H.outside host.new) }
{
    match command {
        Command::Scan { volume } => scan_named(alloc, host, volume),
        Command::Check { volume } => check_named(alloc, host, volume),
        Command::Mkfs { volume, numbers } => mkfs_named(alloc, host, volume, numbers),
        Command::Drive {
            volume,
            schedule,
            script,
        } => Ending::Drive(drive_named(alloc, host, volume, schedule, script)),
    }
}

// Does what the words ask for, if they are a command.
fn run_words<'a, H: Host>(alloc: Global, host: &mut H, words: &'a [String]) -> Ending<'a>
    ensures { Ran (command_of words.now) result (H.outside host.old) (H.outside host.new) }
{
    match command_of(words) {
        None => Ending::Usage,
        Some(command) => run_command(alloc, host, command),
    }
}

// The status of a run to which the host lent no standard output.
fn status_without_output(error: HostError) -> u8
    ensures { result ≡ status_without_output error }
{
    match error {
        HostError::Mem => NO_MEMORY,
        HostError::Missing | HostError::Failed => REPLY_FAULT,
    }
}

/// Runs a command: `scan VOL` prints the committed transactions in the log of a volume, `check VOL` tells
/// whether the volume is sound once its log is replayed, `mkfs VOL G BPG IPG L` makes an empty volume, and `drive VOL
/// SCHEDULE SCRIPT` serves a script on a volume. It answers the exit status, prints one line where that isn't 0, gives
/// back the disks and sinks that it took, and always returns. Where memory runs out a run may end anywhere, with status
/// 12 (`docs/FORMAT.md`, "Statuses").
pub fn run<H: Host>(alloc: Global, host: &mut H, words: &[String]) -> u8
    // How it ended, what it did and what it printed, by the command of the words.
    ensures ran { Runs (command_of words.now) result (H.outside host.old) (H.outside host.new) }
    // What follows, whatever the command: the status of words that are none, the asks in their order, the
    // cause of each failure, and that all else is as it was.
    ensures usage { result ≡ 1 → command_of words.now ≡ None }
    ensures no_command { command_of words.now ≡ None → Contains (1 ∷ 5 ∷ 12 ∷ []) result }
    ensures statuses { result ≤ 12 }
    ensures asks { AsksInOrder ((TakeSink, standard_output) ∷ asked_by (command_of words.now)) (H.outside host.old) (H.outside host.new) }
    ensures causes { HasCauses (named_by (command_of words.now)) result (H.outside host.old) (H.outside host.new) }
    ensures others { KeepsOthers (named_by (command_of words.now)) (H.outside host.old) (H.outside host.new) }
    ensures back { IsBack (H.outside host.old) (H.outside host.new) }
    // What the status of a check says of the volume.
    ensures verdict { TellsVerdict (command_of words.now) result (H.outside host.old) }
    // What the status of a session says of the volume, the history and the replies.
    ensures session { TellsSession (command_of words.now) result (H.outside host.old) (H.outside host.new) }
{
    let mut out = match host.take_sink(STANDARD_OUTPUT) {
        Ok(out) => out,
        Err(error) => return status_without_output(error),
    };
    let ending = run_words(alloc, host, words);
    let status = report(&mut out, &ending);
    host.give_sink(STANDARD_OUTPUT, out);
    status
}
