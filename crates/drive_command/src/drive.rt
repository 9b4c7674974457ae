//! The command `drive`, from its names to its ending.
ghost use Rattle.std.specs.Prelude.{◌≡◌, ◌≢◌, ◌≤◌, ◌<◌, ◌*◌, [], List, ℕ, Some, IsSomeAnd, IfOk, string_bytes};
ghost use Rattle.lufs_base.specs.Layout.{IsGeometry, blocks_of};
ghost use Rattle.volume_model.specs.Format.{Image, block};
ghost use Rattle.volume_model.specs.Sound.{Sound};
ghost use Rattle.history_model.specs.Lines.{lines_of};
ghost use Rattle.plain_session.specs.ServedLines.{turns_in};
ghost use Rattle.drive_command.specs.Ending.{history_name, out_name, sink_name};
ghost use Rattle.drive_command.specs.Volume.{last_epoch};
ghost use Rattle.drive_command.specs.Drive.{Start, IsSinkRefusal, SinksRan, DriveRan};

use crate::mount::{Mounted, disk_refused, mount, refused};
use crate::session::{Task, run_session};
use crate::sources::{MOST_SCHEDULE, read_script, read_source};
use crate::{DriveEnding, SinkName};
use host_io::{Host, HostError};
use lufs_base::Mem;
use meta_store::{MetaRead, PlainStore};
use plain_session::turns_in;
use std::alloc::Global;

// The name of the sink that takes the history.
fn history_name(alloc: Global, volume: &str) -> Result<String, Mem>
    ensures { IfOk result (λ name. string_bytes name ≡ history_name volume.now) }
{
    Ok(format!(in alloc; "{volume}.history")?)
}

// The name of the sink that takes the replies.
fn out_name(alloc: Global, script: &str) -> Result<String, Mem>
    ensures { IfOk result (λ name. string_bytes name ≡ out_name script.now) }
{
    Ok(format!(in alloc; "{script}.out")?)
}

// The ending where the host didn't lend that sink.
fn sink_refused(error: HostError, name: SinkName<'_>) -> DriveEnding<'_>
    ensures { IsSinkRefusal error (sink_name name.entry) result }
{
    match error {
        HostError::Missing | HostError::Failed => DriveEnding::ReplyFault(name),
        HostError::Mem => DriveEnding::NoMemory,
    }
}

// Takes the sinks of a session, runs it, and gives them back.
fn with_sinks<'a, H: Host>(
    alloc: Global,
    host: &mut H,
    disk: &mut H::D,
    volume: &'a str,
    script: &'a str,
    mounted: Mounted,
    task: Task,
) -> DriveEnding<'a>
    requires names { history_name volume.now ≢ out_name script.now }
    requires geometry { IsGeometry mounted.geometry }
    requires store { (⟦<PlainStore as MetaRead>⟧.store mounted.store).geometry ≡ mounted.geometry }
    requires sound { IsSomeAnd (⟦<PlainStore as MetaRead>⟧.store mounted.store).content (λ content. Sound mounted.geometry (block content) []) }
    requires epoch { mounted.header.epoch < last_epoch }
    requires disk { 8 * blocks_of mounted.geometry ≤ (H.D.told disk.old).sectors }
    requires lines { (text : List ℕ) × (task.lines.items ≡ lines_of text) }
    ensures { (content : Image) (schedule text : List ℕ) → (⟦<PlainStore as MetaRead>⟧.store mounted.store).content ≡ Some content
        → task.turns ≡ turns_in schedule → task.lines.items ≡ lines_of text
        → SinksRan volume.now script.now (record { geometry = mounted.geometry; header = mounted.header; content = content; moment = task.moment; schedule = schedule; script = text })
        result (H.D.told disk.old) (H.D.told disk.new) (H.outside host.old) (H.outside host.new) }
{
    let Ok(history_name) = history_name(alloc, volume) else {
        return DriveEnding::NoMemory;
    };
    let Ok(out_name) = out_name(alloc, script) else {
        return DriveEnding::NoMemory;
    };
    let mut history = match host.take_sink(history_name.as_str()) {
        Ok(history) => history,
        Err(error) => return sink_refused(error, SinkName::History(volume)),
    };
    let mut replies = match host.take_sink(out_name.as_str()) {
        Ok(replies) => replies,
        Err(error) => {
            host.give_sink(history_name.as_str(), history);
            return sink_refused(error, SinkName::Replies(script));
        }
    };
    let ending = run_session(
        alloc,
        disk,
        &mut history,
        &mut replies,
        volume,
        script,
        mounted,
        task,
    );
    host.give_sink(out_name.as_str(), replies);
    host.give_sink(history_name.as_str(), history);
    ending
}

/// Reads the schedule and the script, then the volume; serves the script's lines in the turns of the schedule; writes the
/// volume back, and puts the history. It gives the disk and the sinks back that it took (`docs/SCRIPTS.md`).
pub fn drive_named<'a, H: Host>(
    alloc: Global,
    host: &mut H,
    volume: &'a str,
    schedule: &'a str,
    script: &'a str,
) -> DriveEnding<'a>
    requires { history_name volume.now ≢ out_name script.now }
    ensures { DriveRan volume.now schedule.now script.now result (H.outside host.old) (H.outside host.new) }
{
    let turns = match read_source(alloc, host, schedule, MOST_SCHEDULE) {
        Ok(schedule) => turns_in(schedule.as_slice()),
        Err(ending) => return ending,
    };
    let lines = match read_script(alloc, host, script) {
        Ok(lines) => lines,
        Err(ending) => return ending,
    };
    let disk = match host.take_disk(volume) {
        Ok(disk) => disk,
        Err(error) => return disk_refused(error, volume),
    };
    let (mut disk, mounted) = mount(alloc, disk);
    match mounted {
        Ok(mounted) => {
            let moment = host.moment();
            let task = Task {
                lines,
                turns,
                moment,
            };
            let ending = with_sinks(alloc, host, &mut disk, volume, script, mounted, task);
            host.give_disk(volume, disk);
            ending
        }
        Err(why) => {
            host.give_disk(volume, disk);
            refused(why, volume)
        }
    }
}
