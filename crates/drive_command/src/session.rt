//! A session that has its sinks: its lines are served, the volume is written back, and the history put.
ghost use Rattle.std.specs.Prelude.{◌≡◌, ◌≤◌, ◌<◌, ◌+◌, ◌*◌, [], List, ℕ, length, Some, IsSomeAnd};
ghost use Rattle.lufs_base.specs.Layout.{IsGeometry, blocks_of};
ghost use Rattle.volume_model.specs.Format.{Image, block};
ghost use Rattle.volume_model.specs.Sound.{Sound};
ghost use Rattle.history_model.specs.Lines.{lines_of};
ghost use Rattle.history_model.specs.HistoryText.{history_text_of};
ghost use Rattle.plain_session.specs.ServedLines.{turns_in};
ghost use Rattle.drive_command.specs.Volume.{last_epoch};
ghost use Rattle.drive_command.specs.Sessions.{history_of, lacked_memory, is_nomem, KeepsHistory, SumsUp, EndsAs};
ghost use Rattle.drive_command.specs.Drive.{Start, SessionEnds};

use crate::mount::Mounted;
use crate::{DriveEnding, SinkName};
use host_io::Sink;
use lufs_base::{DiskFault, Epoch};
use meta_store::{MetaRead, PlainStore};
use plain_image::write_image;
use plain_session::serve_lines;
use script_text::{history_text, session_text};
use sector_disk::Disk;
use std::alloc::Global;
use tree_types::{Entry, Line, Refusal, Reply};

/// What became of the history.
#[derive(Clone, Copy)]
pub enum Kept {
    /// It was put whole.
    Whole,
    /// Its put failed.
    Cut,
    /// There was no memory for its text.
    Lacking,
}

/// What a session is to do: these lines, in so many turns, at this moment in seconds since 1970.
#[derive(Drop)]
pub(crate) struct Task {
    pub(crate) lines: Vec<Line>,
    pub(crate) turns: usize,
    pub(crate) moment: u64,
}

fn is_nomem(reply: &Reply) -> bool
    ensures { result ≡ is_nomem reply.now }
{
    matches!(reply, Reply::Refused(Refusal::Nomem))
}

// Whether there was no memory to carry a call out.
fn lacked_memory(entries: &[Entry]) -> bool
    ensures { result ≡ lacked_memory entries.now }
{
    entries.iter().any(|entry| is_nomem(&entry.reply))
}

// Puts the history of a session, if there is memory for its text.
fn keep_history<K: Sink>(
    alloc: Global,
    sink: &mut K,
    epoch: Epoch,
    moment: u64,
    calls: u64,
    entries: &[Entry],
) -> Kept
    ensures { KeepsHistory (history_text_of epoch.0 moment 1 calls (history_of entries.now)) result (K.told sink.old) (K.told sink.new) }
{
    let Ok(text) = history_text(alloc, epoch, moment, 1, calls, entries, &[], &[]) else {
        return Kept::Lacking;
    };
    match sink.put(text.as_slice()) {
        Ok(()) => Kept::Whole,
        Err(_) => Kept::Cut,
    }
}

// The ending that sums a session of so many lines up.
fn summed_up<'a>(alloc: Global, starved: bool, lines: usize, entries: &[Entry]) -> DriveEnding<'a>
    ensures { SumsUp starved lines entries.now result }
{
    match session_text(alloc, lines as u64, entries, &[], &[]) {
        Ok(text) => DriveEnding::Driven { text, starved },
        Err(_) => DriveEnding::NoMemory,
    }
}

// How a session ends whose volume was written back so, of which a reply was lost or not, and the history kept so.
fn ending_of<'a>(
    alloc: Global,
    volume: &'a str,
    script: &'a str,
    written: Result<(), DiskFault>,
    deaf: bool,
    kept: Kept,
    lines: usize,
    entries: &[Entry],
) -> DriveEnding<'a>
    ensures { EndsAs volume.now script.now written deaf kept lines entries.now result }
{
    if written.is_err() {
        return DriveEnding::DiskFault(volume);
    }
    if deaf {
        return DriveEnding::ReplyFault(SinkName::Replies(script));
    }
    match kept {
        Kept::Cut => DriveEnding::ReplyFault(SinkName::History(volume)),
        Kept::Whole => summed_up(alloc, lacked_memory(entries), lines, entries),
        Kept::Lacking => summed_up(alloc, true, lines, entries),
    }
}

/// Serves the lines of a session, writes what they leave back to the disk, in the next epoch, and puts the history.
pub(crate) fn run_session<'a, D: Disk, K: Sink>(
    alloc: Global,
    disk: &mut D,
    history: &mut K,
    replies: &mut K,
    volume: &'a str,
    script: &'a str,
    mounted: Mounted,
    task: Task,
) -> DriveEnding<'a>
    requires geometry { IsGeometry mounted.geometry }
    requires store { (⟦<PlainStore as MetaRead>⟧.store mounted.store).geometry ≡ mounted.geometry }
    requires sound { IsSomeAnd (⟦<PlainStore as MetaRead>⟧.store mounted.store).content (λ content. Sound mounted.geometry (block content) []) }
    requires epoch { mounted.header.epoch < last_epoch }
    requires disk { 8 * blocks_of mounted.geometry ≤ (D.told disk.old).sectors }
    requires lines { (text : List ℕ) × (task.lines.items ≡ lines_of text) }
    ensures { (content : Image) (schedule text : List ℕ) → (⟦<PlainStore as MetaRead>⟧.store mounted.store).content ≡ Some content
        → task.turns ≡ turns_in schedule → task.lines.items ≡ lines_of text
        → SessionEnds volume.now script.now (record { geometry = mounted.geometry; header = mounted.header; content = content; moment = task.moment; schedule = schedule; script = text })
        result (D.told disk.old) (D.told disk.new) (K.told history.old) (K.told history.new) (K.told replies.old) (K.told replies.new) }
{
    let lines = task.lines.len();
    let calls = disk.calls();
    let served = serve_lines(
        alloc,
        mounted.store,
        task.lines,
        task.turns,
        task.moment,
        calls,
        replies,
    );
    let Ok(session) = served else {
        return DriveEnding::NoMemory;
    };
    let image = session.store.into_image();
    let written = write_image(disk, &mounted.geometry, &mounted.header, image.as_slice());
    let epoch = Epoch(mounted.header.epoch + 1);
    let entries = session.entries.as_slice();
    let kept = keep_history(alloc, history, epoch, task.moment, calls, entries);
    ending_of(
        alloc,
        volume,
        script,
        written,
        session.deaf,
        kept,
        lines,
        entries,
    )
}
