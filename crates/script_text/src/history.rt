//! The text of a history, and the line that sums a session up.
ghost use Rattle.std.specs.Prelude.{◌≡◌, ◌∷◌, ◌++◌, [], codes, length, IfOk};
ghost use Rattle.std.specs.List.{flat_map};
ghost use Rattle.std.specs.Option.{option_map_or};
ghost use Rattle.history_model.specs.HistoryText.{wait_text, cause_text, entry_line, commit_line, roll_line, is_told, told_count, history_text_of, session_text_of};
ghost use Rattle.script_text.specs.HistoryParts.{moments_text, answer_text, session_line, summary_line};
ghost use Rattle.script_text.specs.Output.{Puts};

use crate::output::{LongText, Output};
use crate::replies::{put_reply, put_spaced};
use itoa::Integer;
use lufs_base::{Bytes, Epoch, Mem};
use std::alloc::Global;
use tree_types::{Cause, Commit, Entry, RollNote, Wait};

// Puts a space and a number, or a dash.
fn put_optional<O: Output, I: Integer>(out: &mut O, number: Option<I>)
    ensures { Puts (option_map_or (λ n. 32 ∷ I.text n) number (codes " -")) (O.told out.old) (O.told out.new) }
{
    match number {
        Some(number) => put_spaced(out, number),
        None => out.put(b" -"),
    }
}

fn put_wait<O: Output>(out: &mut O, wait: &Wait)
    ensures { Puts (wait_text wait.now) (O.told out.old) (O.told out.new) }
{
    match wait {
        Wait::Full {
            used,
            sealed,
            pending,
            need,
            ring,
        } => {
            put_spaced(out, *used);
            put_spaced(out, *sealed);
            put_spaced(out, *pending);
            put_spaced(out, *need);
            put_spaced(out, *ring);
        },
        Wait::Closing { members } => put_spaced(out, *members),
        Wait::Unreleased {
            released,
            free,
            wanted,
        } => {
            put_spaced(out, *released);
            put_spaced(out, *free);
            put_spaced(out, *wanted);
        },
        Wait::InHand {
            inode,
            wanted,
            free,
            held,
        } => {
            put_spaced(out, u8::from(*inode));
            put_spaced(out, *wanted);
            put_spaced(out, *free);
            put_spaced(out, *held);
        },
        Wait::Changed { taken_at, now } => {
            put_spaced(out, *taken_at);
            put_spaced(out, *now);
        },
        Wait::Uncommitted { entry, published } => {
            put_spaced(out, *entry);
            put_spaced(out, *published);
        },
    }
}

fn put_cause<O: Output>(out: &mut O, cause: &Cause)
    ensures { Puts (cause_text cause.now) (O.told out.old) (O.told out.new) }
{
    match cause {
        Cause::SyncWaits(entry) => {
            out.put(b"sync");
            put_spaced(out, *entry);
        },
        Cause::Full(wait) => {
            out.put(b"full");
            put_wait(out, wait);
        },
        Cause::Unreleased(wait) => {
            out.put(b"unreleased");
            put_wait(out, wait);
        },
        Cause::Half(used, ring) => {
            out.put(b"half");
            put_spaced(out, *used);
            put_spaced(out, *ring);
        },
        Cause::Asked(place) => {
            out.put(b"asked");
            put_spaced(out, *place);
        },
        Cause::Ending => out.put(b"ending"),
    }
}

// Puts when an entry began, when it ended and when its reply was given, counted from `before`.
fn put_moments<O: Output>(out: &mut O, before: u64, entry: &Entry)
    ensures { Puts (moments_text before entry.now) (O.told out.old) (O.told out.new) }
{
    put_spaced(out, entry.start.saturating_sub(before));
    put_spaced(out, entry.at.saturating_sub(before));
    put_optional(out, entry.told.map(|told| told.saturating_sub(before)));
}

// Puts the letter that says whether a reply waited, and the reply.
fn put_answer<O: Output>(out: &mut O, entry: &Entry)
    ensures { Puts (answer_text entry.now) (O.told out.old) (O.told out.new) }
{
    if entry.sync {
        out.put(b" s ");
    } else {
        out.put(b" a ");
    }
    put_reply(out, &entry.reply);
    out.put(b"\n");
}

fn put_entry<O: Output>(out: &mut O, before: u64, entry: &Entry)
    ensures { Puts (entry_line before entry.now) (O.told out.old) (O.told out.new) }
{
    out.put(b"entry");
    put_spaced(out, entry.stream);
    put_spaced(out, entry.line);
    put_optional(out, entry.ino);
    put_moments(out, before, entry);
    put_answer(out, entry);
}

fn put_entries<O: Output>(out: &mut O, before: u64, entries: &[Entry])
    ensures { Puts (flat_map (entry_line before) entries.now) (O.told out.old) (O.told out.new) }
{
    for entry in entries {
        put_entry(out, before, entry);
    }
}

fn put_commit<O: Output>(out: &mut O, commit: &Commit)
    ensures { Puts (commit_line commit.now) (O.told out.old) (O.told out.new) }
{
    out.put(b"commit");
    put_spaced(out, commit.boundary);
    out.put(b" ");
    put_cause(out, &commit.cause);
    out.put(b"\n");
}

fn put_commits<O: Output>(out: &mut O, commits: &[Commit])
    ensures { Puts (flat_map commit_line commits.now) (O.told out.old) (O.told out.new) }
{
    for commit in commits {
        put_commit(out, commit);
    }
}

fn put_roll<O: Output>(out: &mut O, roll: &RollNote)
    ensures { Puts (roll_line roll.now) (O.told out.old) (O.told out.new) }
{
    out.put(b"roll");
    put_spaced(out, roll.through);
    out.put(b" ");
    put_cause(out, &roll.cause);
    out.put(b"\n");
}

fn put_rolls<O: Output>(out: &mut O, rolls: &[RollNote])
    ensures { Puts (flat_map roll_line rolls.now) (O.told out.old) (O.told out.new) }
{
    for roll in rolls {
        put_roll(out, roll);
    }
}

fn put_session<O: Output>(out: &mut O, epoch: Epoch, moment: u64, streams: u8)
    ensures { Puts (session_line epoch.0 moment streams) (O.told out.old) (O.told out.new) }
{
    out.put(b"session");
    put_spaced(out, epoch.0);
    put_spaced(out, moment);
    put_spaced(out, streams);
    out.put(b"\n");
}

/// The text of the history of a session (`docs/SCRIPTS.md`, "The history") with so many streams, in this epoch and at
/// this moment in seconds since 1970. `before` is how many calls the disk had listed before the command. An `Err` is lack
/// of memory.
pub fn history_text(
    alloc: Global,
    epoch: Epoch,
    moment: u64,
    streams: u8,
    before: u64,
    entries: &[Entry],
    commits: &[Commit],
    rolls: &[RollNote],
) -> Result<Bytes, Mem>
    ensures { IfOk result (λ text. text ≡ history_text_of epoch.0 moment streams before (record { entries = entries.now; commits = commits.now; rolls = rolls.now })) }
{
    let mut out = LongText::new(alloc);
    put_session(&mut out, epoch, moment, streams);
    put_entries(&mut out, before, entries);
    put_commits(&mut out, commits);
    put_rolls(&mut out, rolls);
    out.into_bytes()
}

fn is_told(entry: &Entry) -> bool
    ensures { result ≡ is_told entry.now }
{
    entry.told.is_some()
}

fn told_count(entries: &[Entry]) -> usize
    ensures { result ≡ told_count entries.now }
{
    entries.iter().filter(|entry| is_told(entry)).count()
}

fn put_summary<O: Output>(out: &mut O, told: u64, left: u64, commits: u64, rolls: u64)
    ensures { Puts (summary_line told left commits rolls) (O.told out.old) (O.told out.new) }
{
    out.put(b"answered");
    put_spaced(out, told);
    out.put(b" left");
    put_spaced(out, left);
    out.put(b" commits");
    put_spaced(out, commits);
    out.put(b" rolls");
    put_spaced(out, rolls);
    out.put(b"\n");
}

/// The line that sums a session up (`docs/SCRIPTS.md`, "Summaries"), whose scripts had so many lines. An `Err` is lack of
/// memory.
pub fn session_text(
    alloc: Global,
    lines: u64,
    entries: &[Entry],
    commits: &[Commit],
    rolls: &[RollNote],
) -> Result<Bytes, Mem>
    ensures { IfOk result (λ text. text ≡ session_text_of lines (record { entries = entries.now; commits = commits.now; rolls = rolls.now })) }
{
    let mut out = LongText::new(alloc);
    let told = told_count(entries) as u64;
    let left = lines.saturating_sub(told);
    put_summary(
        &mut out,
        told,
        left,
        commits.len() as u64,
        rolls.len() as u64,
    );
    out.into_bytes()
}
