//! A session over a volume in memory.
ghost use Rattle.std.specs.Prelude.{◌≡◌, ◌<◌, ◌≤◌, ℕ, List, [], ◌∷◌, ◌++◌, map, IfOk, OnErr, IfSome, vec_len, vec_capacity};
ghost use Rattle.std.specs.Bool.{MatchBool};
ghost use Rattle.volume_model.specs.Format.{block};
ghost use Rattle.volume_model.specs.Sound.{Tree, StandsFor};
ghost use Rattle.history_model.specs.Lines.{lines_of};
ghost use Rattle.plain_session.specs.ServedLines.{served_line};
ghost use Rattle.plain_session.specs.Sessions.{HasServed, HasToldAll, HasLostReply};

use crate::entered::enter;
use crate::replies::put_reply;
use crate::turns::{served_line, turns_of};
use host_io::Sink;
use lufs_base::Mem;
use meta_store::{MetaRead, PlainStore};
use std::alloc::Global;
use tree_types::{Entry, Line};

/// A session at its end.
#[derive(Debug, Drop)]
pub struct Session {
    pub store: PlainStore,
    /// Of the lines that were served, in order.
    pub entries: Vec<Entry>,
    /// Whether a reply couldn't be given. The session ended with its line.
    pub deaf: bool,
}

// Adds an entry, for which there is room.
fn keep(entries: &mut Vec<Entry>, entry: Entry)
    requires { vec_len entries.old < vec_capacity entries.old }
    ensures entries { entries.new.items ≡ entries.old.items ++ entry ∷ [] }
    ensures room { vec_capacity entries.old ≤ vec_capacity entries.new }
{
    let _ = entries.push(entry);
}

/// Serves the lines of a script, one after the other, as far as so many turns go (`docs/SCRIPTS.md`). A call that changes
/// names takes four turns, and any other line two; it is carried out in the last turn but one, and answered in the last.
/// `calls` is how many calls of the disk were made so far. Memory runs out only before the first line.
pub fn serve_lines<K: Sink>(
    alloc: Global,
    store: PlainStore,
    lines: Vec<Line>,
    turns: usize,
    moment: u64,
    calls: u64,
    sink: &mut K,
) -> Result<Session, Mem>
    requires stands { IfSome (⟦<PlainStore as MetaRead>⟧.store store).content (λ image. (tree : Tree) × StandsFor (⟦<PlainStore as MetaRead>⟧.store store).geometry (block image) tree []) }
    requires lines { (script : List ℕ) × (lines.items ≡ lines_of script) }
    ensures geometry { IfOk result (λ session. (⟦<PlainStore as MetaRead>⟧.store session.store).geometry ≡ (⟦<PlainStore as MetaRead>⟧.store store).geometry) }
    ensures deaf { IfOk result (λ session. MatchBool session.deaf
        (HasLostReply (map served_line lines.items) turns (K.told sink.old) (K.told sink.new) session.entries.items)
        (HasToldAll (map served_line lines.items) turns (K.told sink.old) (K.told sink.new) session.entries.items)) }
    ensures served { (opening : Tree) → IfSome (⟦<PlainStore as MetaRead>⟧.store store).content (λ old. StandsFor (⟦<PlainStore as MetaRead>⟧.store store).geometry (block old) opening []
        → IfOk result (λ session. IfSome (⟦<PlainStore as MetaRead>⟧.store session.store).content (λ image.
        HasServed (⟦<PlainStore as MetaRead>⟧.store store).geometry moment opening lines.items turns calls (K.told sink.old) (K.told sink.new) session.entries.items image))) }
    ensures none { OnErr result (K.told sink.new ≡ K.told sink.old) }
{
    let mut entries = Vec::with_capacity(alloc, lines.len())?;
    let mut store = store;
    let mut left = turns;
    'lines: for line in lines {
        let line = served_line(line);
        let turns = turns_of(&line);
        if left < turns - 1 {
            return Ok(Session {
                store,
                entries,
                deaf: false,
            });
        }
        let entered = enter(alloc, store, line, moment, calls);
        store = entered.store;
        let mut entry = entered.entry;
        if left < turns {
            keep(&mut entries, entry);
            return Ok(Session {
                store,
                entries,
                deaf: false,
            });
        }
        if put_reply(sink, entry.line, &entry.reply).is_err() {
            keep(&mut entries, entry);
            return Ok(Session {
                store,
                entries,
                deaf: true,
            });
        }
        entry.told = Some(calls);
        keep(&mut entries, entry);
        left -= turns;
    }
    Ok(Session {
        store,
        entries,
        deaf: false,
    })
}
