//! A line entered: carried out, or refused.
ghost use Rattle.std.specs.Prelude.{◌≡◌, false, [], None, IfSome, IsTrue};
ghost use Rattle.volume_model.specs.Format.{block};
ghost use Rattle.volume_model.specs.Sound.{Tree, StandsFor};
ghost use Rattle.history_model.specs.Histories.{IsEntryOf, IsRightReply, after_call};
ghost use Rattle.script_text.specs.ShortReplies.{is_short};
ghost use Rattle.plain_session.specs.ServedLines.{MayServe};
ghost use Rattle.plain_session.specs.Sessions.{IsOfMoment, IsAnswered};

use meta_store::{MetaRead, PlainStore};
use plain_calls::serve;
use std::alloc::Global;
use tree_types::{Entry, Line, Refusal, Reply};

/// What a line that was entered leaves.
#[derive(Debug, Drop)]
pub(crate) struct Entered {
    pub(crate) store: PlainStore,
    /// The entry, whose reply isn't given yet.
    pub(crate) entry: Entry,
}

/// Enters a line at this moment, after so many calls of the disk.
pub(crate) fn enter(
    alloc: Global,
    store: PlainStore,
    line: Line,
    moment: u64,
    calls: u64,
) -> Entered
    requires may { MayServe line }
    requires stands { IfSome (⟦<PlainStore as MetaRead>⟧.store store).content (λ image. (tree : Tree) × StandsFor (⟦<PlainStore as MetaRead>⟧.store store).geometry (block image) tree []) }
    ensures geometry { (⟦<PlainStore as MetaRead>⟧.store result.store).geometry ≡ (⟦<PlainStore as MetaRead>⟧.store store).geometry }
    ensures of_line { IsEntryOf 0 line result.entry }
    ensures cred { result.entry.cred ≡ line.cred }
    ensures sync { result.entry.sync ≡ false }
    ensures of_moment { IsOfMoment calls result.entry }
    ensures untold { result.entry.told ≡ None }
    ensures short { IsTrue (is_short result.entry.reply) }
    ensures right { (tree : Tree) → IfSome (⟦<PlainStore as MetaRead>⟧.store store).content (λ old. StandsFor (⟦<PlainStore as MetaRead>⟧.store store).geometry (block old) tree []
        → IsRightReply (⟦<PlainStore as MetaRead>⟧.store store).geometry tree result.entry result.entry.call) }
    ensures answered { (tree : Tree) → IfSome (⟦<PlainStore as MetaRead>⟧.store store).content (λ old. StandsFor (⟦<PlainStore as MetaRead>⟧.store store).geometry (block old) tree []
        → IsAnswered (⟦<PlainStore as MetaRead>⟧.store store).geometry tree result.entry result.entry.call) }
    ensures stands { (tree : Tree) → IfSome (⟦<PlainStore as MetaRead>⟧.store store).content (λ old. StandsFor (⟦<PlainStore as MetaRead>⟧.store store).geometry (block old) tree []
        → IfSome (⟦<PlainStore as MetaRead>⟧.store result.store).content (λ image. StandsFor (⟦<PlainStore as MetaRead>⟧.store store).geometry (block image) (after_call (⟦<PlainStore as MetaRead>⟧.store store).geometry moment tree result.entry result.entry.call) [])) }
{
    let Line {
        number,
        cred,
        call,
        ..
    } = line;
    let Some(call) = call else {
        let entry = Entry {
            stream: 0,
            line: number,
            ino: None,
            start: calls,
            at: calls,
            told: None,
            sync: false,
            reply: Reply::Refused(Refusal::Syntax),
            call: None,
            cred,
        };
        return Entered { store, entry };
    };
    let served = serve(alloc, store, &cred, &call, moment);
    let entry = Entry {
        stream: 0,
        line: number,
        ino: served.ino,
        start: calls,
        at: calls,
        told: None,
        sync: false,
        reply: served.reply,
        call: Some(call),
        cred,
    };
    Entered {
        store: served.store,
        entry,
    }
}
