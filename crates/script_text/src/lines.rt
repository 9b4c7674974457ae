//! A line of a script, read.
ghost use Rattle.std.specs.Prelude.{◌≡◌, ◌∷◌, IfOk};
ghost use Rattle.history_model.specs.Lines.{call_in, changing_calls, other_calls, or_other, is_fsync, marked_request, plain_request, request_in, request_of, line_of};
ghost use Rattle.script_text.specs.Words.{texts};
ghost use Rattle.script_text.specs.Requests.{asked_by};

use crate::calls::{changing_call, other_call};
use crate::words::{begins_with, is_skipped, is_text, words_of};
use lufs_base::Mem;
use std::alloc::Global;
use tree_types::{Call, Cred, Line};

fn is_fsync(call: &Call) -> bool
    ensures { result ≡ is_fsync call.now }
{
    matches!(call, Call::Fsync { .. })
}

fn any_call(alloc: Global, word: &[u8], arguments: &[&[u8]]) -> Result<Option<Call>, Mem>
    ensures { IfOk result (λ made. made ≡ or_other (call_in changing_calls word.now (texts arguments.now)) (call_in other_calls word.now (texts arguments.now))) }
{
    match changing_call(alloc, word, arguments)? {
        Some(call) => Ok(Some(call)),
        None => other_call(alloc, word, arguments),
    }
}

// What the words after a `!` ask for.
#[tactic(auto, using(crate::proofs::RequestLemmas::marked_is))]
fn marked_request(
    alloc: Global,
    word: &[u8],
    arguments: &[&[u8]],
) -> Result<(bool, Option<Call>), Mem>
    ensures { IfOk result (λ asked. asked ≡ asked_by (marked_request word.now (texts arguments.now))) }
{
    let call = changing_call(alloc, word, arguments)?;
    Ok((call.is_some(), call))
}

// What the words without a `!` ask for.
#[tactic(auto, using(crate::proofs::RequestLemmas::plain_is))]
fn plain_request(
    alloc: Global,
    word: &[u8],
    arguments: &[&[u8]],
) -> Result<(bool, Option<Call>), Mem>
    ensures { IfOk result (λ asked. asked ≡ asked_by (plain_request word.now (texts arguments.now))) }
{
    match any_call(alloc, word, arguments)? {
        Some(call) => Ok((is_fsync(&call), Some(call))),
        None => Ok((false, None)),
    }
}

// What a first word asks for with those after it.
fn request_with(
    alloc: Global,
    word: &[u8],
    arguments: &[&[u8]],
) -> Result<(bool, Option<Call>), Mem>
    ensures { IfOk result (λ asked. asked ≡ asked_by (request_in (word.now ∷ texts arguments.now))) }
{
    if begins_with(b'!', word) {
        marked_request(alloc, &word[1..], arguments)
    } else {
        plain_request(alloc, word, arguments)
    }
}

fn request_in(alloc: Global, words: &[&[u8]]) -> Result<(bool, Option<Call>), Mem>
    ensures { IfOk result (λ asked. asked ≡ asked_by (request_in (texts words.now))) }
{
    match words {
        [] => Ok((false, None)),
        [word, arguments @ ..] => request_with(alloc, word, arguments),
    }
}

// Whether the reply of a line waits, and its call, if it is one.
fn request_of(alloc: Global, text: &[u8]) -> Result<(bool, Option<Call>), Mem>
    ensures { IfOk result (λ asked. asked ≡ asked_by (request_of text.now)) }
{
    if is_text(text) {
        let words = words_of(alloc, text)?;
        request_in(alloc, &words)
    } else {
        Ok((false, None))
    }
}

/// The line of a script that this text is (`docs/SCRIPTS.md`, "Lines"): its number, from 1, who makes the call, and the
/// call, or none where it isn't one. None for a line that is skipped. An `Err` is lack of memory.
#[tactic(auto, unfolding(history_model::specs::Lines::line_of))]
pub fn read_line(alloc: Global, number: u32, cred: Cred, text: &[u8]) -> Result<Option<Line>, Mem>
    ensures { IfOk result (λ line. line ≡ line_of number cred text.now) }
{
    if is_skipped(text) {
        return Ok(None);
    }
    let (sync, call) = request_of(alloc, text)?;
    Ok(Some(Line {
        number,
        cred,
        sync,
        call,
    }))
}
