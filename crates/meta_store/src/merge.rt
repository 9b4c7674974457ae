//! Deltas merged into those that a transaction holds: a later one takes the place of older ones.
ghost use Rattle.std.specs.Prelude.{◌≡◌, ℕ, ◌<◌, ◌++◌, ◌∷◌, ◌%◌, List, [], IfOk, OnOk, IfSome, All, true};
ghost use Rattle.lufs_base.specs.declared.delta.Delta.{Delta};
ghost use Rattle.meta_store.specs.Laid.{IsWithinBlock};
ghost use Rattle.meta_store.specs.Merged.{is_whole_block, is_same_kind, share_block, touches, meets, replaces, joined, replacing, excludes, stands_beside, placed_left, merged, all_merged};

use crate::laid::{block_of, copy_of};
use lufs_base::{BLOCK, Bytes, Delta, DeltaKind, Mem};
use std::alloc::Global;

fn is_whole_block(delta: &Delta) -> bool
    ensures { result ≡ is_whole_block delta.now.kind }
{
    matches!(delta.kind, DeltaKind::Zero | DeltaKind::Cancel)
}

fn is_same_kind(delta: &Delta, older: &Delta) -> bool
    ensures { result ≡ is_same_kind delta.now.kind older.now.kind }
{
    delta.kind == older.kind
}

fn share_block(delta: &Delta, older: &Delta) -> bool
    ensures { result ≡ share_block delta.now older.now }
{
    block_of(delta) == block_of(older)
}

// Whether the two overlap, or one ends where the other begins.
fn touches(delta: &Delta, older: &Delta) -> bool
    ensures { result ≡ touches delta.now older.now }
{
    delta.home.saturating_sub(older.home) <= u64::from(older.len)
        && older.home.saturating_sub(delta.home) <= u64::from(delta.len)
}

// Whether the two lie at one place, or are pointers that overlap or touch.
fn meets(delta: &Delta, older: &Delta) -> bool
    ensures { result ≡ meets delta.now older.now }
{
    is_same_kind(delta, older)
        && share_block(delta, older)
        && if matches!(delta.kind, DeltaKind::Pointers) {
            touches(delta, older)
        } else {
            delta.home == older.home
        }
}

// Whether the delta takes the place of an older one.
fn replaces(delta: &Delta, older: &Delta) -> bool
    ensures { result ≡ replaces delta.now older.now }
{
    if is_whole_block(delta) {
        share_block(delta, older)
    } else {
        meets(delta, older)
    }
}

// Whether an older delta goes because it is of another kind than the delta, in one block with it.
fn excludes(delta: &Delta, older: &Delta) -> bool
    ensures { result ≡ excludes delta.now older.now }
{
    !is_whole_block(delta)
        && share_block(delta, older)
        && !is_same_kind(delta, older)
        && !matches!(older.kind, DeltaKind::Zero)
}

// Where in its block a delta lies.
fn place_of(delta: &Delta) -> usize
    ensures { result ≡ delta.now.home % 4096 }
{
    (delta.home % BLOCK as u64) as usize
}

// What both cover, with the bytes of the later one where both have some.
fn joined(alloc: Global, delta: &Delta, older: &Delta) -> Result<Delta, Mem>
    requires block { share_block delta.now older.now ≡ true }
    requires delta { IsWithinBlock delta.now }
    requires older { IsWithinBlock older.now }
    ensures { IfOk result (λ both. both ≡ joined delta.now older.now) }
{
    let (place, old_place) = (place_of(delta), place_of(older));
    let (end, old_end) = (place + delta.len as usize, old_place + older.len as usize);
    let bytes = older.bytes.as_slice();
    let front = bytes.len().min(place.saturating_sub(old_place));
    let rest = bytes.len().min(end.saturating_sub(old_place));
    let mut all = Vec::from_slice(alloc, &bytes[..front])?;
    all.extend_from_slice(delta.bytes.as_slice())?;
    all.extend_from_slice(&bytes[rest..])?;
    Ok(Delta {
        kind: delta.kind,
        home: delta.home.min(older.home),
        len: (end.max(old_end) - place.min(old_place)) as u32,
        bytes: Bytes::from_vec(all),
    })
}

// The delta in the place of an older one that it replaces.
fn replacing(alloc: Global, delta: Delta, older: &Delta) -> Result<Delta, Mem>
    requires replaces { replaces delta older.now ≡ true }
    requires delta { IsWithinBlock delta }
    requires older { IsWithinBlock older.now }
    ensures { IfOk result (λ d. d ≡ replacing delta older.now) }
{
    if is_whole_block(&delta) {
        return Ok(delta);
    }
    joined(alloc, &delta, older)
}

// Puts an older delta into the list, or the new one before it, and answers the new one if it is still left.
fn place_one(
    alloc: Global,
    list: &mut Vec<Delta>,
    left: Option<Delta>,
    older: &Delta,
) -> Result<Option<Delta>, Mem>
    requires left { IfSome left IsWithinBlock }
    requires older { IsWithinBlock older.now }
    ensures list { IfOk result (λ next. (more : List Delta) → list.new.items ++ placed_left next more ≡ list.old.items ++ placed_left left (older.now ∷ more)) }
    ensures left { IfOk result (λ next. IfSome next IsWithinBlock) }
{
    let Some(delta) = left else {
        list.push(copy_of(alloc, older)?)?;
        return Ok(None);
    };
    if replaces(&delta, older) {
        return Ok(Some(replacing(alloc, delta, older)?));
    }
    if delta.home < older.home {
        list.push(delta)?;
        list.push(copy_of(alloc, older)?)?;
        return Ok(None);
    }
    list.push(copy_of(alloc, older)?)?;
    Ok(Some(delta))
}

// Puts the new delta at the end, if it is still left.
#[tactic(auto, using(crate::proofs::MergeSteps::placed_last))]
fn push_left(list: &mut Vec<Delta>, left: Option<Delta>) -> Result<(), Mem>
    ensures { OnOk result (list.new.items ≡ list.old.items ++ placed_left left []) }
{
    if let Some(delta) = left {
        list.push(delta)?;
    }
    Ok(())
}

/// The deltas of a transaction with one more, which takes the place of an older one at the same place, or of
/// all deltas of its block if it is a zero block or a cancel. Pointers that overlap or touch are joined, and
/// older deltas of other kinds in its block go, but for a zero block.
pub fn merged(alloc: Global, deltas: &[Delta], delta: &Delta) -> Result<Vec<Delta>, Mem>
    requires deltas { All IsWithinBlock deltas.now }
    requires delta { IsWithinBlock delta.now }
    ensures { IfOk result (λ all. all.items ≡ merged deltas.now delta.now) }
{
    let mut all = Vec::new(alloc);
    let mut left = Some(copy_of(alloc, delta)?);
    for older in deltas {
        if !excludes(delta, older) {
            left = place_one(alloc, &mut all, left, older)?;
        }
    }
    push_left(&mut all, left)?;
    Ok(all)
}

// The deltas of a transaction with these, one after the other.
pub(crate) fn all_merged(alloc: Global, deltas: &[Delta], more: &[Delta]) -> Result<Vec<Delta>, Mem>
    requires deltas { All IsWithinBlock deltas.now }
    requires more { All IsWithinBlock more.now }
    ensures { IfOk result (λ all. all.items ≡ all_merged deltas.now more.now) }
{
    let mut all = copies_of(alloc, deltas)?;
    for delta in more {
        all = merged(alloc, all.as_slice(), delta)?;
    }
    Ok(all)
}

fn copies_of(alloc: Global, deltas: &[Delta]) -> Result<Vec<Delta>, Mem>
    ensures { IfOk result (λ all. all.items ≡ deltas.now) }
{
    let mut all = Vec::new(alloc);
    for delta in deltas {
        all.push(copy_of(alloc, delta)?)?;
    }
    Ok(all)
}
