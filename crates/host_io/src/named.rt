//! Things by name in a list: looked up, lent, and put back.
ghost use Rattle.std.specs.Prelude.{◌≡◌, ◌<◌, length, IfSome, MatchOption, OnOk, OnErr, IfOk, IfErr, IfNone, OnSome};
ghost use Rattle.std.specs.Option.{option_copied};
ghost use Rattle.host_io.specs.Places.{here, lent, nothing, here_of, with_place};
ghost use Rattle.host_io.specs.Named.{IsFirst, IsAbsent, place_with, places_of};

use lufs_base::{Bytes, Mem};
use std::alloc::Global;
use std::mem;

/// What a name stands for; nothing while it is lent.
#[derive(Drop)]
pub(crate) struct Named<T> {
    pub(crate) name: Bytes,
    pub(crate) held: Option<T>,
}

// The first entry of that name.
fn place_of<T>(entries: &[Named<T>], name: &[u8]) -> Option<usize>
    ensures entry { MatchOption result (IsAbsent name.now entries.now) (λ i. IsFirst name.now entries.now i) }
    ensures within { IfSome result (λ i. i < length entries.now) }
{
    for (i, entry) in entries.iter().enumerate() {
        if entry.name.as_slice() == name {
            return Some(i);
        }
    }
    None
}

/// What the name stands for.
pub(crate) fn find<'a, T>(entries: &'a [Named<T>], name: &[u8]) -> Option<&'a T>
    ensures { option_copied result ≡ here_of (places_of entries.now name.now) }
{
    let i = place_of(entries, name)?;
    entries[i].held.as_ref()
}

// Replaces what the name stands for, and answers what it stood for before. Where no entry has the name,
// it answers what it was given.
fn exchange<T>(
    entries: &mut Vec<Named<T>>,
    name: &[u8],
    held: Option<T>,
) -> Result<Option<T>, Option<T>>
    ensures old { IfOk result (λ old. places_of entries.old.items name.now ≡ place_with old) }
    ensures new { OnOk result (places_of entries.new.items ≡ with_place (places_of entries.old.items) name.now (place_with held)) }
    ensures absent { OnErr result (IsAbsent name.now entries.old.items) }
    ensures none { OnErr result (places_of entries.old.items name.now ≡ nothing) }
    ensures err { IfErr result (λ given. (given ≡ held) × (entries.new.items ≡ entries.old.items)) }
{
    match place_of(entries, name) {
        Some(i) => Ok(mem::replace(&mut entries[i].held, held)),
        None => Err(held),
    }
}

/// Takes what the name stands for, and leaves it lent.
pub(crate) fn lend<T>(entries: &mut Vec<Named<T>>, name: &[u8]) -> Option<T>
where
    T: Drop,
    ensures value { result ≡ here_of (places_of entries.old.items name.now) }
    ensures some { OnSome result (places_of entries.new.items ≡ with_place (places_of entries.old.items) name.now lent) }
    ensures none { IfNone result (entries.new.items ≡ entries.old.items) }
{
    if find(entries, name).is_none() {
        return None;
    }
    match exchange(entries, name, None) {
        Ok(held) => held,
        Err(_) => None,
    }
}

/// Puts back what was lent under the name.
pub(crate) fn give_back<T: Drop>(entries: &mut Vec<Named<T>>, name: &[u8], given: T)
    requires { places_of entries.old.items name.now ≡ lent }
    ensures { places_of entries.new.items ≡ with_place (places_of entries.old.items) name.now (here given) }
{
    match exchange(entries, name, Some(given)) {
        Ok(_) => {}
        // The name is lent, so there is an entry of it.
        Err(_) => unreachable!(),
    }
}

/// Makes the name one that is lent, and drops what it stood for. An `Err` changes nothing.
pub(crate) fn lend_new<T: Drop>(
    alloc: Global,
    entries: &mut Vec<Named<T>>,
    name: &[u8],
) -> Result<(), Mem>
    ensures ok { OnOk result (places_of entries.new.items ≡ with_place (places_of entries.old.items) name.now lent) }
    ensures err { OnErr result (entries.new.items ≡ entries.old.items) }
{
    let kept = Bytes::from_slice(alloc, name)?;
    match exchange(entries, name, None) {
        Ok(_) => Ok(()),
        Err(held) => {
            entries.push(Named { name: kept, held })?;
            Ok(())
        }
    }
}
