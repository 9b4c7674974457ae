//! The names in a directory, in their order.
ghost use Rattle.std.specs.Prelude.{◌≡◌, ◌<◌, ℕ, [], take, option_map, unwrap_or, slice_index, IfSome, IfOk, IsErrOf, OnOk};
ghost use Rattle.std.specs.List.{position};
ghost use Rattle.lufs_base.specs.Layout.{blocks_of};
ghost use Rattle.volume_model.specs.Format.{block};
ghost use Rattle.sector_disk.specs.Disk.{FailsJustAt};
ghost use Rattle.meta_store.specs.Store.{IsUnchanged};
ghost use Rattle.meta_store.specs.Changing.{IsKept};
ghost use Rattle.meta_draft.specs.Drafted.{drafted};
ghost use Rattle.meta_store.specs.declared.error.StoreError.TheVariants.{Disk};
ghost use Rattle.history_model.specs.Names.{is_before, put_in_order, in_order, names_after};
ghost use Rattle.dir_reads.specs.Answers.{AnswersOfTree};
ghost use Rattle.dir_reads.specs.Chunks.{chunks_of, slots_in};
ghost use Rattle.dir_reads.specs.Names.{PutsBefore, comes_after, is_told, names_in, first_names};

use crate::chunk_list::Opened;
use crate::directory::open_chunks;
use crate::search::is_entry;
use crate::window::Window;
use dir_blocks::Chunk;
use lufs_base::{Ino, Mem, Name};
use meta_draft::Draft;
use meta_store::{MetaRead, StoreError};
use std::alloc::Global;
use tree_types::NameList;
use volume_model::Slot;

// Whether the first name comes before the other one.
fn is_before(name: &Name, other: &Name) -> bool
    ensures { result ≡ is_before name.now other.now }
{
    name.as_slice() < other.as_slice()
}

// Whether the name comes after this one, if there is one.
fn comes_after(after: Option<&Name>, name: &Name) -> bool
    ensures { result ≡ comes_after (option_map (λ n. n.now) after.entry) name.now }
{
    match after {
        Some(after) => is_before(after, name),
        None => true,
    }
}

// The place of the first name that comes after this one.
fn place_of(names: &[Name], name: &Name) -> Option<usize>
    ensures { result ≡ position (is_before name.now) names.now }
{
    names.iter().position(|other| is_before(name, other))
}

// Puts the name among the others, which are in order, and keeps so many of the first.
fn put_in_order(names: &mut Vec<Name>, name: Name, most: usize) -> Result<(), Mem>
    ensures { OnOk result (names.new.items ≡ take most (put_in_order name names.old.items)) }
{
    let end = names.len();
    let place = place_of(names, &name).unwrap_or(end);
    names.insert(place, name)?;
    names.truncate(most);
    Ok(())
}

// Whether the slot gives a name that comes after this one, if there is one.
fn is_told(after: Option<&Name>, slot: &Slot) -> bool
    ensures { result ≡ is_told (option_map (λ n. n.now) after.entry) slot.now }
{
    is_entry(slot) && comes_after(after, &slot.name)
}

// Puts the names of these slots among those of slots that follow them, and keeps so many of the first.
fn put_slots(
    names: &mut Vec<Name>,
    mut slots: Vec<Slot>,
    after: Option<&Name>,
    most: usize,
) -> Result<(), Mem>
    ensures { OnOk result (PutsBefore (names_in (option_map (λ n. n.now) after.entry) slots.items) most names.old.items names.new.items) }
{
    while let Some(slot) = slots.pop() {
        if !is_told(after, &slot) {
            continue;
        }
        put_in_order(names, slot.name, most)?;
    }
    Ok(())
}

// The same of a chunk, if there is one.
fn put_chunk(
    names: &mut Vec<Name>,
    chunk: Option<Chunk>,
    after: Option<&Name>,
    most: usize,
) -> Result<(), Mem>
    ensures { OnOk result (PutsBefore (names_in (option_map (λ n. n.now) after.entry) (unwrap_or chunk [])) most names.old.items names.new.items) }
{
    match chunk {
        Some(chunk) => put_slots(names, chunk.into_slots(), after, most),
        None => Ok(()),
    }
}

// So many of the first names in a directory that come after this one, in their order.
fn first_among<S: MetaRead>(
    alloc: Global,
    draft: &Draft,
    store: &mut S,
    directory: &Opened,
    after: Option<&Name>,
    most: usize,
) -> Result<Vec<Name>, StoreError>
    requires inside { (k : ℕ) → slice_index directory.now.numbers.items k < blocks_of (S.store store.old).geometry }
    ensures value { IfSome (drafted draft.now.change (S.store store.old)).content (λ image. IfOk result (λ names.
        names.items ≡ take most (in_order (names_in (option_map (λ n. n.now) after.entry) (slots_in (chunks_of (block image) directory.now)))))) }
    ensures unchanged { IsUnchanged (S.store store.old) (S.store store.new) }
    ensures kept { IsKept (S.changing store.old) (S.changing store.new) }
    ensures failure { FailsJustAt (IsErrOf result Disk) (S.store store.old).disk (S.store store.new).disk }
{
    let mut names = Vec::new(alloc);
    let mut window = Window::new();
    let mut k = directory.count;
    while k > 0 {
        k -= 1;
        let chunk = directory.chunk(alloc, draft, store, &mut window, k)?;
        put_chunk(&mut names, chunk, after, most)?;
    }
    Ok(names)
}

// These names as a list.
fn list_of(alloc: Global, names: Vec<Name>) -> Result<NameList, Mem>
    ensures { IfOk result (λ list. list ≡ names.items) }
{
    let mut list = NameList::new(alloc);
    for name in names {
        list.push(name)?;
    }
    Ok(list)
}

/// At most so many of the names in directory `dir`, besides `.` and `..`, that come after this one, in their order;
/// and whether more follow. It answers `Disk` exactly where a read failed.
pub fn entries<S: MetaRead>(
    alloc: Global,
    draft: &Draft,
    store: &mut S,
    dir: Ino,
    after: Option<&Name>,
    most: u32,
) -> Result<(NameList, bool), StoreError>
    ensures value { AnswersOfTree (drafted draft.now.change (S.store store.old)) dir.0 (λ tree told. told ≡ first_names most (names_after tree dir.0 (option_map (λ n. n.now) after.entry))) result }
    ensures unchanged { IsUnchanged (S.store store.old) (S.store store.new) }
    ensures kept { IsKept (S.changing store.old) (S.changing store.new) }
    ensures failure { FailsJustAt (IsErrOf result Disk) (S.store store.old).disk (S.store store.new).disk }
{
    let directory = open_chunks(alloc, draft, store, dir)?;
    let most = most as usize;
    let mut names = first_among(alloc, draft, store, &directory, after, most + 1)?;
    let more = most < names.len();
    names.truncate(most);
    Ok((list_of(alloc, names)?, more))
}
