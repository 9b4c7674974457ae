//! Names looked up in a directory, and whether it has any.
ghost use Rattle.std.specs.Prelude.{◌≡◌, ◌<◌, ℕ, [], unwrap_or, option_map, slice_index, IfSome, IfOk, IsErrOf};
ghost use Rattle.std.specs.List.{list_any};
ghost use Rattle.lufs_base.specs.Layout.{blocks_of};
ghost use Rattle.volume_model.specs.Format.{block};
ghost use Rattle.sector_disk.specs.Disk.{FailsJustAt};
ghost use Rattle.meta_store.specs.Store.{IsUnchanged};
ghost use Rattle.meta_store.specs.Changing.{IsKept};
ghost use Rattle.meta_draft.specs.Drafted.{drafted};
ghost use Rattle.meta_store.specs.declared.error.StoreError.TheVariants.{Disk};
ghost use Rattle.history_model.specs.Places.{has_name, is_dots, lookup};
ghost use Rattle.history_model.specs.Refusals.{is_empty_in};
ghost use Rattle.dir_reads.specs.Answers.{AnswersOfTree};
ghost use Rattle.dir_reads.specs.Chunks.{chunks_of, slots_in, first_inode};
ghost use Rattle.dir_reads.specs.Names.{is_entry};

use crate::chunk_list::Opened;
use crate::directory::open_chunks;
use crate::window::Window;
use dir_blocks::Chunk;
use lufs_base::{Ino, Name};
use meta_draft::Draft;
use meta_store::{MetaRead, StoreError};
use std::alloc::Global;
use volume_model::Slot;

// Whether the slot is in use and has this name.
fn has_name(slot: &Slot, name: &Name) -> bool
    ensures { result ≡ has_name name.now slot.now }
{
    slot.ino != 0 && slot.name.as_slice() == name.as_slice()
}

// The inode of the first slot in use with this name.
fn find_slot(slots: &[Slot], name: &Name) -> Option<Ino>
    ensures { option_map (λ i. i.0) result ≡ first_inode name.now slots.now }
{
    let slot = slots.iter().find(|slot| has_name(*slot, name))?;
    Some(Ino(slot.ino))
}

// The same in a chunk, if there is one.
fn find_in(chunk: Option<Chunk>, name: &Name) -> Option<Ino>
    ensures { option_map (λ i. i.0) result ≡ first_inode name.now (unwrap_or chunk []) }
{
    find_slot(chunk?.as_slice(), name)
}

// The inode of the first slot of a directory in use with this name.
fn find_among<S: MetaRead>(
    alloc: Global,
    draft: &Draft,
    store: &mut S,
    directory: &Opened,
    name: &Name,
) -> Result<Option<Ino>, StoreError>
    requires inside { (k : ℕ) → slice_index directory.now.numbers.items k < blocks_of (S.store store.old).geometry }
    ensures value { IfSome (drafted draft.now.change (S.store store.old)).content (λ image. IfOk result (λ found.
        option_map (λ i. i.0) found ≡ first_inode name.now (slots_in (chunks_of (block image) directory.now)))) }
    ensures unchanged { IsUnchanged (S.store store.old) (S.store store.new) }
    ensures kept { IsKept (S.changing store.old) (S.changing store.new) }
    ensures failure { FailsJustAt (IsErrOf result Disk) (S.store store.old).disk (S.store store.new).disk }
{
    let mut window = Window::new();
    for k in 0..directory.count {
        let chunk = directory.chunk(alloc, draft, store, &mut window, k)?;
        if let Some(i) = find_in(chunk, name) {
            return Ok(Some(i));
        }
    }
    Ok(None)
}

/// The inode that directory `dir` gives this name. What is no directory gives none. It answers `Disk` exactly where a
/// read failed.
pub fn lookup<S: MetaRead>(
    alloc: Global,
    draft: &Draft,
    store: &mut S,
    dir: Ino,
    name: &Name,
) -> Result<Option<Ino>, StoreError>
    ensures value { AnswersOfTree (drafted draft.now.change (S.store store.old)) dir.0 (λ tree found. option_map (λ i. i.0) found ≡ lookup tree dir.0 name.now) result }
    ensures unchanged { IsUnchanged (S.store store.old) (S.store store.new) }
    ensures kept { IsKept (S.changing store.old) (S.changing store.new) }
    ensures failure { FailsJustAt (IsErrOf result Disk) (S.store store.old).disk (S.store store.new).disk }
{
    let directory = open_chunks(alloc, draft, store, dir)?;
    find_among(alloc, draft, store, &directory, name)
}

/// Whether the name is that of a directory itself or of the one above it.
pub(crate) fn is_dots(name: &[u8]) -> bool
    ensures { result ≡ is_dots name.now }
{
    name == b".".as_slice() || name == b"..".as_slice()
}

/// Whether the slot is in use, and names neither the directory itself nor the one above it.
pub(crate) fn is_entry(slot: &Slot) -> bool
    ensures { result ≡ is_entry slot.now }
{
    slot.ino != 0 && !is_dots(slot.name.as_slice())
}

// Whether a chunk names anything besides these two, if there is one.
fn has_entry(chunk: Option<Chunk>) -> bool
    ensures { result ≡ list_any is_entry (unwrap_or chunk []) }
{
    match chunk {
        Some(chunk) => chunk.as_slice().iter().any(is_entry),
        None => false,
    }
}

// Whether a directory names anything besides these two.
fn has_entries<S: MetaRead>(
    alloc: Global,
    draft: &Draft,
    store: &mut S,
    directory: &Opened,
) -> Result<bool, StoreError>
    requires inside { (k : ℕ) → slice_index directory.now.numbers.items k < blocks_of (S.store store.old).geometry }
    ensures value { IfSome (drafted draft.now.change (S.store store.old)).content (λ image. IfOk result (λ some. some ≡ list_any (list_any is_entry) (chunks_of (block image) directory.now))) }
    ensures unchanged { IsUnchanged (S.store store.old) (S.store store.new) }
    ensures kept { IsKept (S.changing store.old) (S.changing store.new) }
    ensures failure { FailsJustAt (IsErrOf result Disk) (S.store store.old).disk (S.store store.new).disk }
{
    let mut window = Window::new();
    for k in 0..directory.count {
        let chunk = directory.chunk(alloc, draft, store, &mut window, k)?;
        if has_entry(chunk) {
            return Ok(true);
        }
    }
    Ok(false)
}

/// Whether directory `dir` names nothing besides itself and the one above it, as what is no directory does. It answers
/// `Disk` exactly where a read failed.
pub fn is_empty<S: MetaRead>(
    alloc: Global,
    draft: &Draft,
    store: &mut S,
    dir: Ino,
) -> Result<bool, StoreError>
    ensures value { AnswersOfTree (drafted draft.now.change (S.store store.old)) dir.0 (λ tree empty. empty ≡ is_empty_in tree dir.0) result }
    ensures unchanged { IsUnchanged (S.store store.old) (S.store store.new) }
    ensures kept { IsKept (S.changing store.old) (S.changing store.new) }
    ensures failure { FailsJustAt (IsErrOf result Disk) (S.store store.old).disk (S.store store.new).disk }
{
    let directory = open_chunks(alloc, draft, store, dir)?;
    Ok(!has_entries(alloc, draft, store, &directory)?)
}
