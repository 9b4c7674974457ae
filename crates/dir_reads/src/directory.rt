//! A directory that is opened to be changed, and the first chunk of it that has a name or room for one.
ghost use Rattle.std.specs.Prelude.{◌≡◌, ◌<◌, ◌≤◌, ◌/◌, ℕ, [], true, false, min, unwrap_or, slice_index, Some, IfSome, IfNone, IfOk, IsErrOf};
ghost use Rattle.lufs_base.specs.Layout.{blocks_of};
ghost use Rattle.volume_model.specs.Format.{block, inodes_of, IsDinode};
ghost use Rattle.sector_disk.specs.Disk.{FailsJustAt};
ghost use Rattle.meta_store.specs.Store.{IsUnchanged};
ghost use Rattle.meta_store.specs.Changing.{IsKept};
ghost use Rattle.meta_draft.specs.Drafted.{drafted};
ghost use Rattle.meta_store.specs.declared.error.StoreError.TheVariants.{Disk};
ghost use Rattle.dir_reads.specs.Chunks.{IsOpened};
ghost use Rattle.dir_reads.specs.Directories.{IsOfRecord, IsDirectoryRead, IsFirst, serves};

use crate::chunk_list::{Opened, count_of};
use crate::numbers::{are_inside, read_numbers};
use crate::record::directory_record;
use crate::window::Window;
use dir_blocks::Chunk;
use lufs_base::{Ino, Name};
use meta_draft::Draft;
use meta_store::{MetaRead, StoreError};
use std::alloc::Global;
use volume_model::Dinode;

/// A directory with its record.
#[derive(Drop)]
pub struct Directory {
    pub dinode: Dinode,
    pub opened: Opened,
}

/// What a chunk is wanted for: it has a slot in use with a name, or room for one.
#[derive(Clone, Copy)]
pub enum Wanted {
    Named,
    Roomy,
}

/// A chunk of a directory, and which of its chunks it is.
#[derive(Drop)]
pub struct Found {
    pub place: u32,
    pub chunk: Chunk,
}

// Whether the chunk serves for the name.
fn serves(wanted: Wanted, name: &Name, chunk: &Chunk) -> bool
    ensures { result ≡ serves wanted name.now chunk.now }
{
    match wanted {
        Wanted::Named => chunk.find(name).is_some(),
        Wanted::Roomy => chunk.room(name).is_some(),
    }
}

// The chunk, if there is one and it serves.
fn serving(wanted: Wanted, name: &Name, chunk: Option<Chunk>) -> Option<Chunk>
    ensures some { IfSome result (λ found. chunk ≡ Some found) }
    ensures serves { IfSome result (λ found. serves wanted name.now found ≡ true) }
    ensures none { IfNone result (serves wanted name.now (unwrap_or chunk []) ≡ false) }
{
    let chunk = chunk?;
    if serves(wanted, name, &chunk) {
        Some(chunk)
    } else {
        None
    }
}

// A directory without chunks.
fn nothing(alloc: Global) -> Opened
    ensures count { result.count ≡ 0 }
    ensures numbers { result.numbers.items ≡ [] }
{
    Opened {
        count: 0,
        numbers: Vec::new(alloc),
    }
}

// The directory of this record. A number in it that is wrong may give none.
fn with_record<S: MetaRead>(
    alloc: Global,
    draft: &Draft,
    store: &mut S,
    dinode: Dinode,
) -> Result<Option<Directory>, StoreError>
    requires inode { IsDinode (S.store store.old).geometry.version dinode }
    ensures value { IfSome (drafted draft.now.change (S.store store.old)).content (λ image. IfOk result (IsOfRecord (S.store store.old).geometry (block image) dinode)) }
    ensures inode { IfOk result (λ found. IfSome found (λ directory. IsDinode (S.store store.old).geometry.version directory.dinode)) }
    ensures inside { IfOk result (λ found. IfSome found (λ directory. (k : ℕ) → slice_index directory.opened.numbers.items k < blocks_of (S.store store.old).geometry)) }
    ensures counted { IfOk result (λ found. IfSome found (λ directory. directory.opened.count ≡ min (directory.dinode.size / 512) 2048)) }
    ensures unchanged { IsUnchanged (S.store store.old) (S.store store.new) }
    ensures kept { IsKept (S.changing store.old) (S.changing store.new) }
    ensures failure { FailsJustAt (IsErrOf result Disk) (S.store store.old).disk (S.store store.new).disk }
{
    let numbers = read_numbers(alloc, draft, store, dinode)?;
    if !are_inside(store.geometry().total(), &numbers) {
        return Ok(None);
    }
    let opened = Opened {
        count: count_of(dinode.size),
        numbers,
    };
    Ok(Some(Directory { dinode, opened }))
}

impl Directory {
    /// Opens directory `dir` to be changed. A number in its record that is wrong may give none.
    pub fn open<S: MetaRead>(
        alloc: Global,
        draft: &Draft,
        store: &mut S,
        dir: Ino,
    ) -> Result<Option<Directory>, StoreError>
        ensures value { IfSome (drafted draft.now.change (S.store store.old)).content (λ image. IfOk result (IsDirectoryRead (S.store store.old).geometry (block image) dir.0)) }
        ensures inode { IfOk result (λ found. IfSome found (λ directory. (dir.0 < inodes_of (S.store store.old).geometry) × IsDinode (S.store store.old).geometry.version directory.dinode)) }
        ensures inside { IfOk result (λ found. IfSome found (λ directory. (k : ℕ) → slice_index directory.opened.numbers.items k < blocks_of (S.store store.old).geometry)) }
        ensures counted { IfOk result (λ found. IfSome found (λ directory. directory.opened.count ≡ min (directory.dinode.size / 512) 2048)) }
        ensures unchanged { IsUnchanged (S.store store.old) (S.store store.new) }
        ensures kept { IsKept (S.changing store.old) (S.changing store.new) }
        ensures failure { FailsJustAt (IsErrOf result Disk) (S.store store.old).disk (S.store store.new).disk }
    {
        if !store.geometry().is_inode(dir) {
            return Ok(None);
        }
        match directory_record(draft, store, dir)? {
            Some(dinode) => with_record(alloc, draft, store, dinode),
            None => Ok(None),
        }
    }

    /// The first chunk that serves for the name.
    pub fn find<S: MetaRead>(
        &self,
        alloc: Global,
        draft: &Draft,
        store: &mut S,
        wanted: Wanted,
        name: &Name,
    ) -> Result<Option<Found>, StoreError>
        requires inside { (k : ℕ) → slice_index self.now.opened.numbers.items k < blocks_of (S.store store.old).geometry }
        ensures value { IfSome (drafted draft.now.change (S.store store.old)).content (λ image. IfOk result (IsFirst (serves wanted name.now) (block image) self.now.opened.numbers.items self.now.opened.count)) }
        ensures found { IfOk result (λ found. IfSome found (λ f. (f.place < self.now.opened.count) × (serves wanted name.now f.chunk ≡ true))) }
        ensures unchanged { IsUnchanged (S.store store.old) (S.store store.new) }
        ensures kept { IsKept (S.changing store.old) (S.changing store.new) }
        ensures failure { FailsJustAt (IsErrOf result Disk) (S.store store.old).disk (S.store store.new).disk }
    {
        let mut window = Window::new();
        for place in 0..self.opened.count {
            let chunk = self.opened.chunk(alloc, draft, store, &mut window, place)?;
            if let Some(chunk) = serving(wanted, name, chunk) {
                return Ok(Some(Found { place, chunk }));
            }
        }
        Ok(None)
    }
}

/// The chunks of directory `dir`. What is no directory has none, nor may one with a number in its record that is wrong.
pub(crate) fn open_chunks<S: MetaRead>(
    alloc: Global,
    draft: &Draft,
    store: &mut S,
    dir: Ino,
) -> Result<Opened, StoreError>
    ensures value { IfSome (drafted draft.now.change (S.store store.old)).content (λ image. IfOk result (IsOpened (S.store store.old).geometry (block image) dir.0)) }
    ensures inside { IfOk result (λ opened. (k : ℕ) → slice_index opened.numbers.items k < blocks_of (S.store store.old).geometry) }
    ensures most { IfOk result (λ opened. opened.count ≤ 2048) }
    ensures unchanged { IsUnchanged (S.store store.old) (S.store store.new) }
    ensures kept { IsKept (S.changing store.old) (S.changing store.new) }
    ensures failure { FailsJustAt (IsErrOf result Disk) (S.store store.old).disk (S.store store.new).disk }
{
    match Directory::open(alloc, draft, store, dir)? {
        Some(directory) => Ok(directory.opened),
        None => Ok(nothing(alloc)),
    }
}
