//! Where a directory has room for a new name.
ghost use Rattle.std.specs.Prelude.{◌≡◌, ◌≤◌, ◌<◌, ℕ, [], length, unwrap_or, is_some, slice_index, IfSome, IfOk, IsErrOf};
ghost use Rattle.std.specs.List.{list_any};
ghost use Rattle.lufs_base.specs.Layout.{blocks_of};
ghost use Rattle.volume_model.specs.Format.{block, room_in};
ghost use Rattle.sector_disk.specs.Disk.{FailsJustAt};
ghost use Rattle.meta_store.specs.Store.{IsUnchanged};
ghost use Rattle.meta_store.specs.Changing.{IsKept};
ghost use Rattle.meta_draft.specs.Drafted.{drafted};
ghost use Rattle.meta_store.specs.declared.error.StoreError.TheVariants.{Disk};
ghost use Rattle.dir_reads.specs.Answers.{AnswersOfTree};
ghost use Rattle.dir_reads.specs.Chunks.{chunks_of};
ghost use Rattle.dir_reads.specs.Rooms.{room_for, room_after};

use crate::chunk_list::{CHUNKS, MOST_CHUNKS, Opened};
use crate::directory::open_chunks;
use crate::window::Window;
use dir_blocks::Chunk;
use lufs_base::{Ino, Name};
use meta_draft::Draft;
use meta_store::{MetaRead, StoreError};
use std::alloc::Global;

/// Where a directory has room for a new name.
#[derive(Clone, Copy, Debug, PartialEq, Eq)]
pub enum Room {
    /// A chunk of it has room.
    Fits,
    /// Its last block has room for one more chunk.
    NewChunk,
    /// One more chunk needs one more block, or one and a pointer block.
    NewBlock,
    /// No chunk has room, and it has the most chunks.
    Past,
}

// Whether a chunk has room for the name, if there is one.
fn has_room(chunk: Option<Chunk>, name: &Name) -> bool
    ensures { result ≡ is_some (room_in (unwrap_or chunk []) name.now) }
{
    match chunk {
        Some(chunk) => chunk.room(name).is_some(),
        None => false,
    }
}

// Whether a chunk of the directory has room for the name.
fn has_chunk_with_room<S: MetaRead>(
    alloc: Global,
    draft: &Draft,
    store: &mut S,
    directory: &Opened,
    name: &Name,
) -> Result<bool, StoreError>
    requires inside { (k : ℕ) → slice_index directory.now.numbers.items k < blocks_of (S.store store.old).geometry }
    ensures value { IfSome (drafted draft.now.change (S.store store.old)).content (λ image. IfOk result (λ some.
        some ≡ list_any (λ chunk. is_some (room_in chunk name.now)) (chunks_of (block image) directory.now))) }
    ensures unchanged { IsUnchanged (S.store store.old) (S.store store.new) }
    ensures kept { IsKept (S.changing store.old) (S.changing store.new) }
    ensures failure { FailsJustAt (IsErrOf result Disk) (S.store store.old).disk (S.store store.new).disk }
{
    let mut window = Window::new();
    for k in 0..directory.count {
        let chunk = directory.chunk(alloc, draft, store, &mut window, k)?;
        if has_room(chunk, name) {
            return Ok(true);
        }
    }
    Ok(false)
}

// Where there is room for one more chunk after so many.
fn room_after(count: u32) -> Room
    requires { count ≤ 2048 }
    ensures { result ≡ room_after count }
{
    if count == MOST_CHUNKS {
        Room::Past
    } else if count % CHUNKS == 0 {
        Room::NewBlock
    } else {
        Room::NewChunk
    }
}

/// Where directory `dir` has room for a new name. It answers `Disk` exactly where a read failed.
pub fn can_enter<S: MetaRead>(
    alloc: Global,
    draft: &Draft,
    store: &mut S,
    dir: Ino,
    name: &Name,
) -> Result<Room, StoreError>
    ensures value { AnswersOfTree (drafted draft.now.change (S.store store.old)) dir.0 (λ tree room. room ≡ room_for tree dir.0 name.now) result }
    ensures unchanged { IsUnchanged (S.store store.old) (S.store store.new) }
    ensures kept { IsKept (S.changing store.old) (S.changing store.new) }
    ensures failure { FailsJustAt (IsErrOf result Disk) (S.store store.old).disk (S.store store.new).disk }
{
    let directory = open_chunks(alloc, draft, store, dir)?;
    if has_chunk_with_room(alloc, draft, store, &directory, name)? {
        return Ok(Room::Fits);
    }
    Ok(room_after(directory.count))
}
