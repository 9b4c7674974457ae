//! A chunk of a directory that is put into a change.
ghost use Rattle.std.specs.Prelude.{◌≡◌, ◌≤◌, ◌+◌, OnOk, OnErr};
ghost use Rattle.volume_model.specs.Log.{delta_bytes};
ghost use Rattle.meta_draft.specs.Drafted.{with_delta};
ghost use Rattle.dir_ops.specs.Slots.{chunk_of_directory};

use dir_blocks::Chunk;
use dir_reads::{CHUNKS, Directory};
use lufs_base::{BlockNo, Mem};
use meta_draft::Draft;
use std::alloc::Global;

/// Puts chunk `place` of the directory into the change. An `Err` leaves the draft as it was.
pub(crate) fn put_chunk(
    alloc: Global,
    draft: &mut Draft,
    directory: &Directory,
    place: u32,
    chunk: &Chunk,
) -> Result<(), Mem>
    ensures ok { OnOk result (draft.new.change ≡ with_delta draft.old.change (chunk_of_directory directory.now place chunk.now)) }
    ensures err { OnErr result (draft.new.change ≡ draft.old.change) }
    ensures growth { delta_bytes draft.new.change.deltas ≤ delta_bytes draft.old.change.deltas + 528 }
{
    let number = directory.opened.number_at((place / CHUNKS) as usize);
    draft.put_chunk(alloc, BlockNo(number), place % CHUNKS, chunk)
}
