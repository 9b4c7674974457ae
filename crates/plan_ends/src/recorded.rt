//! Whether all of a change may be recorded.
ghost use Rattle.std.specs.Prelude.{◌≡◌, ◌↔◌, ◌==◌, ◌/◌, ◌&&◌, ℕ, true, length};
ghost use Rattle.std.specs.List.{list_all, list_any};
ghost use Rattle.lufs_base.specs.Layout.{IsGeometry};
ghost use Rattle.volume_model.specs.Format.{is_body};
ghost use Rattle.draft_laws.specs.Drafts.{IsRecorded};
ghost use Rattle.plan_ends.specs.Tests.{cancels, frees_as_metadata, are_cancels_freed, are_freed_cancelled, is_in_block, passes};

use log_format::are_loggable;
use lufs_base::{BLOCK, BlockNo, Delta, Geometry, SECTOR};
use meta_store::{Change, Freed, RawWrite};

// Whether a delta cancels block b.
fn cancels(deltas: &[Delta], b: u64) -> bool
    ensures { result ≡ cancels deltas.now b }
{
    deltas.iter().any(|delta| delta.kind.is_cancel() && delta.home / BLOCK as u64 == b)
}

// Whether block b is freed, and is said to have held metadata.
fn frees_as_metadata(freed: &[Freed], b: u64) -> bool
    ensures { result ≡ frees_as_metadata freed.now b }
{
    freed
        .iter()
        .any(|freed| u64::from(freed.block.0) == b && freed.meta)
}

// Whether each block that is cancelled is freed, and held metadata.
fn are_cancels_freed(deltas: &[Delta], freed: &[Freed]) -> bool
    ensures { result ≡ are_cancels_freed deltas.now freed.now }
{
    deltas.iter().all(|delta| {
        !delta.kind.is_cancel() || frees_as_metadata(freed, delta.home / BLOCK as u64)
    })
}

// Whether each block that is freed and held metadata is cancelled.
fn are_freed_cancelled(deltas: &[Delta], freed: &[Freed]) -> bool
    ensures { result ≡ are_freed_cancelled deltas.now freed.now }
{
    freed.iter().all(|freed| !freed.meta || cancels(deltas, u64::from(freed.block.0)))
}

// Whether the volume has a block of this number, and it is a body block.
fn is_body_number(g: &Geometry, b: u64) -> bool
    requires { IsGeometry g.now }
    ensures { result ≡ is_body g.now b }
{
    b < u64::from(g.total()) && g.is_body(BlockNo(b as u32))
}

// Whether the raw write is of whole sectors of one body block.
fn is_in_block(g: &Geometry, write: &RawWrite) -> bool
    requires { IsGeometry g.now }
    ensures { result ≡ is_in_block g.now write.now }
{
    let size = write.bytes.len();
    0 < size
        && size % SECTOR == 0
        && size <= BLOCK - SECTOR * (write.first % 8) as usize
        && is_body_number(g, write.first / 8)
}

// Whether each raw write is of whole sectors of one body block.
fn are_in_blocks(g: &Geometry, raw: &[RawWrite]) -> bool
    requires { IsGeometry g.now }
    ensures { result ≡ list_all (is_in_block g.now) raw.now }
{
    raw.iter().all(|write| is_in_block(g, write))
}

// The tests besides that of its deltas, one after the other.
fn passes(g: &Geometry, change: &Change) -> bool
    requires { IsGeometry g.now }
    ensures { result ≡ passes g.now change.now }
{
    let deltas = change.deltas.as_slice();
    are_cancels_freed(deltas, change.freed.as_slice())
        && are_freed_cancelled(deltas, change.freed.as_slice())
        && are_in_blocks(g, change.raw.as_slice())
}

/// Whether all of the change may be recorded: its deltas may be those of one transaction, the blocks cancelled are just
/// those freed that held metadata, and each raw write is of whole sectors of one body block. A change that a draft
/// makes always may; this is the test for a store that doesn't tell its content.
pub fn is_recorded(g: &Geometry, change: &Change) -> bool
    requires { IsGeometry g.now }
    ensures { (result ≡ true) ↔ IsRecorded g.now change.now }
{
    are_loggable(g, change.deltas.as_slice()) && passes(g, change)
}
