//! Deltas laid over the bytes of a block.
ghost use Rattle.std.specs.Prelude.{◌≡◌, ◌∷◌, [], length};
ghost use Rattle.volume_model.specs.Log.{byte_of};
ghost use Rattle.meta_store.specs.Laid.{laid_part, laid_block};

use lufs_base::{BLOCK, Delta, DeltaKind};

// The byte that a delta lays `i` bytes after its home.
fn byte_of(delta: &Delta, i: usize) -> Option<u8>
    ensures { result ≡ byte_of delta.now i }
{
    match delta.kind {
        DeltaKind::Zero => Some(0),
        DeltaKind::Cancel => None,
        _ => Some(delta.bytes.as_slice().get(i).copied().unwrap_or(0)),
    }
}

// Lays a delta over the part of its block that begins at its home.
fn lay_over_part(delta: &Delta, part: &mut [u8])
    ensures { part.new ≡ laid_part delta.now part.old }
{
    for (i, byte) in part.iter_mut().enumerate() {
        if let Some(laid) = byte_of(delta, i) {
            *byte = laid;
        }
    }
}

/// Lays a delta over its block. What reaches past the block isn't laid.
pub fn lay_delta(delta: &Delta, block: &mut [u8])
    requires { length block.old ≡ 4096 }
    ensures { block.new ≡ laid_block (delta.now ∷ []) block.old }
{
    let home = (delta.home % BLOCK as u64) as usize;
    let end = BLOCK.min(home + delta.len as usize);
    lay_over_part(delta, &mut block[home..end]);
}

// Lays deltas over their block, in order.
pub(crate) fn lay(deltas: &[Delta], block: &mut [u8])
    requires { length block.old ≡ 4096 }
    ensures { block.new ≡ laid_block deltas.now block.old }
{
    for delta in deltas {
        lay_delta(delta, block);
    }
}
