//! What a change lays over one block.
ghost use Rattle.std.specs.Prelude.{◌≡◌, ◌∷◌, [], length, All};
ghost use Rattle.meta_store.specs.Laid.{laid_block};
ghost use Rattle.meta_store.specs.Changes.{deltas_on};
ghost use Rattle.meta_draft.specs.OnBlock.{IsInOneBlock, raw_on};
ghost use Rattle.volume_model.specs.Log.{lays_on};

use lufs_base::{BLOCK, BlockNo, Delta, DeltaKind, SECTOR};
use meta_store::{RawWrite, lay_delta};

// Makes a raw write, if it lies in block `b`.
fn lay_one_raw(write: &RawWrite, b: BlockNo, block: &mut [u8])
    requires size { length block.old ≡ 4096 }
    requires inside { IsInOneBlock write.now }
    ensures { block.new ≡ raw_on b.0 (write.now ∷ []) block.old }
{
    if u64::from(b.0) == write.first / 8 {
        let at = SECTOR * (write.first % 8) as usize;
        let end = at + write.bytes.len();
        block[at..end].copy_from_slice(write.bytes.as_slice());
    }
}

/// Makes the raw writes that lie in block `b`, in order.
pub(crate) fn lay_raw(raw: &[RawWrite], b: BlockNo, block: &mut [u8])
    requires size { length block.old ≡ 4096 }
    requires inside { All IsInOneBlock raw.now }
    ensures { block.new ≡ raw_on b.0 raw.now block.old }
{
    for write in raw {
        lay_one_raw(write, b, block);
    }
}

// Whether the delta lays bytes over block `b`.
fn lays_on(delta: &Delta, b: BlockNo) -> bool
    ensures { result ≡ lays_on b.0 delta.now }
{
    delta.home / BLOCK as u64 == u64::from(b.0) && !matches!(delta.kind, DeltaKind::Cancel)
}

// Lays a delta, if it lies on block `b`.
fn lay_one(delta: &Delta, b: BlockNo, block: &mut [u8])
    requires { length block.old ≡ 4096 }
    ensures { block.new ≡ laid_block (deltas_on (delta.now ∷ []) b.0) block.old }
{
    if lays_on(delta, b) {
        lay_delta(delta, block);
    }
}

/// Lays the deltas that lie on block `b`, in order.
pub(crate) fn lay_on(deltas: &[Delta], b: BlockNo, block: &mut [u8])
    requires { length block.old ≡ 4096 }
    ensures { block.new ≡ laid_block (deltas_on deltas.now b.0) block.old }
{
    for delta in deltas {
        lay_one(delta, b, block);
    }
}
