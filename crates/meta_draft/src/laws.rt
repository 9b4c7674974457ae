//! What deltas lay that were merged, how many bytes they take, and what a change lays over a block.
ghost use Rattle.std.specs.Prelude.{◌≡◌, ◌≤◌, ◌+◌, ◌*◌, ℕ, ◌∷◌, [], List, All, length, false, true};
ghost use Rattle.lufs_base.specs.declared.geometry.Geometry.{Geometry};
ghost use Rattle.lufs_base.specs.declared.delta.Delta.{Delta};
ghost use Rattle.volume_model.specs.Format.{Image, block};
ghost use Rattle.volume_model.specs.Log.{AreLoggable, may_be_logged, logged_len, is_cancel, delta_bytes};
ghost use Rattle.meta_store.specs.declared.change.Change.{Change};
ghost use Rattle.meta_store.specs.Laid.{laid_over};
ghost use Rattle.meta_store.specs.Changes.{deltas_on};
ghost use Rattle.meta_store.specs.Merged.{stands_beside, merged};
ghost use Rattle.meta_draft.specs.Drafted.{drafted_blocks};
ghost use Rattle.meta_draft.specs.OnBlock.{IsInOneBlock, changed_block};

/// The deltas of a transaction with one more, which all stand beside it, lay what they lay without it, and then
/// that one.
pub fn merged_laid()
    ensures { (g : Geometry) (deltas : List Delta) (d : Delta) (image : Image) → AreLoggable g deltas → may_be_logged g d.kind d.home d.len ≡ true → length d.bytes ≡ logged_len d.kind d.len
        → All (λ older. stands_beside d older ≡ true) deltas → is_cancel d.kind ≡ false
        → laid_over (deltas_on (merged deltas d)) image ≡ laid_over (deltas_on (d ∷ [])) (laid_over (deltas_on deltas) image) }
{}

/// Deltas with one more take at most the bytes of a log that they and that one take.
pub fn merged_bytes()
    ensures { (deltas : List Delta) (d : Delta) → delta_bytes (merged deltas d) ≤ delta_bytes deltas + delta_bytes (d ∷ []) }
{}

/// A block of an image with a change made to it has the raw writes and then the deltas of the change laid over it.
pub fn drafted_block()
    ensures { (change : Change) (image : Image) (b : ℕ) → 4096 * b + 4096 ≤ length image → All IsInOneBlock change.raw → drafted_blocks change image b ≡ changed_block change b (block image b) }
{}
