// One more delta, laid over the content that a change has made so far.
ghost use Rattle.std.specs.Prelude.{◌≡◌, ◌≤◌, ℕ, ◌*◌, true, false, length, All};
ghost use Rattle.lufs_base.specs.Layout.{blocks_of};
ghost use Rattle.lufs_base.specs.declared.geometry.Geometry.{Geometry};
ghost use Rattle.lufs_base.specs.declared.delta.Delta.{Delta};
ghost use Rattle.volume_model.specs.Format.{Image, sectors_of};
ghost use Rattle.volume_model.specs.Log.{AreLoggable, may_be_logged, logged_len, is_cancel};
ghost use Rattle.volume_model.specs.Sound.{Reading, IsLaid};
ghost use Rattle.meta_store.specs.Suited.{suits};
ghost use Rattle.meta_store.specs.declared.change.Change.{Change};
ghost use Rattle.meta_store.specs.Conditions.{IsInBlock};
ghost use Rattle.meta_store.specs.Merged.{stands_beside};
ghost use Rattle.meta_draft.specs.Drafted.{drafted_blocks, with_delta};
ghost use Rattle.draft_laws.specs.Laying.{with_laid};

/// A delta that is merged into those of a change lays its bytes over the part of one block, and leaves all else.
pub fn one_delta_laid()
    ensures { (g : Geometry) (base : Image) (change : Change) (d : Delta) → 8 * blocks_of g ≤ sectors_of base → AreLoggable g change.deltas → All (IsInBlock g) change.raw
        → All (λ older. stands_beside d older ≡ true) change.deltas → may_be_logged g d.kind d.home d.len ≡ true → length d.bytes ≡ logged_len d.kind d.len → is_cancel d.kind ≡ false
        → drafted_blocks (with_delta change d) base ≡ with_laid (drafted_blocks change base) d }
{}

/// Deltas that lay bytes and suit one reading stand beside each other, where its claims are laid.
pub fn suited_beside()
    ensures { (g : Geometry) (r : Reading) (d older : Delta) → IsLaid g r → suits g r d ≡ true → is_cancel d.kind ≡ false → suits g r older ≡ true → is_cancel older.kind ≡ false
        → stands_beside d older ≡ true }
{}
