//! Laws of merged deltas: they may be those of one transaction.
ghost use Rattle.std.specs.Prelude.{◌≡◌, List, length, true};
ghost use Rattle.lufs_base.specs.declared.geometry.Geometry.{Geometry};
ghost use Rattle.lufs_base.specs.declared.delta.Delta.{Delta};
ghost use Rattle.volume_model.specs.Log.{AreLoggable, may_be_logged, logged_len};
ghost use Rattle.meta_store.specs.Merged.{merged, all_merged};

/// Deltas that may be those of one transaction stay so with one more that may be logged, and with those of
/// another transaction.
pub fn merged_is_loggable()
    ensures one { (g : Geometry) (deltas : List Delta) (d : Delta) → AreLoggable g deltas → may_be_logged g d.kind d.home d.len ≡ true → length d.bytes ≡ logged_len d.kind d.len
        → AreLoggable g (merged deltas d) }
    ensures all { (g : Geometry) (deltas more : List Delta) → AreLoggable g deltas → AreLoggable g more → AreLoggable g (all_merged deltas more) }
{}
