//! The laws of what is read of the log: what is written is read back.
ghost use Rattle.std.specs.Prelude.{◌≡◌, ◌<◌, ◌*◌, ◌^◌, ℕ, List, length, Some, true, All};
ghost use Rattle.lufs_base.specs.Fields.{AreBytes};
ghost use Rattle.lufs_base.specs.Layout.{IsGeometry};
ghost use Rattle.lufs_base.specs.declared.delta.Delta.{Delta};
ghost use Rattle.lufs_base.specs.declared.geometry.Geometry.{Geometry};
ghost use Rattle.volume_model.specs.declared.log.Header.{Header};
ghost use Rattle.volume_model.specs.Format.{sectors_in};
ghost use Rattle.volume_model.specs.Log.{header_of, header_bytes, MayBeHeader, belongs_to, payload_of, Whole, run_of, AreLoggable, tx_sectors, tx_row, tx_bytes};

/// A header reads as it was written.
pub fn header_read_back()
    ensures { (g : Geometry) (h : Header) → MayBeHeader g h → header_of g (header_bytes h) ≡ Some h }
{}

/// A sector that is a header is the one that this header is written as.
pub fn header_spelled_again()
    ensures { (g : Geometry) (h : Header) (sector : List ℕ) → AreBytes sector → length sector ≡ 512
        → header_of g sector ≡ Some h → header_bytes h ≡ sector }
{}

/// A transaction is read back from the sectors that it is written as: they have its trailer, and their
/// payload is a run that is whole, with the same deltas.
pub fn tx_read_back()
    ensures run { (g : Geometry) (deltas : List Delta) (tid ident : ℕ) → IsGeometry g → AreLoggable g deltas → tid < 2 ^ 32
        → run_of g tid (payload_of (sectors_in (tx_bytes deltas tid ident))) ≡ Whole deltas }
    ensures trailers { (g : Geometry) (deltas : List Delta) (tid ident : ℕ) → AreLoggable g deltas → tid < 2 ^ 32 → ident < 2 ^ 32
        → All (λ s. belongs_to ident tid s ≡ true) (sectors_in (tx_bytes deltas tid ident)) }
    ensures row { (g : Geometry) (deltas : List Delta) (tid ident : ℕ) → AreLoggable g deltas
        → sectors_in (tx_bytes deltas tid ident) ≡ tx_row deltas tid ident }
    ensures size { (g : Geometry) (deltas : List Delta) (tid ident : ℕ) → AreLoggable g deltas
        → length (tx_bytes deltas tid ident) ≡ 512 * tx_sectors deltas }
{}

/// The deltas of a run that is whole meet the table and the order of the log.
pub fn whole_run_is_loggable()
    ensures { (g : Geometry) (tid : ℕ) (payload : List ℕ) (deltas : List Delta) → run_of g tid payload ≡ Whole deltas → AreLoggable g deltas }
{}
