//! The laws of a log on a disk that crashes, by what was written since the last flush.
ghost use Rattle.std.specs.Prelude.{◌≡◌, ◌⊎◌, ◌<◌, ℕ, List, [], ◌∷◌, ◌++◌, take, Contains};
ghost use Rattle.lufs_base.specs.Layout.{ring_of, header_sector, ring_place};
ghost use Rattle.lufs_base.specs.declared.geometry.Geometry.{Geometry};
ghost use Rattle.volume_model.specs.declared.device_call.DeviceCall.{DeviceCall};
ghost use Rattle.volume_model.specs.declared.log.Header.{Header};
ghost use Rattle.volume_model.specs.declared.log.Tx.{Tx};
ghost use Rattle.volume_model.specs.Crash.{Record, Outcome, kept_at, written_to, written_since};
ghost use Rattle.volume_model.specs.Format.{Image};
ghost use Rattle.volume_model.specs.Log.{header_bytes, MayBeHeader};
ghost use Rattle.log_laws.specs.LogOnImage.{HasLog, WritesNext, tx_write, IsInOneTurn};
ghost use Rattle.log_laws.specs.LogRing.{AreNext};
ghost use Rattle.log_laws.specs.TxsInRing.{trimmed};

/// What was written to the ring, as the calls go on.
pub fn ring_writes()
    // Nothing.
    ensures none { (g : Geometry) (h : Header) (txs more : List Tx) (written : ℕ → List (List ℕ))
        → ((place : ℕ) (s : List ℕ) → place < ring_of g → Contains (written (ring_place g place)) s → ⊥) → WritesNext g h txs more written }
    // Some sectors of a transaction that is to follow.
    ensures tx { (g : Geometry) (h : Header) (txs front back : List Tx) (tx : Tx) (i n : ℕ) → AreNext g h txs (front ++ tx ∷ back) → h.head < ring_of g
        → IsInOneTurn g tx i n → WritesNext g h txs (front ++ tx ∷ back) (λ k. written_to k (tx_write g h.epoch tx i n ∷ [])) }
    // What two lists of calls wrote, and what the first of some calls wrote.
    ensures both { (g : Geometry) (h : Header) (txs more : List Tx) (calls others : List DeviceCall) → WritesNext g h txs more (λ k. written_to k calls)
        → WritesNext g h txs more (λ k. written_to k others) → WritesNext g h txs more (λ k. written_to k (calls ++ others)) }
    ensures first { (g : Geometry) (h : Header) (txs more : List Tx) (calls : List DeviceCall) (n : ℕ) → WritesNext g h txs more (λ k. written_to k calls)
        → WritesNext g h txs more (λ k. written_to k (take n calls)) }
    // More transactions are to be written after them.
    ensures seal { (g : Geometry) (h : Header) (txs more later : List Tx) (written : ℕ → List (List ℕ)) → AreNext g h txs more
        → WritesNext g h txs more written → WritesNext g h txs (more ++ later) written }
{}

/// The log that a crash leaves, whatever else was being written outside of it.
pub fn crashed_logs()
    // While transactions were being written.
    ensures append { (g : Geometry) (h : Header) (r : Record) (n : ℕ) (image : Image) (txs more : List Tx) → HasLog g h (kept_at r n) txs more
        → WritesNext g h txs more (written_since r n) → ((s : List ℕ) → Contains (written_since r n (header_sector g)) s → ⊥)
        → Outcome r n image → HasLog g h image txs more }
    // While a header that trims was being written too.
    ensures trim { (g : Geometry) (h : Header) (r : Record) (n : ℕ) (image : Image) (front rest more : List Tx) → HasLog g h (kept_at r n) (front ++ rest) more
        → WritesNext g h (front ++ rest) more (written_since r n) → MayBeHeader g (trimmed g h front)
        → ((s : List ℕ) → Contains (written_since r n (header_sector g)) s → s ≡ header_bytes (trimmed g h front))
        → Outcome r n image → HasLog g h image (front ++ rest) more ⊎ HasLog g (trimmed g h front) image rest more }
{}
