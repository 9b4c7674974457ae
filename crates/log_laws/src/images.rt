//! The laws of a log on an image, whose writes a crash may cut: each sector is old, or new.
ghost use Rattle.std.specs.Prelude.{◌≡◌, ◌⊎◌, ◌<◌, ◌≤◌, ℕ, ◌+◌, ◌*◌, ◌%◌, List, [], ◌∷◌, ◌++◌, length, Some};
ghost use Rattle.lufs_base.specs.Layout.{IsGeometry, ring_of, header_sector, ring_place};
ghost use Rattle.lufs_base.specs.declared.geometry.Geometry.{Geometry};
ghost use Rattle.volume_model.specs.declared.log.Header.{Header};
ghost use Rattle.volume_model.specs.declared.log.Tx.{Tx};
ghost use Rattle.volume_model.specs.Crash.{IsPartlyWritten, image_after};
ghost use Rattle.volume_model.specs.Format.{Image, sector, sectors_of, sectors_from, overwritten};
ghost use Rattle.volume_model.specs.Log.{header_of, header_bytes, MayBeHeader, tx_bytes, log_of};
ghost use Rattle.log_laws.specs.LogOnImage.{ring_sector, HasLog, tx_write, IsInOneTurn, HaveSameLog};
ghost use Rattle.log_laws.specs.LogRing.{AreNext, IsLogRing};
ghost use Rattle.log_laws.specs.StaleSectors.{HasNoIdentAbove};
ghost use Rattle.log_laws.specs.TxsInRing.{IsWritten, IsWrittenUpTo, trimmed};

/// The write of some sectors of a transaction that is being written.
pub fn tx_writes()
    // The ring, the header and so the log stay, whatever the write left.
    ensures ring { (g : Geometry) (h : Header) (old new : Image) (txs front back : List Tx) (tx : Tx) (i n : ℕ)
        → IsLogRing g h (ring_sector g old) txs (front ++ tx ∷ back) → 512 * ring_place g (ring_of g) ≤ length old → IsInOneTurn g tx i n
        → IsPartlyWritten (ring_place g ((tx.first + i) % ring_of g)) (sectors_from (tx_bytes tx.deltas tx.tid h.epoch) i n) old new
        → IsLogRing g h (ring_sector g new) txs (front ++ tx ∷ back) }
    ensures header { (g : Geometry) (h : Header) (old new : Image) (txs front back : List Tx) (tx : Tx) (i n : ℕ)
        → AreNext g h txs (front ++ tx ∷ back) → 512 * ring_place g (ring_of g) ≤ length old → IsInOneTurn g tx i n
        → IsPartlyWritten (ring_place g ((tx.first + i) % ring_of g)) (sectors_from (tx_bytes tx.deltas tx.tid h.epoch) i n) old new
        → sector new (header_sector g) ≡ sector old (header_sector g) }
    ensures log { (g : Geometry) (h : Header) (old new : Image) (txs front back : List Tx) (tx : Tx) (i n : ℕ)
        → HasLog g h old txs (front ++ tx ∷ back) → 512 * ring_place g (ring_of g) ≤ length old → IsInOneTurn g tx i n
        → IsPartlyWritten (ring_place g ((tx.first + i) % ring_of g)) (sectors_from (tx_bytes tx.deltas tx.tid h.epoch) i n) old new
        → HasLog g h new txs (front ++ tx ∷ back) }
    // Done after those before them, they stand written too.
    ensures done { (g : Geometry) (h : Header) (base : Image) (txs front back : List Tx) (tx : Tx) (i n : ℕ)
        → IsLogRing g h (ring_sector g base) txs (front ++ tx ∷ back)
        → 512 * ring_place g (ring_of g) ≤ length base → IsInOneTurn g tx i n → IsWrittenUpTo g h.epoch (ring_sector g base) i tx
        → IsWrittenUpTo g h.epoch (ring_sector g (image_after base (tx_write g h.epoch tx i n ∷ []))) (i + n) tx }
    // The first of the transactions that stands whole is one of the log.
    ensures whole { (g : Geometry) (h : Header) (image : Image) (txs more : List Tx) (tx : Tx) → HasLog g h image txs (tx ∷ more)
        → IsWritten g h.epoch (ring_sector g image) tx → HasLog g h image (txs ++ tx ∷ []) more }
{}

/// The write of a header that trims, and of one of a later epoch.
pub fn header_writes()
    // The ring stays, and the header is the old one or this one, whatever the write left.
    ensures ring { (g : Geometry) (h : Header) (old new : Image) (place : ℕ) → 512 * (header_sector g + 1) ≤ length old
        → IsPartlyWritten (header_sector g) (header_bytes h) old new → ring_sector g new place ≡ ring_sector g old place }
    ensures header { (g : Geometry) (h : Header) (old new : Image) → 512 * (header_sector g + 1) ≤ length old → MayBeHeader g h
        → IsPartlyWritten (header_sector g) (header_bytes h) old new
        → (sector new (header_sector g) ≡ sector old (header_sector g)) ⊎ (header_of g (sector new (header_sector g)) ≡ Some h) }
    // A trim that is done leaves the rest.
    ensures trim { (g : Geometry) (h : Header) (base : Image) (front rest more : List Tx) → HasLog g h base (front ++ rest) more
        → 512 * (header_sector g + 1) ≤ length base → MayBeHeader g (trimmed g h front)
        → HasLog g (trimmed g h front) (overwritten base (header_sector g) (header_bytes (trimmed g h front))) rest more }
    // Cut by a crash, it leaves all or the rest.
    ensures trim_cut { (g : Geometry) (h : Header) (old new : Image) (front rest more : List Tx) → HasLog g h old (front ++ rest) more
        → 512 * (header_sector g + 1) ≤ length old → MayBeHeader g (trimmed g h front)
        → IsPartlyWritten (header_sector g) (header_bytes (trimmed g h front)) old new
        → HasLog g h new (front ++ rest) more ⊎ HasLog g (trimmed g h front) new rest more }
    // An epoch above all idents of the ring leaves an empty log.
    ensures epoch { (g : Geometry) (h : Header) (epoch : ℕ) (base : Image) → IsGeometry g → 512 * (header_sector g + 1) ≤ length base → MayBeHeader g h
        → HasNoIdentAbove g epoch (ring_sector g base) → epoch < h.epoch → HasLog g h (overwritten base (header_sector g) (header_bytes h)) [] [] }
    // Cut by a crash, it leaves the old log or an empty one.
    ensures epoch_cut { (g : Geometry) (h : Header) (epoch : ℕ) (old new : Image) → IsGeometry g → 512 * (header_sector g + 1) ≤ length old → MayBeHeader g h
        → HasNoIdentAbove g epoch (ring_sector g old) → epoch < h.epoch → IsPartlyWritten (header_sector g) (header_bytes h) old new
        → HaveSameLog g old new ⊎ HasLog g h new [] [] }
{}

/// Writes beside the log leave it.
pub fn writes_beside()
    ensures same { (g : Geometry) (first : ℕ) (bytes : List ℕ) (old new : Image) → length bytes % 512 ≡ 0 → 512 * first + length bytes ≤ length old
        → (first + sectors_of bytes ≤ header_sector g) ⊎ (ring_place g (ring_of g) ≤ first) → IsPartlyWritten first bytes old new → HaveSameLog g old new }
    ensures mount { (g : Geometry) (before after : Image) → HaveSameLog g before after → log_of g after ≡ log_of g before }
    ensures log { (g : Geometry) (h : Header) (before after : Image) (txs more : List Tx) → HaveSameLog g before after
        → HasLog g h before txs more → HasLog g h after txs more }
{}
