//! The laws of what a mount lists.
ghost use Rattle.std.specs.Prelude.{◌≡◌, ◌<◌, ◌≤◌, ℕ, suc, ◌+◌, ◌^◌, List, length, Some, All};
ghost use Rattle.lufs_base.specs.Layout.{ring_of, header_sector};
ghost use Rattle.lufs_base.specs.declared.geometry.Geometry.{Geometry};
ghost use Rattle.volume_model.specs.declared.log.Header.{Header};
ghost use Rattle.volume_model.specs.declared.log.Tx.{Tx};
ghost use Rattle.volume_model.specs.Format.{Image, sector};
ghost use Rattle.volume_model.specs.Log.{header_of, Listed, WithHeader, log_of, transactions_from, ring_from};
ghost use Rattle.volume_model.specs.Sound.{HasNoLaterIdent};
ghost use Rattle.log_laws.specs.LogOnImage.{ring_sector, HasLog, MountsSome};
ghost use Rattle.log_laws.specs.LogRing.{BeginsWith, AreNext, IsWrittenOrStale, ListsSome};
ghost use Rattle.log_laws.specs.StaleSectors.{IsStaleAt};
ghost use Rattle.log_laws.specs.TxsInRing.{sectors_of_txs, StandsAt, IsWrittenUpTo};

/// A ring lists just the transactions that stand written from its head on. The one sector after them decides it.
pub fn untrimmed_are_listed()
    // A stale sector after the transactions, or the ring's end, ends the list.
    ensures stale { (g : Geometry) (h : Header) (at_place : ℕ → List ℕ) (txs : List Tx)
        → BeginsWith g h at_place txs → IsStaleAt g h at_place (sectors_of_txs txs)
        → transactions_from g (ring_of g) h (suc (ring_of g)) h.tid 0 (ring_from (ring_of g) h.head at_place) ≡ Listed txs }
    // So does a further transaction that is written in part, before a stale sector.
    ensures part { (g : Geometry) (h : Header) (at_place : ℕ → List ℕ) (txs : List Tx) (tx : Tx) (n : ℕ)
        → BeginsWith g h at_place txs → StandsAt g h.head (sectors_of_txs txs) (h.tid + length txs) tx → tx.tid < 2 ^ 32
        → sectors_of_txs txs + n ≤ ring_of g → n < tx.sectors → IsWrittenUpTo g h.epoch at_place n tx → IsStaleAt g h at_place (sectors_of_txs txs + n)
        → transactions_from g (ring_of g) h (suc (ring_of g)) h.tid 0 (ring_from (ring_of g) h.head at_place) ≡ Listed txs }
    // Of transactions that were being written when the disk crashed, those up to the first that isn't whole are listed.
    ensures crash { (g : Geometry) (h : Header) (at_place : ℕ → List ℕ) (txs more : List Tx)
        → BeginsWith g h at_place txs → AreNext g h txs more → All (IsWrittenOrStale g h at_place) more
        → IsStaleAt g h at_place (sectors_of_txs txs + sectors_of_txs more) → ListsSome g h at_place txs more }
{}

/// What the log of an image is, by its header and its ring.
pub fn mount_lists()
    ensures ring { (g : Geometry) (h : Header) (image : Image) (txs : List Tx) → header_of g (sector image (header_sector g)) ≡ Some h
        → transactions_from g (ring_of g) h (suc (ring_of g)) h.tid 0 (ring_from (ring_of g) h.head (ring_sector g image)) ≡ Listed txs
        → log_of g image ≡ WithHeader h (Listed txs) }
    ensures log { (g : Geometry) (h : Header) (image : Image) (txs more : List Tx) → HasLog g h image txs more → MountsSome g h image txs more }
    ensures idents { (g : Geometry) (h : Header) (image : Image) (txs more : List Tx) → HasLog g h image txs more → HasNoLaterIdent g image }
{}
