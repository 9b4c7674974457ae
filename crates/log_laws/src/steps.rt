//! The laws of a journal's steps: they keep its ring, in the present image and in each that a crash may leave.
ghost use Rattle.std.specs.Prelude.{◌≡◌, ◌⊎◌, ◌<◌, ◌≤◌, ℕ, ◌+◌, ◌%◌, ◌^◌, List, [], ◌∷◌, ◌++◌, length};
ghost use Rattle.lufs_base.specs.Layout.{IsGeometry, ring_of};
ghost use Rattle.lufs_base.specs.declared.geometry.Geometry.{Geometry};
ghost use Rattle.volume_model.specs.declared.log.Header.{Header};
ghost use Rattle.volume_model.specs.declared.log.Tx.{Tx};
ghost use Rattle.volume_model.specs.Log.{trailer_of};
ghost use Rattle.log_laws.specs.LogRing.{IsLogRing, IsSectorOfNext, ListsSome};
ghost use Rattle.log_laws.specs.TxsInRing.{sectors_of_txs, StandsAt, IsWritten, trimmed};

/// The steps of a journal, by what stands at the places of its ring.
pub fn ring_steps()
    // A mount lists the untrimmed transactions, and of those that were being written the ones up to the first that isn't whole.
    ensures lists { (g : Geometry) (h : Header) (at_place : ℕ → List ℕ) (txs more : List Tx) → IsLogRing g h at_place txs more → ListsSome g h at_place txs more }
    // With a header of a later epoch the ring has no transaction.
    ensures new { (g : Geometry) (h : Header) (at_place : ℕ → List ℕ) → IsGeometry g → h.epoch < 2 ^ 32 → h.head < ring_of g → h.tid ≤ 2 ^ 32
        → ((place : ℕ) → place < ring_of g → (trailer_of (at_place place)).ident < h.epoch) → IsLogRing g h at_place [] [] }
    // One more transaction is to be written.
    ensures seal { (g : Geometry) (h : Header) (at_place : ℕ → List ℕ) (txs more : List Tx) (tx : Tx) → IsLogRing g h at_place txs more
        → StandsAt g h.head (sectors_of_txs txs + sectors_of_txs more) (h.tid + length txs + length more) tx → tx.tid < 2 ^ 32
        → sectors_of_txs txs + sectors_of_txs more + tx.sectors ≤ ring_of g → IsLogRing g h at_place txs (more ++ tx ∷ []) }
    // Each sector of the ring stays, or is now as it is to be written.
    ensures write { (g : Geometry) (h : Header) (before after : ℕ → List ℕ) (txs more : List Tx) → IsLogRing g h before txs more
        → ((m : ℕ) → m < ring_of g → (after ((h.head + m) % ring_of g) ≡ before ((h.head + m) % ring_of g)) ⊎ IsSectorOfNext h txs more m (after ((h.head + m) % ring_of g)))
        → IsLogRing g h after txs more }
    ensures same { (g : Geometry) (h : Header) (before after : ℕ → List ℕ) (txs more : List Tx) → ((place : ℕ) → place < ring_of g → after place ≡ before place)
        → IsLogRing g h before txs more → IsLogRing g h after txs more }
    // The first of those that were being written stands whole.
    ensures publish { (g : Geometry) (h : Header) (at_place : ℕ → List ℕ) (txs more : List Tx) (tx : Tx) → IsLogRing g h at_place txs (tx ∷ more)
        → IsWritten g h.epoch at_place tx → IsLogRing g h at_place (txs ++ tx ∷ []) more }
    // By the header that names the first of the rest, it is the ring of the rest.
    ensures trim { (g : Geometry) (h : Header) (at_place : ℕ → List ℕ) (front rest more : List Tx)
        → IsLogRing g h at_place (front ++ rest) more → IsLogRing g (trimmed g h front) at_place rest more }
{}
