//! The laws of what a crash may leave, and of what a replay gives.
ghost use Rattle.std.specs.Prelude.{◌≡◌, ◌≤◌, ◌<◌, ◌↔◌, ℕ, ◌+◌, ◌*◌, [], List, length, take, slice_index, Some, false};
ghost use Rattle.std.specs.List.{list_any};
ghost use Rattle.lufs_base.specs.declared.geometry.Geometry.{Geometry};
ghost use Rattle.volume_model.specs.declared.device_call.DeviceCall.{DeviceCall};
ghost use Rattle.volume_model.specs.declared.device_call.DeviceCall.TheVariants.{Write, Flush};
ghost use Rattle.volume_model.specs.declared.log.Header.{Header};
ghost use Rattle.volume_model.specs.declared.log.Tx.{Tx};
ghost use Rattle.volume_model.specs.Format.{Image, sectors_from, overwritten};
ghost use Rattle.volume_model.specs.Crash.{Record, with_call, with_calls, up_to, IsOfSectors, Outcome, IsPartlyWritten, IsSettled, present_of, record_from, is_flush};
ghost use Rattle.volume_model.specs.Log.{WithHeader, Listed, log_of, recovered, replayed, recovered_byte, live_deltas, IsUncovered};

/// What a crash may leave, and what stands there, call by call.
pub fn outcomes_by_call()
    // A write is laid over what stood there, and a flush leaves it.
    ensures last_write { (r : Record) (first : ℕ) (bytes : List ℕ) → present_of (with_call r (Write first bytes)) ≡ overwritten (present_of r) first bytes }
    ensures last_flush { (r : Record) → present_of (with_call r Flush) ≡ present_of r }
    // A crash may leave all that was written by then.
    ensures present { (r : Record) (n : ℕ) → IsOfSectors r → Outcome r n (present_of (up_to r n)) }
    // Where no write is after the last flush, it leaves nothing else.
    ensures settled { (r : Record) (n : ℕ) (image : Image) → IsOfSectors r → IsSettled (up_to r n) → Outcome r n image ↔ (image ≡ present_of (up_to r n)) }
    // After one more write it leaves what it could before, with any of the written sectors laid over it.
    ensures write { (r : Record) (first : ℕ) (bytes : List ℕ) (image : Image) → IsOfSectors (with_call r (Write first bytes))
        → Outcome (with_call r (Write first bytes)) (length r.calls + 1) image ↔ ((old : Image) × Outcome r (length r.calls) old × IsPartlyWritten first bytes old image) }
    // After one more flush it leaves the present content.
    ensures flush { (r : Record) (image : Image) → IsOfSectors (with_call r Flush) → Outcome (with_call r Flush) (length r.calls + 1) image ↔ (image ≡ present_of r) }
{}

/// What a crash may leave by one record and by another.
pub fn outcomes_by_record()
    // Later calls change nothing of an earlier moment.
    ensures more_calls { (r : Record) (more : List DeviceCall) (n : ℕ) (image : Image) → n ≤ length r.calls → Outcome (with_calls r more) n image ↔ Outcome r n image }
    // Where no write is after the last flush, the record may begin anew with what stands there.
    ensures anew { (r : Record) (n m : ℕ) (image : Image) → IsOfSectors r → IsSettled (up_to r n) → Outcome r (n + m) image ↔ Outcome (record_from r n) m image }
    // What a crash left, and then a second one before the next flush, a single crash could have left.
    ensures again { (r : Record) (left : Image) (more : List DeviceCall) (m : ℕ) (image : Image) → Outcome r (length r.calls) left → list_any is_flush (take m more) ≡ false
        → Outcome (record { opening = left; calls = more }) m image → Outcome (with_calls r more) (length r.calls + m) image }
{}

/// What a replay gives.
pub fn replays()
    ensures size { (image : Image) (txs : List Tx) → length (replayed image txs) ≡ length image }
    ensures byte { (image : Image) (txs : List Tx) (address : ℕ) → address < length image → slice_index (replayed image txs) address ≡ recovered_byte image (live_deltas txs) address }
    // A block that no delta touches stays.
    ensures untouched { (image : Image) (txs : List Tx) (b : ℕ) → IsUncovered b txs → sectors_from (replayed image txs) (8 * b) 8 ≡ sectors_from image (8 * b) 8 }
    // A log with no transaction leaves the image as it is.
    ensures nothing { (g : Geometry) (image : Image) (h : Header) → log_of g image ≡ WithHeader h (Listed []) → recovered g image ≡ Some image }
{}
