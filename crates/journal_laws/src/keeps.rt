//! The steps of a journal keep it safe, and what they give.
ghost use Rattle.std.specs.Prelude.{◌≡◌, ◌⊎◌, ◌<◌, ℕ, ◌+◌, ◌*◌, ◌/◌, true, false, List, slice_index, unwrap_or};
ghost use Rattle.lufs_base.specs.declared.delta.Delta.{Delta};
ghost use Rattle.lufs_base.specs.declared.geometry.Geometry.{Geometry};
ghost use Rattle.volume_model.specs.declared.device_call.DeviceCall.{DeviceCall};
ghost use Rattle.volume_model.specs.Crash.{Record, with_calls, present_of};
ghost use Rattle.volume_model.specs.Format.{Image};
ghost use Rattle.journal_model.specs.Batches.{is_held};
ghost use Rattle.journal_model.specs.BlockRoles.{Role, FileBytes, Roles, Move, moved, moved_from, is_carried, is_metadata, is_claimed};
ghost use Rattle.journal_model.specs.Changes.{Change, MovesDeltas};
ghost use Rattle.journal_model.specs.Journals.{Live, Journal};
ghost use Rattle.journal_model.specs.LaidBlocks.{given_by, is_cancelled_in, replayed_byte};
ghost use Rattle.journal_model.specs.SafeImages.{GivesMetadata};
ghost use Rattle.journal_model.specs.Safety.{IsSafe};
ghost use Rattle.journal_model.specs.Steps.{Step};
ghost use Rattle.journal_model.specs.Versions.{Version, Running, txs_of};

/// Each step keeps a journal safe.
pub fn steps_keep()
    ensures { (g : Geometry) (roles : Roles) (r : Record) (j k : Journal) (move : Move) (calls : List DeviceCall) → IsSafe g roles r j
        → Step g roles (present_of r) j move calls k → IsSafe g (moved move roles) (with_calls r calls) k }
{}

/// A call of a step that fails is listed, or not. The journal is then safe as it was before the step, or as it is after it.
pub fn failed_steps()
    ensures { (g : Geometry) (roles : Roles) (r after : Record) (j k : Journal) (move : Move) (calls : List DeviceCall) → IsSafe g roles r j
        → Step g roles (present_of r) j move calls k → (after ≡ r) ⊎ (after ≡ with_calls r calls)
        → IsSafe g roles after j ⊎ IsSafe g (moved move roles) after k }
{}

/// After a step each version has the metadata of the one that became it, but the running one after a change.
pub fn versions_stay()
    ensures { (g : Geometry) (roles : Roles) (r : Record) (j k : Journal) (move : Move) (calls : List DeviceCall) (v : Version) → IsSafe g roles r j
        → Step g roles (present_of r) j move calls k → is_carried move v ≡ true
        → GivesMetadata (moved move roles v) (present_of r) (txs_of g j (moved_from move v)) (present_of (with_calls r calls)) (txs_of g k v) }
{}

/// After a change the running version has the bytes that the change gives, and else those that it had, but on the blocks of
/// metadata that it frees.
pub fn changes_give()
    ensures { (g : Geometry) (roles : Roles) (r : Record) (j : Journal) (change : Change) (to : ℕ → Role) (running : List Delta) (image : Image) (address : ℕ)
        → IsSafe g roles r j → MovesDeltas g roles j change to running → is_cancelled_in change.deltas (address / 4096) ≡ false
        → replayed_byte image (txs_of g (record j { running = running }) Running) address
        ≡ unwrap_or (given_by change.deltas address) (replayed_byte image (txs_of g j Running) address) }
{}

/// Bytes of files.
pub fn raw_blocks()
    // They may be written in place in a block of a file, and in a block of a hand.
    ensures places { (g : Geometry) (roles : Roles) (r : Record) (j : Journal) (b : ℕ) → IsSafe g roles r j
        → (roles Running b ≡ FileBytes) ⊎ ((is_claimed (roles Running b) ≡ false) × (j.owners b ≡ Live))
        → ((v : Version) → is_metadata (roles v b) ≡ false) × (is_held j b ≡ false) }
    // No version lays anything over them.
    ensures stay { (g : Geometry) (roles : Roles) (r : Record) (j : Journal) (b : ℕ) (image : Image) (v : Version) (i : ℕ) → IsSafe g roles r j
        → roles v b ≡ FileBytes → i < 4096 → replayed_byte image (txs_of g j v) (4096 * b + i) ≡ slice_index image (4096 * b + i) }
{}
