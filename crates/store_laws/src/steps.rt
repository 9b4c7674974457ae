//! A change that a store may take is a step of the journal whose running version it tells.
ghost use Rattle.std.specs.Prelude.{◌≡◌, ◌⊎◌, ℕ, ◌*◌, ◌/◌, true, false, List, [], ◌∷◌, take, length};
ghost use Rattle.lufs_base.specs.declared.geometry.Geometry.{Geometry};
ghost use Rattle.volume_model.specs.declared.hand.Hand.{Hand};
ghost use Rattle.volume_model.specs.declared.device_call.DeviceCall.{DeviceCall};
ghost use Rattle.volume_model.specs.declared.device_call.DeviceCall.TheVariants.{Write};
ghost use Rattle.volume_model.specs.Format.{block};
ghost use Rattle.volume_model.specs.Crash.{Record, with_calls, present_of};
ghost use Rattle.volume_model.specs.Sound.{reading_of, block_bit, tree_of, shape_of, Sound};
ghost use Rattle.journal_model.specs.Journals.{Journal};
ghost use Rattle.journal_model.specs.Versions.{Running};
ghost use Rattle.journal_model.specs.BlockRoles.{Roles, Move, Changes, moved, is_carried, is_claimed};
ghost use Rattle.journal_model.specs.Batches.{is_freed_owner};
ghost use Rattle.journal_model.specs.Safety.{IsSafe};
ghost use Rattle.journal_model.specs.Steps.{IsRawWrite, Step};
ghost use Rattle.history_laws.specs.Published.{AreRolesOf, reading_in};
ghost use Rattle.history_laws.specs.Volumes.{IsRunningAs};
ghost use Rattle.meta_store.specs.declared.change.Change.{Change};
ghost use Rattle.meta_store.specs.declared.change.RawWrite.{RawWrite};
ghost use Rattle.meta_store.specs.Changing.{AllTold};
ghost use Rattle.meta_store.specs.Conditions.{MayFill};
ghost use Rattle.store_laws.specs.Tied.{IsRead, TellsRunning, MayChange, running_image, running_with, roles_with, journal_after, told_with};

/// A change that a store takes, and that writes nothing in place, is a step of the journal whose running version it tells.
pub fn changes_are_steps()
    ensures step { (g : Geometry) (roles : Roles) (r : Record) (j : Journal) (hands after : List Hand) (told : AllTold) (change : Change) → IsSafe g roles r j
        → MayChange g roles r j hands told change after → change.raw ≡ [] → Step g roles (present_of r) j (Changes (roles_with g r j change)) [] (journal_after g j change) }
    // The running version then reads as the content that the store has, with its bytes in each block that is claimed, and the next
    // change finds it as this one did.
    ensures reading { (g : Geometry) (roles : Roles) (r : Record) (j : Journal) (hands after : List Hand) (told : AllTold) (change : Change) → IsSafe g roles r j
        → MayChange g roles r j hands told change after → change.raw ≡ [] → reading_in g (journal_after g j change) (present_of r) Running ≡ reading_of g (running_with g r j change) }
    ensures bytes { (g : Geometry) (roles : Roles) (r : Record) (j : Journal) (hands after : List Hand) (told : AllTold) (change : Change) (b n : ℕ) → IsSafe g roles r j
        → MayChange g roles r j hands told change after → change.raw ≡ [] → is_claimed (roles_with g r j change b) ≡ true
        → take n (block (running_image g r (journal_after g j change)) b) ≡ take n (running_with g r j change b) }
    ensures running { (g : Geometry) (roles : Roles) (r : Record) (j : Journal) (hands after : List Hand) (told : AllTold) (change : Change) → IsSafe g roles r j
        → MayChange g roles r j hands told change after → change.raw ≡ []
        → IsRunningAs g (moved (Changes (roles_with g r j change)) roles) (present_of r) (journal_after g j change) after (shape_of (tree_of g (running_with g r j change))) }
    ensures read { (g : Geometry) (roles : Roles) (r : Record) (j : Journal) (hands after : List Hand) (told : AllTold) (change : Change) → IsSafe g roles r j
        → MayChange g roles r j hands told change after → change.raw ≡ [] → IsRead g (moved (Changes (roles_with g r j change)) roles) (present_of r) (journal_after g j change) }
{}

/// Every other step of the journal leaves the running version as the next change is to find it.
pub fn reads_stay()
    ensures { (g : Geometry) (roles : Roles) (r : Record) (j k : Journal) (move : Move) (calls : List DeviceCall) → IsSafe g roles r j
        → Step g roles (present_of r) j move calls k → is_carried move Running ≡ true → AreRolesOf g (roles Running) (reading_in g j (present_of r) Running)
        → IsRead g roles (present_of r) j → IsRead g (moved move roles) (present_of (with_calls r calls)) k }
{}

/// A change that writes in place is made write by write before its deltas.
pub fn writes_come_first()
    // Its first write may be made: it goes to a block whose bit is set.
    ensures may { (g : Geometry) (roles : Roles) (r : Record) (j : Journal) (hands after : List Hand) (told : AllTold) (change : Change) (w : RawWrite) (more : List RawWrite)
        → IsSafe g roles r j → MayChange g roles r j hands told change after → change.raw ≡ w ∷ more
        → block_bit g (reading_in g j (present_of r) Running) (w.first / 8) ≡ true → IsRawWrite g roles j w.first w.bytes }
    // Once that write is made, the store takes the rest of the change.
    ensures rest { (g : Geometry) (roles : Roles) (r : Record) (j : Journal) (hands after : List Hand) (told : AllTold) (change : Change) (w : RawWrite) (more : List RawWrite)
        → IsSafe g roles r j → MayChange g roles r j hands told change after → change.raw ≡ w ∷ more → IsRawWrite g roles j w.first w.bytes
        → MayChange g roles (with_calls r (Write w.first w.bytes ∷ [])) j hands (told_with g r j (Write w.first w.bytes ∷ []) told) (record change { raw = more }) after }
{}

/// A block of a hand that a store fills is a write in place: where its bit is set, or it may still be given out.
pub fn fills_are_writes()
    ensures write { (g : Geometry) (roles : Roles) (r : Record) (j : Journal) (hands : List Hand) (told : AllTold) (b : ℕ) (bytes : List ℕ) → IsSafe g roles r j → IsRead g roles (present_of r) j
        → TellsRunning g (present_of r) j told → Sound g (block (running_image g r j)) hands → MayFill b told
        → (block_bit g (reading_in g j (present_of r) Running) b ≡ true) ⊎ (told.changing.is_released b ≡ true) → length bytes ≡ 4096 → IsRawWrite g roles j (8 * b) bytes }
    // Nothing claims it and nothing freed it, so that a mounted volume may get any bytes there (`writes_in_place`).
    ensures hand { (g : Geometry) (roles : Roles) (r : Record) (j : Journal) (hands : List Hand) (told : AllTold) (b : ℕ) → IsSafe g roles r j → IsRead g roles (present_of r) j
        → TellsRunning g (present_of r) j told → Sound g (block (running_image g r j)) hands → MayFill b told
        → (block_bit g (reading_in g j (present_of r) Running) b ≡ true) ⊎ (told.changing.is_released b ≡ true)
        → (is_claimed (roles Running b) ≡ false) × (is_freed_owner (j.owners b) ≡ false) }
{}
