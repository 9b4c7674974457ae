//! A mount of what a crash left, which may be cut by a crash itself.
ghost use Rattle.std.specs.Prelude.{◌≡◌, ◌<◌, ◌⊎◌, ℕ, List, [], length, slice_index, IsSomeAnd};
ghost use Rattle.lufs_base.specs.Layout.{ring_of};
ghost use Rattle.lufs_base.specs.declared.geometry.Geometry.{Geometry};
ghost use Rattle.volume_model.specs.declared.device_call.DeviceCall.{DeviceCall};
ghost use Rattle.volume_model.specs.Format.{Image, block};
ghost use Rattle.volume_model.specs.Log.{Listed, WithHeader, log_of, trailer_of, recovered, replayed};
ghost use Rattle.volume_model.specs.Crash.{Record, with_calls, IsOfSectors, Outcome, IsSettled, present_of};
ghost use Rattle.volume_model.specs.Sound.{is_among, Tree, StandsFor, Opens};
ghost use Rattle.log_laws.specs.LogOnImage.{ring_sector};
ghost use Rattle.journal_model.specs.Journals.{Owner, new_journal};
ghost use Rattle.journal_model.specs.LaidBlocks.{is_laid_by, replayed_byte};
ghost use Rattle.journal_model.specs.BlockRoles.{Role};
ghost use Rattle.journal_model.specs.Safety.{IsSafe, MayBegin};
ghost use Rattle.journal_model.specs.Mount.{Found, Stage, Replaying, Mounted, next_epoch, MountStep, IsOutsideLog, IsFoundIn, IsMounting, RecoversSame, IsFoundAgain};

/// What a mount has of the disk: where nothing is pending it may begin, and each of its steps keeps it.
pub fn mount_steps()
    ensures begins { (g : Geometry) (found : Found) (r : Record) (left : List ℕ) → IsOfSectors r → IsSettled r → IsFoundIn g found (present_of r)
        → ((b : ℕ) → is_among b left ≡ is_laid_by found.txs b) → IsMounting g found (present_of r) r (Replaying left) }
    ensures keeps { (g : Geometry) (found : Found) (first : Image) (r : Record) (stage next : Stage) (calls : List DeviceCall) → IsMounting g found first r stage
        → MountStep g found (present_of r) stage calls next → IsMounting g found first (with_calls r calls) next }
{}

/// Of whatever a crash leaves of a mount, a mount recovers what it recovers of the first image.
pub fn mount_outcomes()
    ensures recovers { (g : Geometry) (found : Found) (first : Image) (r : Record) (stage : Stage) (image : Image) → IsMounting g found first r stage
        → Outcome r (length r.calls) image → RecoversSame g found first image }
    // So it stands for the same tree, and it opens.
    ensures tree { (g : Geometry) (found : Found) (first : Image) (r : Record) (stage : Stage) (image : Image) (tree : Tree) → IsMounting g found first r stage
        → Outcome r (length r.calls) image → StandsFor g (block (replayed first found.txs)) tree [] → IsSomeAnd (recovered g image) (λ content. StandsFor g (block content) tree []) }
    ensures opens { (g : Geometry) (found : Found) (first : Image) (r : Record) (stage : Stage) (image : Image) → IsMounting g found first r stage
        → Outcome r (length r.calls) image → Opens first → Opens image }
{}

/// A call of a mount fails, and is listed or not. Whatever a crash leaves then, a mount recovers the same of it.
pub fn failed_calls_of_mounts()
    ensures { (g : Geometry) (found : Found) (first : Image) (r after : Record) (stage next : Stage) (calls : List DeviceCall) (image : Image) → IsMounting g found first r stage
        → MountStep g found (present_of r) stage calls next → (after ≡ r) ⊎ (after ≡ with_calls r calls) → Outcome after (length after.calls) image → RecoversSame g found first image }
{}

/// A mount of what a crash of a mount left: it may begin, unless the epoch is the last one, and a crash of it loses nothing either.
pub fn mounts_of_outcomes()
    ensures again { (g : Geometry) (found : Found) (first : Image) (r : Record) (stage : Stage) (image : Image) → IsMounting g found first r stage
        → Outcome r (length r.calls) image → IsFoundAgain g found first image }
    ensures recovers { (g : Geometry) (found : Found) (first image other : Image) (a : IsFoundAgain g found first image) (r : Record) (stage : Stage) → IsMounting g a.again image r stage
        → Outcome r (length r.calls) other
        → IsSomeAnd (recovered g other) (λ content. (address : ℕ) → IsOutsideLog g address → slice_index content address ≡ replayed_byte first found.txs address) }
{}

/// What a mount leaves at its end.
pub fn mount_ends()
    // Nothing is pending.
    ensures settled { (g : Geometry) (found : Found) (first : Image) (r : Record) → IsMounting g found first r Mounted → IsSettled r }
    // The log is empty, by a header of the next epoch, and each sector of the ring is of an earlier one.
    ensures log { (g : Geometry) (found : Found) (first : Image) (r : Record) → IsMounting g found first r Mounted
        → log_of g (present_of r) ≡ WithHeader (next_epoch found.header) (Listed []) }
    ensures idents { (g : Geometry) (found : Found) (first : Image) (r : Record) (place : ℕ) → IsMounting g found first r Mounted → place < ring_of g
        → (trailer_of (ring_sector g (present_of r) place)).ident < (next_epoch found.header).epoch }
    // What was to be recovered stands at home.
    ensures content { (g : Geometry) (found : Found) (first : Image) (r : Record) (address : ℕ) → IsMounting g found first r Mounted → IsOutsideLog g address
        → slice_index (present_of r) address ≡ replayed_byte first found.txs address }
    // And the journal of the empty log is safe.
    ensures opens { (g : Geometry) (found : Found) (first : Image) (role : ℕ → Role) (owners : ℕ → Owner) (r : Record) → IsMounting g found first r Mounted
        → MayBegin g role owners → IsSafe g (λ v. role) r (new_journal (next_epoch found.header) owners) }
{}
