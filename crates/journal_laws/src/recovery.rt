//! What a mount recovers of an image that a crash left, also after a call that failed.
ghost use Rattle.std.specs.Prelude.{◌≡◌, ◌⊎◌, List, length};
ghost use Rattle.lufs_base.specs.declared.geometry.Geometry.{Geometry};
ghost use Rattle.volume_model.specs.declared.device_call.DeviceCall.{DeviceCall};
ghost use Rattle.volume_model.specs.Format.{Image};
ghost use Rattle.volume_model.specs.Crash.{Record, with_calls, Outcome, present_of};
ghost use Rattle.journal_model.specs.Journals.{Journal};
ghost use Rattle.journal_model.specs.Versions.{Published, Sealed};
ghost use Rattle.journal_model.specs.BlockRoles.{Roles, Move, moved};
ghost use Rattle.journal_model.specs.Safety.{IsSafe};
ghost use Rattle.journal_model.specs.Recovery.{Recovers};
ghost use Rattle.journal_model.specs.Steps.{Step};

/// Of whatever a crash leaves of a safe journal, a mount recovers the published version, or the sealed one.
pub fn recovered_versions()
    ensures { (g : Geometry) (roles : Roles) (r : Record) (j : Journal) (image : Image) → IsSafe g roles r j → Outcome r (length r.calls) image
        → Recovers g roles (present_of r) j image Published ⊎ Recovers g roles (present_of r) j image Sealed }
{}

/// A call of a step fails, and is listed or not. Then a mount recovers a version of the journal before the step, or of the
/// one after it.
pub fn failed_calls()
    ensures { (g : Geometry) (roles : Roles) (r after : Record) (j k : Journal) (move : Move) (calls : List DeviceCall) (image : Image) → IsSafe g roles r j
        → Step g roles (present_of r) j move calls k
        → (after ≡ r) ⊎ (after ≡ with_calls r calls) → Outcome after (length after.calls) image
        → (Recovers g roles (present_of r) j image Published ⊎ Recovers g roles (present_of r) j image Sealed)
        ⊎ (Recovers g (moved move roles) (present_of (with_calls r calls)) k image Published
        ⊎ Recovers g (moved move roles) (present_of (with_calls r calls)) k image Sealed) }
{}
