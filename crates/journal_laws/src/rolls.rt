//! The law of a roll's steps, which write the oldest transactions home and trim the log of them.
ghost use Rattle.std.specs.Prelude.{◌≡◌, true, List};
ghost use Rattle.lufs_base.specs.declared.geometry.Geometry.{Geometry};
ghost use Rattle.volume_model.specs.declared.device_call.DeviceCall.{DeviceCall};
ghost use Rattle.volume_model.specs.Crash.{Record, with_calls, present_of};
ghost use Rattle.journal_model.specs.Journals.{Journal};
ghost use Rattle.journal_model.specs.Versions.{Version};
ghost use Rattle.journal_model.specs.BlockRoles.{Roles, Move};
ghost use Rattle.journal_model.specs.Safety.{IsSafe};
ghost use Rattle.journal_model.specs.Steps.{Step};
ghost use Rattle.journal_laws.specs.Rolls.{is_roll_step, MayRecover};

/// A version that a mount may recover after a step of a roll, it might have recovered before it.
pub fn rolls_change_nothing()
    ensures { (g : Geometry) (roles : Roles) (r : Record) (j k : Journal) (move : Move) (calls : List DeviceCall) (v : Version) (step : Step g roles (present_of r) j move calls k)
        → is_roll_step step ≡ true → IsSafe g roles r j → MayRecover g roles (with_calls r calls) k v → MayRecover g roles r j v }
{}
