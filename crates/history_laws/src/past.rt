//! What a step adds to a history changes nothing of earlier moments.
ghost use Rattle.std.specs.Prelude.{◌≤◌, ℕ, List, length};
ghost use Rattle.lufs_base.specs.declared.geometry.Geometry.{Geometry};
ghost use Rattle.volume_model.specs.declared.device_call.DeviceCall.{DeviceCall};
ghost use Rattle.volume_model.specs.Crash.{Record, with_calls};
ghost use Rattle.volume_model.specs.Sound.{Tree};
ghost use Rattle.history_model.specs.Histories.{History};
ghost use Rattle.history_model.specs.CrashSafety.{IsCrashSafeAt};
ghost use Rattle.history_laws.specs.Additions.{AddsAfter};

/// What is crash safe after n listed calls is so still once calls were listed, entries added, commits made, and replies given
/// after more than n calls.
pub fn earlier_moments()
    ensures { (g : Geometry) (moment : ℕ) (opening : Tree) (h k : History) (r : Record) (more : List DeviceCall) (n : ℕ) → n ≤ length r.calls
        → AddsAfter n h k → IsCrashSafeAt g moment opening h r n → IsCrashSafeAt g moment opening k (with_calls r more) n }
{}
