//! What a crash may leave of a disk whose calls went on.
ghost use Rattle.std.specs.Prelude.{◌≡◌, ◌↔◌, ℕ, ◌+◌, List, Some, IfSome};
ghost use Rattle.volume_model.specs.Format.{Image};
ghost use Rattle.volume_model.specs.Crash.{Outcome};
ghost use Rattle.volume_model.specs.declared.device_call.DeviceCall.{DeviceCall};
ghost use Rattle.sector_disk.specs.Continued.{IsCounted, IsAtRest, GoesOnWith};
ghost use Rattle.sector_disk.specs.Disk.{DiskTold, IsTold};

/// A disk had nothing pending, and made more calls. What a crash may leave by all of its calls is just what it may
/// leave by the calls since then, made on the content that stood there then.
pub fn continued_records()
    ensures { (old new : DiskTold) (before : Image) (since : List DeviceCall) (m : ℕ) (image : Image) → IsTold old → IsCounted old → IsAtRest old
        → old.present ≡ Some before → GoesOnWith since old new
        → IfSome new.listed (λ all. Outcome all (old.calls + m) image ↔ Outcome (record { opening = before; calls = since }) m image) }
{}
