//! A volume whose journal is safe and whose bytes are kept is crash safe now.
ghost use Rattle.std.specs.Prelude.{ℕ, length};
ghost use Rattle.lufs_base.specs.declared.geometry.Geometry.{Geometry};
ghost use Rattle.volume_model.specs.Crash.{Record, present_of};
ghost use Rattle.volume_model.specs.Sound.{Tree};
ghost use Rattle.history_model.specs.Histories.{History};
ghost use Rattle.history_model.specs.CrashSafety.{IsCrashSafeAt};
ghost use Rattle.journal_model.specs.Journals.{Journal};
ghost use Rattle.journal_model.specs.Versions.{Version, Published};
ghost use Rattle.journal_model.specs.BlockRoles.{Roles};
ghost use Rattle.journal_model.specs.Safety.{IsSafe};
ghost use Rattle.history_laws.specs.KeptBytes.{AreBytesKept, AreToldPublished};
ghost use Rattle.history_laws.specs.Published.{reading_in, IsPublishedAs, IsSealedBefore};

/// Whatever a crash leaves now recovers to the boundary that is published, or to the one that is sealed.
pub fn present_moment()
    ensures { (g : Geometry) (moment : ℕ) (opening : Tree) (h : History) (roles : Roles) (r : Record) (j : Journal) (held : Version → ℕ) → IsSafe g roles r j
        → IsPublishedAs g moment opening h roles (present_of r) j held → AreBytesKept g moment opening h.entries r (reading_in g j (present_of r)) held
        → AreToldPublished h.entries (held Published) → IsSealedBefore h.entries (length r.calls) held j.sealed → IsCrashSafeAt g moment opening h r (length r.calls) }
{}
