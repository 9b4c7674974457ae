//! What an entry that is applied keeps of the bytes of files.
ghost use Rattle.std.specs.Prelude.{ℕ, suc, List};
ghost use Rattle.lufs_base.specs.declared.geometry.Geometry.{Geometry};
ghost use Rattle.tree_types.specs.declared.history.Entry.{Entry};
ghost use Rattle.volume_model.specs.Crash.{Record};
ghost use Rattle.volume_model.specs.Sound.{Reading, Tree};
ghost use Rattle.journal_model.specs.Versions.{Version, Running};
ghost use Rattle.history_laws.specs.KeptBytes.{AreBytesKept};
ghost use Rattle.history_laws.specs.Applied.{with_running, IsApplied};

/// Bytes stay kept where the next entry is applied to the running version: what it touches is there already, all else stays
/// where it is, and what it names anew no other version names.
pub fn applied_entries()
    ensures { (g : Geometry) (moment : ℕ) (opening : Tree) (entries : List Entry) (r : Record) (readings : Version → Reading) (held : Version → ℕ) (new : Reading)
        → AreBytesKept g moment opening entries r readings held → IsApplied g moment opening entries r readings (held Running) new
        → AreBytesKept g moment opening entries r (with_running readings new) (with_running held (suc (held Running))) }
{}
