//! A session in which a file gets the block of a removed directory.
ghost use Rattle.std.specs.Prelude.{◌≤◌, ℕ, length};
ghost use Rattle.volume_model.specs.Format.{Image};
ghost use Rattle.volume_model.specs.Crash.{Outcome};
ghost use Rattle.history_laws.specs.WorkedSession.{IsLeftBy};
ghost use Rattle.worked_session.specs.BlockUsedAgain.{BlockUsedAgain};

/// On a new volume of the smallest size a directory is made in block 38 and removed, and a file is made, gets block 38, is written
/// and synced, with commits after the first, the second and the last of these entries.
pub fn block_used_again()
    // There is such a session.
    ensures session { BlockUsedAgain }
    // Whatever a crash leaves of it, at any moment, mounts as the root alone, with the directory, or with the file; once the
    // fsync was told, with the file and its three bytes.
    ensures crash { (built : BlockUsedAgain) (n : ℕ) (image : Image) → n ≤ length built.end.r.calls → Outcome built.end.r n image → IsLeftBy built.when n image }
{}
