//! Crash safety, computed on a small volume and a small session.
ghost use Rattle.std.specs.Prelude.{[]};
ghost use Rattle.volume_model.specs.Sound.{MountsAs, shape_of};
ghost use Rattle.volume_model.specs.Worked.{smallest};
ghost use Rattle.history_model.specs.CrashSafety.{IsCrashSafeAt, CrashSafe};
ghost use Rattle.worked_history.specs.Images.{file_image, tree_of_file, first_letters, other_letters, read_and_synced, one_commit, one_flush};

/// A file is read and synced on a disk that lists one flush. What a crash leaves before that flush, or after it, recovers.
pub fn crash_safe_session()
    ensures opening { MountsAs file_image (shape_of (tree_of_file first_letters)) }
    ensures safe { CrashSafe smallest 1000 (tree_of_file first_letters) (read_and_synced one_commit) one_flush 0 1 }
    // The reply to the fsync was told by then, and there is no commit.
    ensures not_committed { ¬ (CrashSafe smallest 1000 (tree_of_file first_letters) (read_and_synced []) one_flush 0 1) }
    ensures before_it_was_told { IsCrashSafeAt smallest 1000 (tree_of_file first_letters) (read_and_synced []) one_flush 0 }
    // The file on the disk has another byte than the tree.
    ensures other_byte { ¬ (IsCrashSafeAt smallest 1000 (tree_of_file other_letters) (read_and_synced one_commit) one_flush 0) }
{}
