//! A whole small session, computed and by the laws.
ghost use Rattle.std.specs.Prelude.{◌≡◌, ◌≤◌, ◌<◌, ℕ, true, false, map, length, ◌∷◌, Some, IfSome, Contains};
ghost use Rattle.volume_model.specs.Format.{Image};
ghost use Rattle.volume_model.specs.Crash.{Record, Outcome};
ghost use Rattle.volume_model.specs.Worked.{smallest};
ghost use Rattle.history_model.specs.Histories.{Legal, replay_of};
ghost use Rattle.history_model.specs.Touched.{Settled};
ghost use Rattle.history_model.specs.WorkedTrees.{new_tree};
ghost use Rattle.journal_model.specs.Batches.{is_released};
ghost use Rattle.journal_model.specs.Changes.{owner_after};
ghost use Rattle.journal_model.specs.Steps.{published_owner};
ghost use Rattle.journal_model.specs.Worked.{with_directory, removal};
ghost use Rattle.history_laws.specs.Volumes.{Volume};
ghost use Rattle.history_laws.specs.Sessions.{Session};
ghost use Rattle.history_laws.specs.WorkedSession.{Times, five_entries, new_disk, committed_at, tree_at, IsLeftBy};

/// A directory is made and removed on a new volume, and a file is made, written and synced, with a commit after the first, the
/// second and the last of these entries. Their times, in listed calls of the disk, may be any.
pub fn directory_block_used_again()
    ensures legal { (when : ℕ → Times) → Legal smallest 1000 new_tree (five_entries when) }
    // The tree at each boundary: the root alone, the directory, the root alone again, the file.
    ensures trees { (when : ℕ → Times) (k : ℕ) → Contains (0 ∷ committed_at) k → replay_of smallest 1000 new_tree (five_entries when) k ≡ tree_at k }
    // The three bytes are settled once the fsync was told, and not between the beginning of the write and then.
    ensures settled { (when : ℕ → Times) (told n p : ℕ) → (when 5).told ≡ Some told → told ≤ n → p < 3 → Settled smallest 1000 new_tree (five_entries when) n 3 p }
    ensures unsettled { (when : ℕ → Times) (n p : ℕ) → (when 4).start < n → IfSome (when 5).told (λ told. n < told) → p < 3
        → ¬ (Settled smallest 1000 new_tree (five_entries when) n 3 p) }
    // A session of the new volume begins.
    ensures begins { (v : Volume) × Session smallest 1000 new_tree new_disk v }
    // Whatever a crash leaves of such a session, from its mount's first call on, mounts as the tree of one of its boundaries. Once
    // the fsync was told that is the last one, and the file has its bytes.
    ensures crash { (when : ℕ → Times) (start : Record) (v : Volume) (n : ℕ) (image : Image) → Session smallest 1000 new_tree start v
        → v.h.entries ≡ five_entries when → map (λ c. c.boundary) v.h.commits ≡ committed_at → length start.calls ≤ n → n ≤ length v.r.calls
        → Outcome v.r n image → IsLeftBy when n image }
    // The directory's block may not be given out while its removal isn't committed, and may afterwards.
    ensures not_committed { is_released (record with_directory { owners = owner_after smallest with_directory removal }) 38 ≡ false }
    ensures committed { is_released (record with_directory { owners = λ b. published_owner 2 (owner_after smallest with_directory removal b) }) 38 ≡ true }
{}
