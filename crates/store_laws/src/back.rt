//! What a hand took goes back: a group record that a store amends is a step, too.
ghost use Rattle.std.specs.Prelude.{◌≡◌, ◌≤◌, ℕ, List, []};
ghost use Rattle.lufs_base.specs.declared.geometry.Geometry.{Geometry};
ghost use Rattle.lufs_base.specs.declared.numbers.BlockNo.{BlockNo};
ghost use Rattle.volume_model.specs.declared.hand.Hand.{Hand};
ghost use Rattle.volume_model.specs.Format.{block};
ghost use Rattle.volume_model.specs.Crash.{Record, present_of};
ghost use Rattle.volume_model.specs.Sound.{reading_of, Tree, tree_of, shape_of};
ghost use Rattle.journal_model.specs.Journals.{Journal};
ghost use Rattle.journal_model.specs.Versions.{Running};
ghost use Rattle.journal_model.specs.BlockRoles.{Roles, Changes, moved};
ghost use Rattle.journal_model.specs.Safety.{IsSafe};
ghost use Rattle.journal_model.specs.Steps.{Step};
ghost use Rattle.history_laws.specs.Published.{reading_in};
ghost use Rattle.history_laws.specs.Volumes.{Volume, IsRunningAs, KeepsHistory};
ghost use Rattle.history_laws.specs.VolumeSteps.{VolumeStep};
ghost use Rattle.meta_store.specs.Changing.{AllTold};
ghost use Rattle.store_laws.specs.Tied.{IsRead, MayGiveBack, running_image, journal_amended, blocks_amended, roles_amended, with_returned};

/// A group record that a store amends among the deltas that it holds, to give back blocks and an inode, is a step of the journal
/// whose running version it tells. The tree keeps its shape.
pub fn amends_are_steps()
    ensures step { (g : Geometry) (roles : Roles) (r : Record) (j : Journal) (hands after : List Hand) (told : AllTold) (n : ℕ) (bytes : List ℕ) (returned : List BlockNo) → IsSafe g roles r j
        → MayGiveBack g roles r j hands told n bytes returned after → Step g roles (present_of r) j (Changes (roles_amended g r j n bytes)) [] (journal_amended g j n bytes returned) }
    ensures reading { (g : Geometry) (roles : Roles) (r : Record) (j : Journal) (hands after : List Hand) (told : AllTold) (n : ℕ) (bytes : List ℕ) (returned : List BlockNo) → IsSafe g roles r j
        → MayGiveBack g roles r j hands told n bytes returned after
        → reading_in g (journal_amended g j n bytes returned) (present_of r) Running ≡ reading_of g (blocks_amended g r j n bytes) }
    ensures running { (g : Geometry) (roles : Roles) (r : Record) (j : Journal) (hands after : List Hand) (told : AllTold) (n : ℕ) (bytes : List ℕ) (returned : List BlockNo) → IsSafe g roles r j
        → MayGiveBack g roles r j hands told n bytes returned after
        → IsRunningAs g (moved (Changes (roles_amended g r j n bytes)) roles) (present_of r) (journal_amended g j n bytes returned) after (shape_of (tree_of g (block (running_image g r j)))) }
    ensures read { (g : Geometry) (roles : Roles) (r : Record) (j : Journal) (hands after : List Hand) (told : AllTold) (n : ℕ) (bytes : List ℕ) (returned : List BlockNo) → IsSafe g roles r j
        → MayGiveBack g roles r j hands told n bytes returned after
        → IsRead g (moved (Changes (roles_amended g r j n bytes)) roles) (present_of r) (journal_amended g j n bytes returned) }
{}

/// A call that is inside gives back so what its hand took: a step of a mounted volume.
pub fn hands_go_back()
    ensures { (g : Geometry) (moment : ℕ) (opening : Tree) (first : ℕ) (v : Volume) (told : AllTold) (n : ℕ) (bytes : List ℕ) (returned : List BlockNo) (after : List Hand)
        → KeepsHistory g moment opening first v → 1 ≤ v.j.members → MayGiveBack g v.roles v.r v.j v.hands told n bytes returned after
        → VolumeStep g moment opening v (with_returned g v n bytes returned after) }
{}
