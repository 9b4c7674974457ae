//! A change that a store takes is a step of a mounted volume: for the next entry of its history, or for the hands alone.
ghost use Rattle.std.specs.Prelude.{◌≡◌, ◌≤◌, ℕ, suc, List, [], Some};
ghost use Rattle.lufs_base.specs.declared.geometry.Geometry.{Geometry};
ghost use Rattle.tree_types.specs.declared.history.Entry.{Entry};
ghost use Rattle.volume_model.specs.declared.hand.Hand.{Hand};
ghost use Rattle.volume_model.specs.Sound.{reading_of, Tree, tree_of, shape_of};
ghost use Rattle.history_model.specs.Histories.{entry_at, replay_of};
ghost use Rattle.journal_model.specs.Versions.{Running};
ghost use Rattle.history_laws.specs.Named.{named_block};
ghost use Rattle.history_laws.specs.Applied.{NamesStay, AreTouchedPresent};
ghost use Rattle.history_laws.specs.Volumes.{Volume, readings_of, KeepsHistory};
ghost use Rattle.history_laws.specs.VolumeSteps.{VolumeStep};
ghost use Rattle.history_laws.specs.WholeFiles.{HasWholeFiles};
ghost use Rattle.meta_store.specs.declared.change.Change.{Change};
ghost use Rattle.meta_store.specs.Changing.{AllTold};
ghost use Rattle.store_laws.specs.Tied.{MayChange, running_with, with_entry, with_hands};

/// A call that is inside carries out the next entry by a change that a store takes: the content with it has the shape of the tree
/// after the entry, blocks of files stay at their places or are new ones, and what the entry touches is there.
pub fn entries_are_applied()
    ensures { (g : Geometry) (moment : ℕ) (opening : Tree) (first : ℕ) (v : Volume) (told : AllTold) (change : Change) (after : List Hand) (entry : Entry)
        → KeepsHistory g moment opening first v → HasWholeFiles opening → 1 ≤ v.j.members → MayChange g v.roles v.r v.j v.hands told change after → change.raw ≡ []
        → entry_at v.h.entries (suc (v.held Running)) ≡ Some entry
        → shape_of (tree_of g (running_with g v.r v.j change)) ≡ shape_of (replay_of g moment opening v.h.entries (suc (v.held Running)))
        → NamesStay (v.roles Running) (readings_of g v Running) (reading_of g (running_with g v.r v.j change))
        → AreTouchedPresent g moment opening v.h.entries v.r (v.held Running) entry (reading_of g (running_with g v.r v.j change))
        → VolumeStep g moment opening v (with_entry g v change after) }
{}

/// A call that is inside takes blocks or an inode into its hand by such a change, which leaves the tree's shape and the blocks of
/// its files.
pub fn hands_are_changed()
    ensures { (g : Geometry) (moment : ℕ) (opening : Tree) (first : ℕ) (v : Volume) (told : AllTold) (change : Change) (after : List Hand)
        → KeepsHistory g moment opening first v → 1 ≤ v.j.members → MayChange g v.roles v.r v.j v.hands told change after → change.raw ≡ []
        → shape_of (tree_of g (running_with g v.r v.j change)) ≡ shape_of (replay_of g moment opening v.h.entries (v.held Running))
        → ((ino index : ℕ) → named_block (reading_of g (running_with g v.r v.j change)) ino index ≡ named_block (readings_of g v Running) ino index)
        → VolumeStep g moment opening v (with_hands g v change after) }
{}
