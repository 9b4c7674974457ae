//! What a call that takes out a name does to the links of a tree.
ghost use Rattle.std.specs.Prelude.{◌≡◌, ◌≢◌, ℕ, ◌+◌, ◌==◌, true, false, [], Some, if◌then◌else◌};
ghost use Rattle.std.specs.List.{count_by};
ghost use Rattle.std.specs.Option.{option_map_or};
ghost use Rattle.lufs_base.specs.declared.geometry.Geometry.{Geometry};
ghost use Rattle.volume_model.specs.Sound.{Tree};
ghost use Rattle.history_model.specs.Places.{directory_slots, is_directory_in, links_in, lookup};
ghost use Rattle.history_model.specs.Walk.{WalkEnd};
ghost use Rattle.history_model.specs.Edits.{edited_all};
ghost use Rattle.history_model.specs.Effects.{lost_by, removing};
ghost use Rattle.history_model.specs.Right.{IsRightWithin};

/// The links of a tree in which a name goes: with that name, and with those that went with an inode, they are those
/// before. What is no directory names nothing.
pub fn links_removed()
    ensures removed { (g : Geometry) (tree : Tree) (p : WalkEnd) (i moment j : ℕ) → IsRightWithin g tree → is_directory_in tree p.dir ≡ true → lookup tree p.dir p.name ≡ Some i → i ≢ p.dir → j ≢ 0
        → links_in g (edited_all (removing g tree p i moment) tree) j + (if i == j then 1 else 0) + option_map_or (λ lost. count_by (λ s. s.ino == j) (directory_slots tree lost)) (lost_by g tree i) 0 ≡ links_in g tree j }
    ensures plain { (tree : Tree) (i : ℕ) → is_directory_in tree i ≡ false → directory_slots tree i ≡ [] }
{}
