//! How the tie begins: with the volume that a mount opens, and with a draft at its end.
ghost use Rattle.std.specs.Prelude.{◌≡◌, ◌≤◌, ◌||◌, ℕ, true, List, [], IfSome, All};
ghost use Rattle.lufs_base.specs.Layout.{IsGeometry};
ghost use Rattle.lufs_base.specs.declared.geometry.Geometry.{Geometry};
ghost use Rattle.volume_model.specs.declared.hand.Hand.{Hand};
ghost use Rattle.volume_model.specs.declared.log.Header.{Header};
ghost use Rattle.volume_model.specs.Format.{Blocks, block};
ghost use Rattle.volume_model.specs.Crash.{Record, present_of};
ghost use Rattle.volume_model.specs.Log.{delta_bytes};
ghost use Rattle.volume_model.specs.Sound.{reading_of, is_among, IsRightTree, Sound, Tree, tree_of};
ghost use Rattle.journal_model.specs.Journals.{Journal, new_journal};
ghost use Rattle.journal_model.specs.BlockRoles.{Roles};
ghost use Rattle.journal_model.specs.Safety.{MayBegin};
ghost use Rattle.history_laws.specs.VolumeRoles.{role_of};
ghost use Rattle.meta_store.specs.declared.change.Change.{Change};
ghost use Rattle.meta_store.specs.Changing.{AllTold};
ghost use Rattle.draft_laws.specs.Drafts.{IsDraft, HaveLinksOf, HoldsNoneOf};
ghost use Rattle.store_laws.specs.Tied.{owners_by_bits, IsRead, TellsRunning, MayChange, running_image, running_with};

/// A sound volume may be opened with the roles that its records give and the owners that its bits give, and the first change finds
/// it as `changes_are_steps` asks.
pub fn volumes_open_read()
    ensures may { (g : Geometry) (blocks : Blocks) (hands : List Hand) → IsGeometry g → Sound g blocks hands
        → MayBegin g (role_of g (reading_of g blocks)) (owners_by_bits g (reading_of g blocks)) }
    ensures read { (g : Geometry) (h : Header) (r : Record)
        → IsRead g (λ v. role_of g (reading_of g (block (present_of r)))) (present_of r) (new_journal h (owners_by_bits g (reading_of g (block (present_of r))))) }
{}

/// A draft at its end is a change that a store takes: of the content that the store tells, with a right tree and right links, and
/// while nothing is held that the volume claimed before.
pub fn drafts_are_changes()
    ensures { (g : Geometry) (roles : Roles) (r : Record) (j : Journal) (hands after : List Hand) (told : AllTold) (change : Change) (tree : Tree) → IsRead g roles (present_of r) j
        → TellsRunning g (present_of r) j told → Sound g (block (running_image g r j)) hands
        → IsDraft g (running_image g r j) (λ b. told.changing.is_taken b || is_among b change.taken) change after → HoldsNoneOf (reading_of g (block (running_image g r j))) after
        → tree_of g (running_with g r j change) ≡ tree → IsRightTree g tree → HaveLinksOf g (running_with g r j change) tree
        → All (λ b. told.changing.is_released b ≡ true) change.taken → IfSome told.changing.room (λ room. delta_bytes change.deltas ≤ room)
        → MayChange g roles r j hands told change after }
{}
