//! What is held, marked in the bits of its group.
ghost use Rattle.std.specs.Prelude.{◌≡◌, ◌<◌, ℕ, true, false, List, ◌∷◌, Some, Option};
ghost use Rattle.lufs_base.specs.Layout.{IsGeometry};
ghost use Rattle.lufs_base.specs.declared.geometry.Geometry.{Geometry};
ghost use Rattle.volume_model.specs.declared.hand.Hand.{Hand};
ghost use Rattle.volume_model.specs.Format.{GroupRecord};
ghost use Rattle.volume_model.specs.Sound.{Reading, inodes_in, record_at, has_right_counts, IsStored};
ghost use Rattle.volume_laws.specs.Changes.{with_group};
ghost use Rattle.change_laws.specs.Marks.{Marks, IsOfGroup, IsFree, HasHandPut};

/// A record of a group whose bits say what is in use, claimed or held after leaves a reading stored.
pub fn marked()
    ensures stored { (g : Geometry) (r : Reading) (n : ℕ) (group : GroupRecord) (hands others : List Hand)
        → IsStored g r hands → Marks g r n group hands others → IsStored g (with_group r n (Some group)) others }
    ensures size { (r : Reading) (n : ℕ) (group : Option GroupRecord) → inodes_in (with_group r n group) ≡ inodes_in r }
{}

/// A hand of what is free in a group joins the hands, with its bits set.
pub fn hand_taken()
    ensures { (g : Geometry) (r : Reading) (n : ℕ) (hand : Hand) (hands : List Hand) (old new : GroupRecord) → IsGeometry g → IsStored g r hands
        → n < g.groups → record_at r n ≡ Some old → has_right_counts g new ≡ true → IsOfGroup g n hand → IsFree g r hand
        → HasHandPut g n true hand old new → IsStored g (with_group r n (Some new)) (hand ∷ hands) }
{}

/// A hand of what is held of a group is put back, with its bits clear.
pub fn hand_put_back()
    ensures { (g : Geometry) (r : Reading) (n : ℕ) (hand : Hand) (hands : List Hand) (old new : GroupRecord) → IsGeometry g → IsStored g r (hand ∷ hands)
        → n < g.groups → record_at r n ≡ Some old → has_right_counts g new ≡ true → IsOfGroup g n hand
        → HasHandPut g n false hand old new → IsStored g (with_group r n (Some new)) hands }
{}

/// Of two records in the place of one group's the later one counts.
pub fn record_replaced()
    ensures { (r : Reading) (n : ℕ) (group other : Option GroupRecord) → with_group (with_group r n group) n other ≡ with_group r n other }
{}
