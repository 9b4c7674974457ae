// Blocks and inodes are given up: an inode is freed, and what it had is freed and put back, one hand of a group after the other.
ghost use Rattle.std.specs.Prelude.{◌≡◌, ◌<◌, ◌==◌, ◌∷◌, ◌++◌, [], ℕ, Bool, true, false, not, nat_lt, List, slice_index, Some, None, All};
ghost use Rattle.lufs_base.specs.declared.geometry.Geometry.{Geometry};
ghost use Rattle.volume_model.specs.declared.hand.Hand.{Hand};
ghost use Rattle.volume_model.specs.Format.{Image, Blocks, block, is_file, dinode_bytes, GroupRecord, IsGroup, group_bytes};
ghost use Rattle.volume_model.specs.Sound.{UsedInode, Node, reading_of, record_at, used_at, is_claimed, has_right_counts, metadata_length, IsStored};
ghost use Rattle.change_laws.specs.Hands.{HoldTheSame};
ghost use Rattle.change_laws.specs.Exchange.{claimed_blocks};
ghost use Rattle.change_laws.specs.Marks.{IsOfGroup, HasHandPut};
ghost use Rattle.change_laws.specs.Plans.{HasInode, HoldMore};
ghost use Rattle.meta_store.specs.declared.change.Change.{Change};
ghost use Rattle.meta_store.specs.declared.change.Freed.{Freed};
ghost use Rattle.meta_store.specs.Deltas.{inode_delta, group_delta};
ghost use Rattle.meta_draft.specs.Drafted.{drafted_blocks, with_delta, with_freed};
ghost use Rattle.draft_laws.specs.Drafts.{IsDraft, Draws};
ghost use Rattle.draft_laws.specs.Freeing.{with_all_freed, GivesUp, KeepsTree};

/// An inode whose blocks were claimed before is freed: it and its blocks are held, and these are still to be freed.
pub fn inode_freed()
    ensures { (g : Geometry) (base : Image) (taken : ℕ → Bool) (change : Change) (hands after : List Hand) (i : ℕ) (u : UsedInode) (node : Node) → IsDraft g base taken change hands
        → HasInode g (drafted_blocks change base) hands i u node → All (λ b. is_claimed (reading_of g (block base)) b ≡ true) (claimed_blocks i (Some u))
        → HoldMore after hands (i ∷ []) (claimed_blocks i (Some u))
        → Draws g base taken change (with_delta change (inode_delta g i (dinode_bytes None))) i None None after }
{}

/// A hand of one group, of blocks that were claimed before and perhaps an inode, is put back: its blocks are freed, and its bits
/// cleared.
pub fn hand_given_back()
    ensures back { (g : Geometry) (base : Image) (taken : ℕ → Bool) (change : Change) (n : ℕ) (hand : Hand) (hands : List Hand) (old new : GroupRecord) (freed : List Freed)
        → IsDraft g base taken change (hand ∷ hands) → n < g.groups → record_at (reading_of g (drafted_blocks change base)) n ≡ Some old → IsGroup g n new → has_right_counts g new ≡ true
        → IsOfGroup g n hand → HasHandPut g n false hand old new → GivesUp g base hand freed
        → KeepsTree g base taken change (with_delta (with_all_freed change freed) (group_delta g n (group_bytes new))) hands }
    // One more block freed, after the others.
    ensures more { (change : Change) (freed : List Freed) (f : Freed) → with_all_freed change (freed ++ f ∷ []) ≡ with_freed (with_all_freed change freed) f }
{}

/// A draft with these hands is one with hands that hold the same, in another order or divided; and one in a transaction that
/// took the same blocks.
pub fn draft_alike()
    ensures hands { (g : Geometry) (base : Image) (taken : ℕ → Bool) (change : Change) (hands others : List Hand) → HoldTheSame hands others → IsDraft g base taken change hands
        → IsDraft g base taken change others }
    ensures taken { (g : Geometry) (base : Image) (taken other : ℕ → Bool) (change : Change) (hands : List Hand) → ((b : ℕ) → other b ≡ taken b) → IsDraft g base taken change hands
        → IsDraft g base other change hands }
{}

/// The blocks of an inode in use are claimed, and hold metadata, all but those at the indexes of a file.
pub fn blocks_of_inode()
    ensures claimed { (g : Geometry) (blocks : Blocks) (hands : List Hand) (i : ℕ) (u : UsedInode) → IsStored g (reading_of g blocks) hands → used_at (reading_of g blocks) i ≡ Some u
        → All (λ b. is_claimed (reading_of g blocks) b ≡ true) (claimed_blocks i (Some u)) }
    ensures pointer { (g : Geometry) (blocks : Blocks) (hands : List Hand) (i : ℕ) (u : UsedInode) → IsStored g (reading_of g blocks) hands → used_at (reading_of g blocks) i ≡ Some u
        → (slice_index u.inode.indirect 0 == 0) ≡ false → nat_lt 0 (metadata_length g (reading_of g blocks) (slice_index u.inode.indirect 0)) ≡ true }
    ensures index { (g : Geometry) (blocks : Blocks) (hands : List Hand) (i : ℕ) (u : UsedInode) (k : ℕ) → IsStored g (reading_of g blocks) hands → used_at (reading_of g blocks) i ≡ Some u
        → (slice_index u.numbers k == 0) ≡ false → nat_lt 0 (metadata_length g (reading_of g blocks) (slice_index u.numbers k)) ≡ not (is_file u.inode.mode) }
{}
