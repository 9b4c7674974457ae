// A directory gets one chunk more, after its last one: in the same block, or at the front of a held block, which is given in
// whole.
ghost use Rattle.std.specs.Prelude.{◌≡◌, ◌≢◌, ◌<◌, ◌==◌, ◌+◌, ◌*◌, ◌/◌, ◌%◌, ◌∷◌, ◌++◌, [], ℕ, Bool, false, List, length, slice_index, slice_set, Some};
ghost use Rattle.lufs_base.specs.declared.geometry.Geometry.{Geometry};
ghost use Rattle.volume_model.specs.declared.hand.Hand.{Hand};
ghost use Rattle.volume_model.specs.declared.inode.Dinode.{Dinode};
ghost use Rattle.volume_model.specs.declared.directory.Slot.{Slot};
ghost use Rattle.volume_model.specs.Format.{Image, IsDinode, dinode_bytes, IsChunk, chunk_bytes, numbers_bytes};
ghost use Rattle.volume_model.specs.Sound.{direct_blocks, UsedInode, DirectoryNode, Directory, attributes_of};
ghost use Rattle.change_laws.specs.Plans.{HasInode, GrowsByChunk, HoldMore};
ghost use Rattle.meta_store.specs.declared.change.Change.{Change};
ghost use Rattle.meta_store.specs.Deltas.{inode_delta, chunk_delta, zero_delta, pointers_delta};
ghost use Rattle.meta_draft.specs.Drafted.{drafted_blocks, with_delta};
ghost use Rattle.draft_laws.specs.Drafts.{IsDraft, Draws, MayAttach};

/// The next chunk of its last block.
pub fn chunk_added()
    ensures { (g : Geometry) (base : Image) (taken : ℕ → Bool) (change : Change) (hands : List Hand) (i : ℕ) (u : UsedInode) (d : Dinode) (directory : DirectoryNode) (slots : List Slot)
        → IsDraft g base taken change hands → HasInode g (drafted_blocks change base) hands i u (Directory directory) → IsDinode g.version d → GrowsByChunk u.inode d → IsChunk slots
        → d.direct ≡ u.inode.direct → d.indirect ≡ u.inode.indirect → d.blocks ≡ u.inode.blocks → length directory.chunks % 8 ≢ 0
        → Draws g base taken change
        (with_delta (with_delta change (chunk_delta (slice_index u.numbers (length directory.chunks / 8)) (length directory.chunks % 8) (chunk_bytes slots))) (inode_delta g i (dinode_bytes (Some d)))) i
        (Some (Directory (record { attributes = attributes_of d; chunks = directory.chunks ++ slots ∷ [] }))) (Some d.links) hands }
{}

/// A held block is its next direct one.
pub fn block_added()
    ensures { (g : Geometry) (base : Image) (taken : ℕ → Bool) (change : Change) (hands after : List Hand) (i k b : ℕ) (u : UsedInode) (d : Dinode) (directory : DirectoryNode) (slots : List Slot)
        → IsDraft g base taken change hands → HasInode g (drafted_blocks change base) hands i u (Directory directory) → IsDinode g.version d → GrowsByChunk u.inode d → IsChunk slots
        → HoldMore hands after [] (b ∷ []) → MayAttach g base taken change b → length directory.chunks ≡ 8 * k
        → d.direct ≡ slice_set u.inode.direct k b → d.indirect ≡ u.inode.indirect → d.blocks ≡ u.inode.blocks + 1 → k < direct_blocks
        → Draws g base taken change (with_delta (with_delta (with_delta change (zero_delta b)) (chunk_delta b 0 (chunk_bytes slots))) (inode_delta g i (dinode_bytes (Some d)))) i
        (Some (Directory (record { attributes = attributes_of d; chunks = directory.chunks ++ slots ∷ [] }))) (Some d.links) after }
{}

/// A held block is its first one after the direct ones; its number is the first of a held pointer block.
pub fn pointer_added()
    ensures { (g : Geometry) (base : Image) (taken : ℕ → Bool) (change : Change) (hands after : List Hand) (i p b : ℕ) (u : UsedInode) (d : Dinode) (directory : DirectoryNode) (slots : List Slot)
        → IsDraft g base taken change hands → HasInode g (drafted_blocks change base) hands i u (Directory directory) → IsDinode g.version d → GrowsByChunk u.inode d → IsChunk slots
        → HoldMore hands after [] (p ∷ (b ∷ [])) → MayAttach g base taken change p → MayAttach g base taken change b
        → d.direct ≡ u.inode.direct → slice_index d.indirect 0 ≡ p → d.blocks ≡ u.inode.blocks + 2 → length directory.chunks ≡ 8 * direct_blocks
        → Draws g base taken change
        (with_delta (with_delta (with_delta (with_delta (with_delta change (zero_delta p)) (pointers_delta p 0 (numbers_bytes (b ∷ [])))) (zero_delta b)) (chunk_delta b 0 (chunk_bytes slots)))
        (inode_delta g i (dinode_bytes (Some d)))) i
        (Some (Directory (record { attributes = attributes_of d; chunks = directory.chunks ++ slots ∷ [] }))) (Some d.links) after }
{}

/// A held block is its next one by its pointer block.
pub fn block_added_by_pointer()
    ensures { (g : Geometry) (base : Image) (taken : ℕ → Bool) (change : Change) (hands after : List Hand) (i j b : ℕ) (u : UsedInode) (d : Dinode) (directory : DirectoryNode) (slots : List Slot)
        → IsDraft g base taken change hands → HasInode g (drafted_blocks change base) hands i u (Directory directory) → IsDinode g.version d → GrowsByChunk u.inode d → IsChunk slots
        → HoldMore hands after [] (b ∷ []) → MayAttach g base taken change b → d.direct ≡ u.inode.direct → d.indirect ≡ u.inode.indirect → d.blocks ≡ u.inode.blocks + 1
        → (slice_index u.inode.indirect 0 == 0) ≡ false → direct_blocks + j < 256 → length directory.chunks ≡ 8 * (direct_blocks + j)
        → Draws g base taken change
        (with_delta (with_delta (with_delta (with_delta change (zero_delta b)) (chunk_delta b 0 (chunk_bytes slots))) (pointers_delta (slice_index u.inode.indirect 0) j (numbers_bytes (b ∷ []))))
        (inode_delta g i (dinode_bytes (Some d)))) i
        (Some (Directory (record { attributes = attributes_of d; chunks = directory.chunks ++ slots ∷ [] }))) (Some d.links) after }
{}
