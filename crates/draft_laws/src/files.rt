// A file gets another size, or one block more.
ghost use Rattle.std.specs.Prelude.{◌≡◌, ◌<◌, ◌≤◌, ◌+◌, ◌-◌, ◌*◌, ◌/◌, ◌∷◌, ◌++◌, ◌==◌, [], ℕ, Bool, true, false, List, length, take, replicate, slice_index, slice_set, Some, None, All};
ghost use Rattle.lufs_base.specs.declared.geometry.Geometry.{Geometry};
ghost use Rattle.volume_model.specs.declared.hand.Hand.{Hand};
ghost use Rattle.volume_model.specs.declared.inode.Dinode.{Dinode};
ghost use Rattle.volume_model.specs.Format.{Image, block, IsDinode, dinode_bytes, numbers_bytes};
ghost use Rattle.volume_model.specs.Sound.{direct_blocks, pointers_of_block, Single, UsedInode, reading_of, is_claimed, size_in_blocks, most_blocks, FileNode, File, attributes_of};
ghost use Rattle.volume_laws.specs.Changes.{with_block};
ghost use Rattle.change_laws.specs.Plans.{HasInode, HoldMore, blocks_past};
ghost use Rattle.meta_store.specs.declared.change.Change.{Change};
ghost use Rattle.meta_store.specs.Deltas.{inode_delta, zero_delta, pointers_delta};
ghost use Rattle.meta_draft.specs.Drafted.{drafted_blocks, with_delta};
ghost use Rattle.draft_laws.specs.Drafts.{IsDraft, Draws, MayAttach, IsNewBlock};

/// A file is longer, and has holes there.
pub fn file_lengthened()
    ensures { (g : Geometry) (base : Image) (taken : ℕ → Bool) (change : Change) (hands : List Hand) (i : ℕ) (u : UsedInode) (d : Dinode) (file : FileNode) → IsDraft g base taken change hands
        → HasInode g (drafted_blocks change base) hands i u (File file) → IsDinode g.version d → d.mode / 512 ≡ u.inode.mode / 512 → d.direct ≡ u.inode.direct → d.indirect ≡ u.inode.indirect
        → d.blocks ≡ u.inode.blocks → size_in_blocks u.inode.size ≤ size_in_blocks d.size → d.size ≤ 4096 * most_blocks g
        → Draws g base taken change (with_delta change (inode_delta g i (dinode_bytes (Some d)))) i (Some (File (record file {
          attributes = attributes_of d;
          size = d.size;
          blocks = file.blocks ++ replicate (size_in_blocks d.size - size_in_blocks u.inode.size) None;
        }))) (Some d.links) hands }
{}

/// A file without a pointer block is cut to a size past the direct blocks: it loses holes alone.
pub fn file_shortened()
    ensures { (g : Geometry) (base : Image) (taken : ℕ → Bool) (change : Change) (hands : List Hand) (i : ℕ) (u : UsedInode) (d : Dinode) (file : FileNode) → IsDraft g base taken change hands
        → HasInode g (drafted_blocks change base) hands i u (File file) → IsDinode g.version d → d.mode / 512 ≡ u.inode.mode / 512 → d.direct ≡ u.inode.direct → d.indirect ≡ u.inode.indirect
        → d.blocks ≡ u.inode.blocks → d.size ≤ u.inode.size → direct_blocks < size_in_blocks d.size → slice_index u.inode.indirect 0 ≡ 0
        → Draws g base taken change (with_delta change (inode_delta g i (dinode_bytes (Some d)))) i
        (Some (File (record file { attributes = attributes_of d; size = d.size; blocks = take (size_in_blocks d.size) file.blocks }))) (Some d.links) hands }
{}

/// A file is cut to a size for which the direct blocks are enough. Its blocks past it, and its pointer block, were claimed before,
/// and are still to be freed.
pub fn file_cut()
    ensures { (g : Geometry) (base : Image) (taken : ℕ → Bool) (change : Change) (hands after : List Hand) (i s : ℕ) (u : UsedInode) (d : Dinode) (file : FileNode) → IsDraft g base taken change hands
        → HasInode g (drafted_blocks change base) hands i u (File file) → IsDinode g.version d → d.mode / 512 ≡ u.inode.mode / 512 → d.size ≤ u.inode.size → size_in_blocks d.size ≡ s → s ≤ direct_blocks
        → d.direct ≡ take s u.inode.direct ++ replicate (direct_blocks - s) 0 → slice_index d.indirect 0 ≡ 0 → d.blocks + length (blocks_past u s) ≡ u.inode.blocks
        → HoldMore after hands [] (blocks_past u s) → All (λ b. is_claimed (reading_of g (block base)) b ≡ true) (blocks_past u s)
        → Draws g base taken change (with_delta change (inode_delta g i (dinode_bytes (Some d)))) i
        (Some (File (record file { attributes = attributes_of d; size = d.size; blocks = take s file.blocks; pointers = [] }))) (Some d.links) after }
{}

/// A held block is that of a file at a direct index, where it had a hole, with the bytes that stand in it.
pub fn file_block_attached()
    ensures { (g : Geometry) (base : Image) (taken : ℕ → Bool) (change : Change) (hands after : List Hand) (i k b : ℕ) (u : UsedInode) (d : Dinode) (file : FileNode) → IsDraft g base taken change hands
        → HasInode g (drafted_blocks change base) hands i u (File file) → IsDinode g.version d → d.mode / 512 ≡ u.inode.mode / 512 → d.size ≡ u.inode.size → d.direct ≡ slice_set u.inode.direct k b
        → d.indirect ≡ u.inode.indirect → d.blocks ≡ u.inode.blocks + 1 → k < direct_blocks → k < size_in_blocks u.inode.size → slice_index u.numbers k ≡ 0
        → HoldMore hands after [] (b ∷ []) → IsNewBlock g base taken b
        → Draws g base taken change (with_delta change (inode_delta g i (dinode_bytes (Some d)))) i
        (Some (File (with_block (record file { attributes = attributes_of d }) k (Some (take 4096 (drafted_blocks change base b)))))) (Some d.links) after }
{}

/// A held pointer block without numbers is that of a file which has room for it.
pub fn file_pointer_attached()
    ensures { (g : Geometry) (base : Image) (taken : ℕ → Bool) (change : Change) (hands after : List Hand) (i p : ℕ) (u : UsedInode) (d : Dinode) (file : FileNode) → IsDraft g base taken change hands
        → HasInode g (drafted_blocks change base) hands i u (File file) → IsDinode g.version d → d.mode / 512 ≡ u.inode.mode / 512 → d.size ≡ u.inode.size → d.direct ≡ u.inode.direct
        → slice_index u.inode.indirect 0 ≡ 0 → slice_index d.indirect 0 ≡ p → d.blocks ≡ u.inode.blocks + 1 → direct_blocks < size_in_blocks u.inode.size
        → HoldMore hands after [] (p ∷ []) → MayAttach g base taken change p
        → Draws g base taken change (with_delta (with_delta change (zero_delta p)) (inode_delta g i (dinode_bytes (Some d)))) i
        (Some (File (record file { attributes = attributes_of d; pointers = Single ∷ [] }))) (Some d.links) after }
{}

/// A held block is that of a file at an index of its pointer block, where it had a hole, with the bytes that stand in it.
pub fn file_block_attached_by_pointer()
    ensures { (g : Geometry) (base : Image) (taken : ℕ → Bool) (change : Change) (hands after : List Hand) (i j b : ℕ) (u : UsedInode) (d : Dinode) (file : FileNode) → IsDraft g base taken change hands
        → HasInode g (drafted_blocks change base) hands i u (File file) → IsDinode g.version d → d.mode / 512 ≡ u.inode.mode / 512 → d.size ≡ u.inode.size → d.direct ≡ u.inode.direct
        → d.indirect ≡ u.inode.indirect → d.blocks ≡ u.inode.blocks + 1 → (slice_index u.inode.indirect 0 == 0) ≡ false → direct_blocks + j < size_in_blocks u.inode.size
        → slice_index u.numbers (direct_blocks + j) ≡ 0 → HoldMore hands after [] (b ∷ []) → IsNewBlock g base taken b
        → Draws g base taken change (with_delta (with_delta change (pointers_delta (slice_index u.inode.indirect 0) j (numbers_bytes (b ∷ [])))) (inode_delta g i (dinode_bytes (Some d)))) i
        (Some (File (with_block (record file { attributes = attributes_of d }) (direct_blocks + j) (Some (take 4096 (drafted_blocks change base b)))))) (Some d.links) after }
{}

/// A file is cut to a size for which it needs its pointer block. The numbers past it are cleared there; these blocks were claimed
/// before, and are still to be freed. Where it has no block past that size its record says so alone.
pub fn file_cut_by_pointer()
    ensures cleared { (g : Geometry) (base : Image) (taken : ℕ → Bool) (change : Change) (hands after : List Hand) (i j n : ℕ) (u : UsedInode) (d : Dinode) (file : FileNode)
        → IsDraft g base taken change hands → HasInode g (drafted_blocks change base) hands i u (File file) → IsDinode g.version d → d.mode / 512 ≡ u.inode.mode / 512
        → (slice_index u.inode.indirect 0 == 0) ≡ false → d.size ≤ u.inode.size → size_in_blocks d.size ≡ direct_blocks + j → 0 < j → d.direct ≡ u.inode.direct → d.indirect ≡ u.inode.indirect
        → 0 < n → j + n ≤ pointers_of_block → size_in_blocks u.inode.size ≤ direct_blocks + j + n → d.blocks + length (blocks_past u (direct_blocks + j)) ≡ u.inode.blocks
        → HoldMore after hands [] (blocks_past u (direct_blocks + j)) → All (λ b. is_claimed (reading_of g (block base)) b ≡ true) (blocks_past u (direct_blocks + j))
        → Draws g base taken change
        (with_delta (with_delta change (pointers_delta (slice_index u.inode.indirect 0) j (numbers_bytes (replicate n 0)))) (inode_delta g i (dinode_bytes (Some d)))) i
        (Some (File (record file { attributes = attributes_of d; size = d.size; blocks = take (direct_blocks + j) file.blocks }))) (Some d.links) after }
    ensures in_place { (g : Geometry) (base : Image) (taken : ℕ → Bool) (change : Change) (hands : List Hand) (i j : ℕ) (u : UsedInode) (d : Dinode) (file : FileNode)
        → IsDraft g base taken change hands → HasInode g (drafted_blocks change base) hands i u (File file) → IsDinode g.version d → d.mode / 512 ≡ u.inode.mode / 512
        → (slice_index u.inode.indirect 0 == 0) ≡ false → d.size ≤ u.inode.size → size_in_blocks d.size ≡ direct_blocks + j → 0 < j → d.direct ≡ u.inode.direct → d.indirect ≡ u.inode.indirect
        → d.blocks ≡ u.inode.blocks → size_in_blocks u.inode.size ≤ direct_blocks + j
        → Draws g base taken change (with_delta change (inode_delta g i (dinode_bytes (Some d)))) i
        (Some (File (record file { attributes = attributes_of d; size = d.size; blocks = take (direct_blocks + j) file.blocks }))) (Some d.links) hands }
{}
