//! A directory gets one chunk more, after its last one: in the same block, or at the front of a block that was held.
ghost use Rattle.std.specs.Prelude.{◌≡◌, ◌≢◌, ◌<◌, ◌==◌, ℕ, ◌+◌, ◌*◌, ◌%◌, ◌∷◌, ◌++◌, [], List, length, take, replicate, slice_index, slice_set, Some, false};
ghost use Rattle.lufs_base.specs.Fields.{u32_at};
ghost use Rattle.lufs_base.specs.declared.geometry.Geometry.{Geometry};
ghost use Rattle.volume_model.specs.declared.hand.Hand.{Hand};
ghost use Rattle.volume_model.specs.declared.inode.Dinode.{Dinode};
ghost use Rattle.volume_model.specs.declared.directory.Slot.{Slot};
ghost use Rattle.volume_model.specs.Format.{Blocks, chunk_of, pointers_of};
ghost use Rattle.volume_model.specs.Sound.{direct_blocks, UsedInode, InUse, used_inode, chunk_at, DirectoryNode, Directory, attributes_of};
ghost use Rattle.volume_laws.specs.Changes.{AgreeWhereReadBut};
ghost use Rattle.change_laws.specs.Plans.{HasInode, ChangesInode, WritesRecord, GrowsByChunk, HoldMore};

/// The size of a directory takes in the next chunk of its last block.
pub fn size_grown()
    ensures { (g : Geometry) (blocks others : Blocks) (i : ℕ) (u : UsedInode) (d : Dinode) (directory : DirectoryNode) (slots : List Slot) (hands : List Hand)
        → HasInode g blocks hands i u (Directory directory)
        → WritesRecord g blocks others i (Some d) → GrowsByChunk u.inode d → d.direct ≡ u.inode.direct → d.indirect ≡ u.inode.indirect → d.blocks ≡ u.inode.blocks
        → length directory.chunks % 8 ≢ 0 → chunk_at others u.numbers (length directory.chunks) ≡ Some slots
        → ChangesInode g blocks others i (InUse (used_inode others d)) (Some (Directory (record { attributes = attributes_of d; chunks = directory.chunks ++ slots ∷ [] }))) hands }
{}

/// A held block is the next direct one of a directory.
pub fn block_attached()
    ensures { (g : Geometry) (blocks others : Blocks) (i k b : ℕ) (u : UsedInode) (d : Dinode) (directory : DirectoryNode) (slots : List Slot) (hands after : List Hand)
        → HasInode g blocks hands i u (Directory directory)
        → WritesRecord g blocks others i (Some d) → GrowsByChunk u.inode d → d.direct ≡ slice_set u.inode.direct k b → d.indirect ≡ u.inode.indirect
        → d.blocks ≡ u.inode.blocks + 1 → k < direct_blocks → length directory.chunks ≡ 8 * k → HoldMore hands after [] (b ∷ [])
        → chunk_of (take 512 (others b)) ≡ Some slots
        → ChangesInode g blocks others i (InUse (used_inode others d)) (Some (Directory (record { attributes = attributes_of d; chunks = directory.chunks ++ slots ∷ [] }))) after }
{}

/// A held block is the first one of a directory after the direct ones; its number is the first of a held pointer block.
pub fn pointer_attached()
    ensures { (g : Geometry) (blocks others : Blocks) (i p b : ℕ) (u : UsedInode) (d : Dinode) (directory : DirectoryNode) (slots : List Slot) (hands after : List Hand)
        → HasInode g blocks hands i u (Directory directory)
        → WritesRecord g blocks others i (Some d) → GrowsByChunk u.inode d → d.direct ≡ u.inode.direct → slice_index d.indirect 0 ≡ p
        → d.blocks ≡ u.inode.blocks + 2 → length directory.chunks ≡ 8 * direct_blocks → HoldMore hands after [] (p ∷ (b ∷ []))
        → pointers_of (others p) ≡ b ∷ replicate 1023 0 → chunk_of (take 512 (others b)) ≡ Some slots
        → ChangesInode g blocks others i (InUse (used_inode others d)) (Some (Directory (record { attributes = attributes_of d; chunks = directory.chunks ++ slots ∷ [] }))) after }
{}

/// A held block is the next one of a directory by its pointer block: its number is written there, and then the record.
pub fn block_attached_by_pointer()
    ensures { (g : Geometry) (blocks middle others : Blocks) (i j b : ℕ) (u : UsedInode) (d : Dinode) (directory : DirectoryNode) (slots : List Slot) (hands after : List Hand)
        → HasInode g blocks hands i u (Directory directory)
        → AgreeWhereReadBut g blocks middle (slice_index u.inode.indirect 0) (4 * j) 4 → u32_at (middle (slice_index u.inode.indirect 0)) (4 * j) ≡ b
        → WritesRecord g middle others i (Some d) → GrowsByChunk u.inode d → d.direct ≡ u.inode.direct → d.indirect ≡ u.inode.indirect
        → d.blocks ≡ u.inode.blocks + 1 → (slice_index u.inode.indirect 0 == 0) ≡ false → direct_blocks + j < 256
        → length directory.chunks ≡ 8 * (direct_blocks + j) → HoldMore hands after [] (b ∷ []) → chunk_of (take 512 (others b)) ≡ Some slots
        → ChangesInode g blocks others i (InUse (used_inode others d)) (Some (Directory (record { attributes = attributes_of d; chunks = directory.chunks ++ slots ∷ [] }))) after }
{}
