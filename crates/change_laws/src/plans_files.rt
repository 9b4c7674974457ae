//! A file gets another size, a held block at an index where it had none, and a held pointer block.
ghost use Rattle.std.specs.Prelude.{◌≡◌, ◌<◌, ◌≤◌, ◌==◌, ℕ, ◌+◌, ◌-◌, ◌*◌, ◌/◌, ◌∷◌, ◌++◌, [], List, take, replicate, slice_index, slice_set, Some, None, false};
ghost use Rattle.lufs_base.specs.Fields.{u32_at};
ghost use Rattle.lufs_base.specs.declared.geometry.Geometry.{Geometry};
ghost use Rattle.volume_model.specs.declared.hand.Hand.{Hand};
ghost use Rattle.volume_model.specs.declared.inode.Dinode.{Dinode};
ghost use Rattle.volume_model.specs.Format.{Blocks, pointers_of};
ghost use Rattle.volume_model.specs.Sound.{direct_blocks, pointers_of_block, UsedInode, InUse, used_inode, size_in_blocks, most_blocks, Single, FileNode, File, attributes_of};
ghost use Rattle.volume_laws.specs.Changes.{AgreeWhereReadBut, with_block};
ghost use Rattle.change_laws.specs.Plans.{HasInode, ChangesInode, WritesRecord, HoldMore};

/// A file whose size takes in more indexes has holes there.
pub fn file_lengthened()
    ensures { (g : Geometry) (blocks others : Blocks) (i : ℕ) (u : UsedInode) (d : Dinode) (file : FileNode) (hands : List Hand) → HasInode g blocks hands i u (File file)
        → WritesRecord g blocks others i (Some d) → d.mode / 512 ≡ u.inode.mode / 512 → d.direct ≡ u.inode.direct → d.indirect ≡ u.inode.indirect
        → d.blocks ≡ u.inode.blocks → size_in_blocks u.inode.size ≤ size_in_blocks d.size → d.size ≤ 4096 * most_blocks g
        → ChangesInode g blocks others i (InUse (used_inode others d)) (Some (File (record file {
          attributes = attributes_of d;
          size = d.size;
          blocks = file.blocks ++ replicate (size_in_blocks d.size - size_in_blocks u.inode.size) None;
        }))) hands }
{}

/// A held block is that of a file at a direct index, where it had a hole.
pub fn file_block_attached()
    ensures { (g : Geometry) (blocks others : Blocks) (i k b : ℕ) (u : UsedInode) (d : Dinode) (file : FileNode) (hands after : List Hand) → HasInode g blocks hands i u (File file)
        → WritesRecord g blocks others i (Some d) → d.mode / 512 ≡ u.inode.mode / 512 → d.size ≡ u.inode.size → d.direct ≡ slice_set u.inode.direct k b
        → d.indirect ≡ u.inode.indirect → d.blocks ≡ u.inode.blocks + 1 → k < direct_blocks → k < size_in_blocks u.inode.size → slice_index u.numbers k ≡ 0
        → HoldMore hands after [] (b ∷ [])
        → ChangesInode g blocks others i (InUse (used_inode others d))
        (Some (File (with_block (record file { attributes = attributes_of d }) k (Some (take 4096 (others b)))))) after }
{}

/// A held pointer block without numbers is that of a file which has room for it.
pub fn file_pointer_attached()
    ensures { (g : Geometry) (blocks others : Blocks) (i p : ℕ) (u : UsedInode) (d : Dinode) (file : FileNode) (hands after : List Hand) → HasInode g blocks hands i u (File file)
        → WritesRecord g blocks others i (Some d) → d.mode / 512 ≡ u.inode.mode / 512 → d.size ≡ u.inode.size → d.direct ≡ u.inode.direct
        → slice_index u.inode.indirect 0 ≡ 0 → slice_index d.indirect 0 ≡ p → d.blocks ≡ u.inode.blocks + 1 → direct_blocks < size_in_blocks u.inode.size
        → pointers_of (others p) ≡ replicate pointers_of_block 0 → HoldMore hands after [] (p ∷ [])
        → ChangesInode g blocks others i (InUse (used_inode others d)) (Some (File (record file { attributes = attributes_of d; pointers = Single ∷ [] }))) after }
{}

/// A held block is that of a file at an index of its pointer block, where it had a hole: its number is written there, and then
/// the record.
pub fn file_block_attached_by_pointer()
    ensures { (g : Geometry) (blocks middle others : Blocks) (i j b : ℕ) (u : UsedInode) (d : Dinode) (file : FileNode) (hands after : List Hand) → HasInode g blocks hands i u (File file)
        → AgreeWhereReadBut g blocks middle (slice_index u.inode.indirect 0) (4 * j) 4 → u32_at (middle (slice_index u.inode.indirect 0)) (4 * j) ≡ b
        → WritesRecord g middle others i (Some d) → d.mode / 512 ≡ u.inode.mode / 512 → d.size ≡ u.inode.size → d.direct ≡ u.inode.direct
        → d.indirect ≡ u.inode.indirect → d.blocks ≡ u.inode.blocks + 1 → (slice_index u.inode.indirect 0 == 0) ≡ false
        → direct_blocks + j < size_in_blocks u.inode.size → slice_index u.numbers (direct_blocks + j) ≡ 0 → HoldMore hands after [] (b ∷ [])
        → ChangesInode g blocks others i (InUse (used_inode others d))
        (Some (File (with_block (record file { attributes = attributes_of d }) (direct_blocks + j) (Some (take 4096 (others b)))))) after }
{}
