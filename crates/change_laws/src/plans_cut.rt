//! A file is cut: it loses the blocks past its new size, and these are held after.
ghost use Rattle.std.specs.Prelude.{◌≡◌, ◌<◌, ◌≤◌, ◌==◌, ℕ, ◌+◌, ◌-◌, ◌*◌, ◌/◌, ◌++◌, [], List, length, take, drop, replicate, slice_index, Some, false};
ghost use Rattle.lufs_base.specs.declared.geometry.Geometry.{Geometry};
ghost use Rattle.volume_model.specs.declared.hand.Hand.{Hand};
ghost use Rattle.volume_model.specs.declared.inode.Dinode.{Dinode};
ghost use Rattle.volume_model.specs.Format.{Blocks, pointers_of};
ghost use Rattle.volume_model.specs.Sound.{direct_blocks, pointers_of_block, UsedInode, InUse, used_inode, size_in_blocks, FileNode, File, attributes_of};
ghost use Rattle.volume_laws.specs.Changes.{AgreeWhereReadBut};
ghost use Rattle.change_laws.specs.Plans.{HasInode, ChangesInode, WritesRecord, HoldMore, blocks_past};

/// A file is cut to a size for which the direct blocks are enough: its record has the numbers below it alone, and no pointer
/// block.
pub fn cut_to()
    ensures { (g : Geometry) (blocks others : Blocks) (i s : ℕ) (u : UsedInode) (d : Dinode) (file : FileNode) (hands after : List Hand) → HasInode g blocks hands i u (File file)
        → WritesRecord g blocks others i (Some d) → d.mode / 512 ≡ u.inode.mode / 512 → d.size ≤ u.inode.size → size_in_blocks d.size ≡ s → s ≤ direct_blocks
        → d.direct ≡ take s u.inode.direct ++ replicate (direct_blocks - s) 0 → slice_index d.indirect 0 ≡ 0
        → d.blocks + length (blocks_past u s) ≡ u.inode.blocks → HoldMore after hands [] (blocks_past u s)
        → ChangesInode g blocks others i (InUse (used_inode others d))
        (Some (File (record file { attributes = attributes_of d; size = d.size; blocks = take s file.blocks; pointers = [] }))) after }
{}

/// A file is cut to a size for which it needs its pointer block: the numbers past it are cleared there, and then its record is
/// written.
pub fn cut_by_pointer()
    ensures { (g : Geometry) (blocks middle others : Blocks) (i j n : ℕ) (u : UsedInode) (d : Dinode) (file : FileNode) (hands after : List Hand) → HasInode g blocks hands i u (File file)
        → (slice_index u.inode.indirect 0 == 0) ≡ false → j + n ≤ pointers_of_block → size_in_blocks u.inode.size ≤ direct_blocks + j + n
        → AgreeWhereReadBut g blocks middle (slice_index u.inode.indirect 0) (4 * j) (4 * n)
        → take n (drop j (pointers_of (middle (slice_index u.inode.indirect 0)))) ≡ replicate n 0
        → WritesRecord g middle others i (Some d) → d.mode / 512 ≡ u.inode.mode / 512 → d.size ≤ u.inode.size → size_in_blocks d.size ≡ direct_blocks + j
        → 0 < j → d.direct ≡ u.inode.direct → d.indirect ≡ u.inode.indirect
        → d.blocks + length (blocks_past u (direct_blocks + j)) ≡ u.inode.blocks → HoldMore after hands [] (blocks_past u (direct_blocks + j))
        → ChangesInode g blocks others i (InUse (used_inode others d))
        (Some (File (record file { attributes = attributes_of d; size = d.size; blocks = take (direct_blocks + j) file.blocks }))) after }
{}

/// A file without a pointer block is cut to a size past the direct blocks: it has holes there, and loses no block.
pub fn file_shortened()
    ensures { (g : Geometry) (blocks others : Blocks) (i : ℕ) (u : UsedInode) (d : Dinode) (file : FileNode) (hands : List Hand) → HasInode g blocks hands i u (File file)
        → WritesRecord g blocks others i (Some d) → d.mode / 512 ≡ u.inode.mode / 512 → d.size ≤ u.inode.size → direct_blocks < size_in_blocks d.size
        → slice_index u.inode.indirect 0 ≡ 0 → d.direct ≡ u.inode.direct → d.indirect ≡ u.inode.indirect → d.blocks ≡ u.inode.blocks
        → ChangesInode g blocks others i (InUse (used_inode others d))
        (Some (File (record file { attributes = attributes_of d; size = d.size; blocks = take (size_in_blocks d.size) file.blocks }))) hands }
{}
