//! A held inode is made, and an inode in use is freed.
ghost use Rattle.std.specs.Prelude.{◌≡◌, ◌≤◌, ℕ, ◌∷◌, [], List, take, Some, None, true};
ghost use Rattle.lufs_base.specs.Layout.{IsGeometry};
ghost use Rattle.lufs_base.specs.declared.geometry.Geometry.{Geometry};
ghost use Rattle.volume_model.specs.declared.hand.Hand.{Hand};
ghost use Rattle.volume_model.specs.declared.inode.Dinode.{Dinode};
ghost use Rattle.volume_model.specs.declared.directory.Slot.{Slot};
ghost use Rattle.volume_model.specs.Format.{Blocks, is_file, is_directory, is_link, chunk_of};
ghost use Rattle.volume_model.specs.Sound.{UsedInode, InUse, Unused, reading_of, used_inode, IsStored, Node, File, Directory, Link, attributes_of};
ghost use Rattle.change_laws.specs.Exchange.{claimed_blocks};
ghost use Rattle.change_laws.specs.Plans.{HasInode, ChangesInode, WritesRecord, HasJustBlocks, HoldMore};

/// The record of a held inode becomes that of an empty file.
pub fn file_made()
    ensures { (g : Geometry) (blocks others : Blocks) (i : ℕ) (d : Dinode) (hands after : List Hand) → IsGeometry g → IsStored g (reading_of g blocks) hands
        → HoldMore hands after (i ∷ []) [] → WritesRecord g blocks others i (Some d) → HasJustBlocks d [] → is_file d.mode ≡ true → d.size ≡ 0
        → ChangesInode g blocks others i (InUse (used_inode others d)) (Some (File (record { attributes = attributes_of d; size = 0; blocks = []; pointers = [] }))) after }
{}

/// The record of a held inode becomes that of a directory with one chunk, at the front of a held block.
pub fn directory_made()
    ensures { (g : Geometry) (blocks others : Blocks) (i b : ℕ) (d : Dinode) (slots : List Slot) (hands after : List Hand) → IsGeometry g → IsStored g (reading_of g blocks) hands
        → HoldMore hands after (i ∷ []) (b ∷ []) → WritesRecord g blocks others i (Some d) → HasJustBlocks d (b ∷ []) → is_directory d.mode ≡ true → d.size ≡ 512
        → chunk_of (take 512 (others b)) ≡ Some slots
        → ChangesInode g blocks others i (InUse (used_inode others d)) (Some (Directory (record { attributes = attributes_of d; chunks = slots ∷ [] }))) after }
{}

/// The record of a held inode becomes that of a link, whose text stands at the front of a held block.
pub fn link_made()
    ensures { (g : Geometry) (blocks others : Blocks) (i b : ℕ) (d : Dinode) (hands after : List Hand) → IsGeometry g → IsStored g (reading_of g blocks) hands
        → HoldMore hands after (i ∷ []) (b ∷ []) → WritesRecord g blocks others i (Some d) → HasJustBlocks d (b ∷ []) → is_link d.mode ≡ true → 1 ≤ d.size → d.size ≤ 1024
        → ChangesInode g blocks others i (InUse (used_inode others d)) (Some (Link (record { attributes = attributes_of d; text = take d.size (others b) }))) after }
{}

/// The record of an inode in use becomes a free one, and the inode and all its blocks are held after.
pub fn inode_freed()
    ensures { (g : Geometry) (blocks others : Blocks) (i : ℕ) (u : UsedInode) (node : Node) (hands after : List Hand) → HasInode g blocks hands i u node
        → WritesRecord g blocks others i None → HoldMore after hands (i ∷ []) (claimed_blocks i (Some u)) → ChangesInode g blocks others i Unused None after }
{}
