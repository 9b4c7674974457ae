//! Bytes that users wrote change: the text of a link, or the bytes of a file.
ghost use Rattle.std.specs.Prelude.{◌≡◌, ◌==◌, ℕ, slice_index, Some, true, false};
ghost use Rattle.lufs_base.specs.Layout.{IsGeometry};
ghost use Rattle.lufs_base.specs.declared.geometry.Geometry.{Geometry};
ghost use Rattle.volume_model.specs.Format.{Blocks, is_file, is_link};
ghost use Rattle.volume_model.specs.Sound.{UsedInode, reading_of, used_at, IsLaid, FileNode, File, Link, with_node, shape_of, attributes_of, file_block, link_text, tree_of};
ghost use Rattle.volume_laws.specs.Changes.{AgreeWhereReadBut, AgreeInMetadataBut, with_block};

/// Bytes in the block of a link change its text, and nothing else.
pub fn bytes_of_link()
    ensures reading { (g : Geometry) (blocks others : Blocks) (i at n : ℕ) (u : UsedInode) → IsGeometry g → IsLaid g (reading_of g blocks) → used_at (reading_of g blocks) i ≡ Some u
        → is_link u.inode.mode ≡ true → (slice_index u.numbers 0 == 0) ≡ false
        → AgreeInMetadataBut g blocks others (slice_index u.numbers 0) at n
        → reading_of g others ≡ reading_of g blocks }
    ensures tree { (g : Geometry) (blocks others : Blocks) (i at n : ℕ) (u : UsedInode) → IsGeometry g → IsLaid g (reading_of g blocks) → used_at (reading_of g blocks) i ≡ Some u
        → is_link u.inode.mode ≡ true → (slice_index u.numbers 0 == 0) ≡ false
        → AgreeWhereReadBut g blocks others (slice_index u.numbers 0) at n
        → tree_of g others ≡ with_node (tree_of g blocks) i (Some (Link (record { attributes = attributes_of u.inode; text = link_text others u }))) }
    ensures shape { (g : Geometry) (blocks others : Blocks) (i at n : ℕ) (u : UsedInode) → IsGeometry g → IsLaid g (reading_of g blocks) → used_at (reading_of g blocks) i ≡ Some u
        → is_link u.inode.mode ≡ true → (slice_index u.numbers 0 == 0) ≡ false
        → AgreeInMetadataBut g blocks others (slice_index u.numbers 0) at n
        → shape_of (tree_of g others) ≡ with_node (shape_of (tree_of g blocks)) i (Some (Link (record { attributes = attributes_of u.inode; text = link_text others u }))) }
{}

/// Bytes in a block of a file change the bytes that the file has at that index, and nothing else, not even the shape.
pub fn bytes_of_file()
    ensures reading { (g : Geometry) (blocks others : Blocks) (i k at n : ℕ) (u : UsedInode) → IsGeometry g → IsLaid g (reading_of g blocks) → used_at (reading_of g blocks) i ≡ Some u
        → is_file u.inode.mode ≡ true → (slice_index u.numbers k == 0) ≡ false
        → AgreeInMetadataBut g blocks others (slice_index u.numbers k) at n
        → reading_of g others ≡ reading_of g blocks }
    ensures tree { (g : Geometry) (blocks others : Blocks) (i k at n : ℕ) (u : UsedInode) (file : FileNode) → IsGeometry g → IsLaid g (reading_of g blocks) → used_at (reading_of g blocks) i ≡ Some u
        → (slice_index u.numbers k == 0) ≡ false
        → tree_of g blocks i ≡ Some (File file) → AgreeWhereReadBut g blocks others (slice_index u.numbers k) at n
        → tree_of g others ≡ with_node (tree_of g blocks) i (Some (File (with_block file k (file_block others (slice_index u.numbers k))))) }
    ensures shape { (g : Geometry) (blocks others : Blocks) (i k at n : ℕ) (u : UsedInode) → IsGeometry g → IsLaid g (reading_of g blocks) → used_at (reading_of g blocks) i ≡ Some u
        → is_file u.inode.mode ≡ true → (slice_index u.numbers k == 0) ≡ false
        → AgreeInMetadataBut g blocks others (slice_index u.numbers k) at n
        → shape_of (tree_of g others) ≡ shape_of (tree_of g blocks) }
{}
