//! Numbers of a pointer block change, and these numbers of its inode.
ghost use Rattle.std.specs.Prelude.{◌≡◌, ◌<◌, ◌≤◌, ◌==◌, ℕ, ◌+◌, ◌*◌, length, take, drop, slice_index, Some, true, false};
ghost use Rattle.lufs_base.specs.Fields.{u32_at};
ghost use Rattle.lufs_base.specs.Layout.{IsGeometry};
ghost use Rattle.lufs_base.specs.declared.geometry.Geometry.{Geometry};
ghost use Rattle.volume_model.specs.Format.{Blocks, is_directory, pointers_of};
ghost use Rattle.volume_model.specs.Sound.{direct_blocks, pointers_of_block, UsedInode, InUse, reading_of, used_at, IsLaid, with_node, shape_of, shape_of_node, node_of, tree_of};
ghost use Rattle.volume_laws.specs.Changes.{AgreeWhereReadBut, AgreeInMetadataBut, with_state, with_number, with_numbers};

/// The bytes of some numbers in the pointer block of an inode change these numbers, and nothing else, where no chunk of a
/// directory is read through them. What is no directory has no chunks.
pub fn several_numbers()
    ensures reading { (g : Geometry) (blocks others : Blocks) (i j n : ℕ) (u : UsedInode) → IsGeometry g → IsLaid g (reading_of g blocks) → used_at (reading_of g blocks) i ≡ Some u
        → length u.chunks ≤ 8 * (direct_blocks + j) → j + n ≤ pointers_of_block → (slice_index u.inode.indirect 0 == 0) ≡ false
        → AgreeInMetadataBut g blocks others (slice_index u.inode.indirect 0) (4 * j) (4 * n)
        → reading_of g others ≡ with_state (reading_of g blocks) i (InUse (with_numbers u (direct_blocks + j) (take n (drop j (pointers_of (others (slice_index u.inode.indirect 0))))))) }
    ensures tree { (g : Geometry) (blocks others : Blocks) (i j n : ℕ) (u : UsedInode) → IsGeometry g → IsLaid g (reading_of g blocks) → used_at (reading_of g blocks) i ≡ Some u
        → length u.chunks ≤ 8 * (direct_blocks + j) → j + n ≤ pointers_of_block → (slice_index u.inode.indirect 0 == 0) ≡ false
        → AgreeWhereReadBut g blocks others (slice_index u.inode.indirect 0) (4 * j) (4 * n)
        → tree_of g others ≡ with_node (tree_of g blocks) i (Some (node_of others (with_numbers u (direct_blocks + j) (take n (drop j (pointers_of (others (slice_index u.inode.indirect 0)))))))) }
    ensures shape { (g : Geometry) (blocks others : Blocks) (i j n : ℕ) (u : UsedInode) → IsGeometry g → IsLaid g (reading_of g blocks) → used_at (reading_of g blocks) i ≡ Some u
        → length u.chunks ≤ 8 * (direct_blocks + j) → j + n ≤ pointers_of_block → (slice_index u.inode.indirect 0 == 0) ≡ false
        → AgreeInMetadataBut g blocks others (slice_index u.inode.indirect 0) (4 * j) (4 * n)
        → shape_of (tree_of g others) ≡ with_node (shape_of (tree_of g blocks)) i (Some (shape_of_node (node_of others (with_numbers u (direct_blocks + j) (take n (drop j (pointers_of (others (slice_index u.inode.indirect 0))))))))) }
{}

/// The four bytes of a number in the pointer block of what is no directory change the number at its index, and nothing else.
pub fn one_number()
    ensures reading { (g : Geometry) (blocks others : Blocks) (i j : ℕ) (u : UsedInode) → IsGeometry g → IsLaid g (reading_of g blocks) → used_at (reading_of g blocks) i ≡ Some u
        → is_directory u.inode.mode ≡ false → j < pointers_of_block → (slice_index u.inode.indirect 0 == 0) ≡ false
        → AgreeInMetadataBut g blocks others (slice_index u.inode.indirect 0) (4 * j) 4
        → reading_of g others ≡ with_state (reading_of g blocks) i (InUse (with_number u (direct_blocks + j) (u32_at (others (slice_index u.inode.indirect 0)) (4 * j)))) }
    ensures tree { (g : Geometry) (blocks others : Blocks) (i j : ℕ) (u : UsedInode) → IsGeometry g → IsLaid g (reading_of g blocks) → used_at (reading_of g blocks) i ≡ Some u
        → is_directory u.inode.mode ≡ false → j < pointers_of_block → (slice_index u.inode.indirect 0 == 0) ≡ false
        → AgreeWhereReadBut g blocks others (slice_index u.inode.indirect 0) (4 * j) 4
        → tree_of g others ≡ with_node (tree_of g blocks) i (Some (node_of others (with_number u (direct_blocks + j) (u32_at (others (slice_index u.inode.indirect 0)) (4 * j))))) }
    ensures shape { (g : Geometry) (blocks others : Blocks) (i j : ℕ) (u : UsedInode) → IsGeometry g → IsLaid g (reading_of g blocks) → used_at (reading_of g blocks) i ≡ Some u
        → is_directory u.inode.mode ≡ false → j < pointers_of_block → (slice_index u.inode.indirect 0 == 0) ≡ false
        → AgreeInMetadataBut g blocks others (slice_index u.inode.indirect 0) (4 * j) 4
        → shape_of (tree_of g others) ≡ with_node (shape_of (tree_of g blocks)) i (Some (shape_of_node (node_of others (with_number u (direct_blocks + j) (u32_at (others (slice_index u.inode.indirect 0)) (4 * j)))))) }
{}

/// The four bytes of a number past the chunks of a directory change that number, and nothing of the tree.
pub fn one_number_past_chunks()
    ensures reading { (g : Geometry) (blocks others : Blocks) (i j : ℕ) (u : UsedInode) → IsGeometry g → IsLaid g (reading_of g blocks) → used_at (reading_of g blocks) i ≡ Some u
        → is_directory u.inode.mode ≡ true → length u.chunks ≤ 8 * (direct_blocks + j) → j < pointers_of_block → (slice_index u.inode.indirect 0 == 0) ≡ false
        → AgreeInMetadataBut g blocks others (slice_index u.inode.indirect 0) (4 * j) 4
        → reading_of g others ≡ with_state (reading_of g blocks) i (InUse (with_number u (direct_blocks + j) (u32_at (others (slice_index u.inode.indirect 0)) (4 * j)))) }
    ensures tree { (g : Geometry) (blocks others : Blocks) (i j : ℕ) (u : UsedInode) → IsGeometry g → IsLaid g (reading_of g blocks) → used_at (reading_of g blocks) i ≡ Some u
        → is_directory u.inode.mode ≡ true → length u.chunks ≤ 8 * (direct_blocks + j) → j < pointers_of_block → (slice_index u.inode.indirect 0 == 0) ≡ false
        → AgreeWhereReadBut g blocks others (slice_index u.inode.indirect 0) (4 * j) 4
        → tree_of g others ≡ tree_of g blocks }
    ensures shape { (g : Geometry) (blocks others : Blocks) (i j : ℕ) (u : UsedInode) → IsGeometry g → IsLaid g (reading_of g blocks) → used_at (reading_of g blocks) i ≡ Some u
        → is_directory u.inode.mode ≡ true → length u.chunks ≤ 8 * (direct_blocks + j) → j < pointers_of_block → (slice_index u.inode.indirect 0 == 0) ≡ false
        → AgreeInMetadataBut g blocks others (slice_index u.inode.indirect 0) (4 * j) 4
        → shape_of (tree_of g others) ≡ shape_of (tree_of g blocks) }
{}
