//! The bytes of one record or chunk change, and one entry of the reading and of the tree; or bytes that nothing reads.
ghost use Rattle.std.specs.Prelude.{◌≡◌, ◌<◌, ◌≤◌, ◌==◌, ℕ, ◌+◌, ◌*◌, ◌/◌, ◌%◌, List, length, take, drop, slice_index, Some, true, false, option_map};
ghost use Rattle.lufs_base.specs.Fields.{AreBytes};
ghost use Rattle.lufs_base.specs.Layout.{IsGeometry, blocks_of, group_start, inode_address};
ghost use Rattle.lufs_base.specs.declared.geometry.Geometry.{Geometry};
ghost use Rattle.volume_model.specs.Format.{Blocks, IsWhole, inodes_of, is_body, is_directory};
ghost use Rattle.volume_model.specs.Sound.{UsedInode, InUse, Reading, reading_of, is_claimed, read_length, AgreeWhereRead, AgreeButInFileBytes, group_at, state_at, used_of, used_at, chunk_at, IsLaid, with_node, shape_of, shape_of_node, node_of, tree_of};
ghost use Rattle.volume_laws.specs.Changes.{with_bytes, AgreeBut, AgreeWhereReadBut, AgreeInMetadataBut, with_state, with_group, with_chunk};

/// The 128 bytes of an inode's record change what stands in that inode's place, and nothing else. Blocks that no inode
/// claimed before may change with it as they like, since nothing was read of them: what the record claims now, too.
pub fn one_inode_record()
    ensures reading { (g : Geometry) (blocks others : Blocks) (i : ℕ) → IsGeometry g → IsLaid g (reading_of g blocks) → i < inodes_of g
        → AgreeInMetadataBut g blocks others (inode_address g i / 4096) (inode_address g i % 4096) 128
        → reading_of g others ≡ with_state (reading_of g blocks) i (state_at g others i) }
    ensures tree { (g : Geometry) (blocks others : Blocks) (i : ℕ) → IsGeometry g → IsLaid g (reading_of g blocks) → i < inodes_of g
        → AgreeWhereReadBut g blocks others (inode_address g i / 4096) (inode_address g i % 4096) 128
        → tree_of g others ≡ with_node (tree_of g blocks) i (option_map (node_of others) (used_of (state_at g others i))) }
    ensures shape { (g : Geometry) (blocks others : Blocks) (i : ℕ) → IsGeometry g → IsLaid g (reading_of g blocks) → i < inodes_of g
        → AgreeInMetadataBut g blocks others (inode_address g i / 4096) (inode_address g i % 4096) 128
        → shape_of (tree_of g others) ≡ with_node (shape_of (tree_of g blocks)) i (option_map shape_of_node (option_map (node_of others) (used_of (state_at g others i)))) }
{}

/// The 416 bytes of a group's record change that group's record, and nothing of the tree.
pub fn one_group_record()
    ensures reading { (g : Geometry) (blocks others : Blocks) (n : ℕ) → IsGeometry g → IsLaid g (reading_of g blocks) → n < g.groups
        → AgreeInMetadataBut g blocks others (group_start g n) 0 416 → reading_of g others ≡ with_group (reading_of g blocks) n (group_at g others n) }
    ensures tree { (g : Geometry) (blocks others : Blocks) (n : ℕ) → IsGeometry g → IsLaid g (reading_of g blocks) → n < g.groups
        → AgreeWhereReadBut g blocks others (group_start g n) 0 416 → tree_of g others ≡ tree_of g blocks }
    ensures shape { (g : Geometry) (blocks others : Blocks) (n : ℕ) → IsGeometry g → IsLaid g (reading_of g blocks) → n < g.groups
        → AgreeInMetadataBut g blocks others (group_start g n) 0 416 → shape_of (tree_of g others) ≡ shape_of (tree_of g blocks) }
{}

/// The 512 bytes of a chunk of a directory change that chunk, and nothing else.
pub fn one_chunk()
    ensures reading { (g : Geometry) (blocks others : Blocks) (i k : ℕ) (u : UsedInode) → IsGeometry g → IsLaid g (reading_of g blocks) → used_at (reading_of g blocks) i ≡ Some u
        → is_directory u.inode.mode ≡ true → k < length u.chunks → (slice_index u.numbers (k / 8) == 0) ≡ false
        → AgreeInMetadataBut g blocks others (slice_index u.numbers (k / 8)) (512 * (k % 8)) 512
        → reading_of g others ≡ with_state (reading_of g blocks) i (InUse (with_chunk u k (chunk_at others u.numbers k))) }
    ensures tree { (g : Geometry) (blocks others : Blocks) (i k : ℕ) (u : UsedInode) → IsGeometry g → IsLaid g (reading_of g blocks) → used_at (reading_of g blocks) i ≡ Some u
        → is_directory u.inode.mode ≡ true → k < length u.chunks → (slice_index u.numbers (k / 8) == 0) ≡ false
        → AgreeWhereReadBut g blocks others (slice_index u.numbers (k / 8)) (512 * (k % 8)) 512
        → tree_of g others ≡ with_node (tree_of g blocks) i (Some (node_of others (with_chunk u k (chunk_at others u.numbers k)))) }
    ensures shape { (g : Geometry) (blocks others : Blocks) (i k : ℕ) (u : UsedInode) → IsGeometry g → IsLaid g (reading_of g blocks) → used_at (reading_of g blocks) i ≡ Some u
        → is_directory u.inode.mode ≡ true → k < length u.chunks → (slice_index u.numbers (k / 8) == 0) ≡ false
        → AgreeInMetadataBut g blocks others (slice_index u.numbers (k / 8)) (512 * (k % 8)) 512
        → shape_of (tree_of g others) ≡ with_node (shape_of (tree_of g blocks)) i (Some (shape_of_node (node_of others (with_chunk u k (chunk_at others u.numbers k))))) }
{}

/// Nothing is read of a body block that no inode claims, so what agrees but in such a block agrees.
pub fn unclaimed_blocks()
    ensures unread { (g : Geometry) (r : Reading) (b : ℕ) → is_body g b ≡ true → is_claimed r b ≡ false → read_length g r b ≡ 0 }
    ensures agree { (g : Geometry) (blocks others : Blocks) (b at n : ℕ) → is_body g b ≡ true → is_claimed (reading_of g blocks) b ≡ false
        → AgreeWhereReadBut g blocks others b at n → AgreeWhereRead g blocks others }
    ensures metadata { (g : Geometry) (blocks others : Blocks) (b at n : ℕ) → is_body g b ≡ true → is_claimed (reading_of g blocks) b ≡ false
        → AgreeInMetadataBut g blocks others b at n → AgreeButInFileBytes g blocks others }
{}

/// Bytes that are laid over a part of one block of a whole content change these alone, and it stays whole.
pub fn laid_bytes()
    ensures agree { (g : Geometry) (blocks : Blocks) (b at : ℕ) (bytes : List ℕ) → IsWhole g blocks → b < blocks_of g → at + length bytes ≤ 4096
        → (lengths : ℕ → ℕ) → AgreeBut lengths blocks (with_bytes blocks b at bytes) b at (length bytes) }
    ensures bytes { (g : Geometry) (blocks : Blocks) (b at : ℕ) (bytes : List ℕ) → IsWhole g blocks → b < blocks_of g → at + length bytes ≤ 4096
        → take (length bytes) (drop at (with_bytes blocks b at bytes b)) ≡ bytes }
    ensures whole { (g : Geometry) (blocks : Blocks) (b at : ℕ) (bytes : List ℕ) → IsWhole g blocks → b < blocks_of g → at + length bytes ≤ 4096
        → AreBytes bytes → IsWhole g (with_bytes blocks b at bytes) }
{}

/// What agrees where it is read, but perhaps not in some bytes, agrees so in metadata too.
pub fn agreement_in_metadata()
    ensures { (g : Geometry) (blocks others : Blocks) (b at n : ℕ) → AgreeWhereReadBut g blocks others b at n → AgreeInMetadataBut g blocks others b at n }
{}
