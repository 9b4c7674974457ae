//! What the record of an inode in use says, by its node in the tree: equations between the two.
ghost use Rattle.std.specs.Prelude.{◌≡◌, ℕ, Some, None, IsSomeAnd, List, map, true};
ghost use Rattle.lufs_base.specs.declared.geometry.Geometry.{Geometry};
ghost use Rattle.volume_model.specs.declared.hand.Hand.{Hand};
ghost use Rattle.volume_model.specs.Format.{Blocks, IsWhole, inodes_of, is_file, is_directory, is_link};
ghost use Rattle.volume_model.specs.Sound.{UsedInode, reading_of, used_at, FileNode, DirectoryNode, LinkNode, Node, File, Directory, Link, claimed_by, names_in_tree, links_to, IsStored, HasRightLinks, attributes_of, node_of, tree_of};
ghost use Rattle.volume_laws.specs.Nodes.{attributes_of_node, mode_of_node, size_of_node};

/// An inode is in use where the tree has a node, which is read from it.
pub fn nodes_in_use()
    ensures node { (g : Geometry) (blocks : Blocks) (i : ℕ) (node : Node) → tree_of g blocks i ≡ Some node → IsSomeAnd (used_at (reading_of g blocks) i) (λ u. node_of blocks u ≡ node) }
    ensures none { (g : Geometry) (blocks : Blocks) (i : ℕ) → tree_of g blocks i ≡ None → used_at (reading_of g blocks) i ≡ None }
    ensures used { (g : Geometry) (blocks : Blocks) (i : ℕ) (u : UsedInode) → used_at (reading_of g blocks) i ≡ Some u → tree_of g blocks i ≡ Some (node_of blocks u) }
{}

/// The type in the mode of an inode in use is that of its node, and a directory that is stored right has the node's chunks.
pub fn types_by_node()
    ensures file { (g : Geometry) (blocks : Blocks) (i : ℕ) (u : UsedInode) (file : FileNode) → used_at (reading_of g blocks) i ≡ Some u
        → tree_of g blocks i ≡ Some (File file) → is_file u.inode.mode ≡ true }
    ensures directory { (g : Geometry) (blocks : Blocks) (i : ℕ) (u : UsedInode) (directory : DirectoryNode) → used_at (reading_of g blocks) i ≡ Some u
        → tree_of g blocks i ≡ Some (Directory directory) → is_directory u.inode.mode ≡ true }
    ensures link { (g : Geometry) (blocks : Blocks) (i : ℕ) (u : UsedInode) (link : LinkNode) → used_at (reading_of g blocks) i ≡ Some u
        → tree_of g blocks i ≡ Some (Link link) → is_link u.inode.mode ≡ true }
    ensures chunks { (g : Geometry) (blocks : Blocks) (i : ℕ) (u : UsedInode) (directory : DirectoryNode) (hands : List Hand) → IsStored g (reading_of g blocks) hands
        → used_at (reading_of g blocks) i ≡ Some u → tree_of g blocks i ≡ Some (Directory directory) → u.chunks ≡ map (λ slots. Some slots) directory.chunks }
{}

/// The fields of an inode in use are functions of its node: in every volume the mode and the attributes, where what is stored
/// is right the size and the count of blocks, and where the links are right their number.
pub fn fields_by_node()
    ensures mode { (g : Geometry) (blocks : Blocks) (i : ℕ) (u : UsedInode) (node : Node) → used_at (reading_of g blocks) i ≡ Some u → tree_of g blocks i ≡ Some node → u.inode.mode ≡ mode_of_node node }
    ensures attributes { (g : Geometry) (blocks : Blocks) (i : ℕ) (u : UsedInode) (node : Node) → used_at (reading_of g blocks) i ≡ Some u → tree_of g blocks i ≡ Some node → attributes_of u.inode ≡ attributes_of_node node }
    ensures size { (g : Geometry) (blocks : Blocks) (i : ℕ) (u : UsedInode) (node : Node) (hands : List Hand) → IsWhole g blocks → IsStored g (reading_of g blocks) hands
        → used_at (reading_of g blocks) i ≡ Some u → tree_of g blocks i ≡ Some node → u.inode.size ≡ size_of_node node }
    ensures blocks { (g : Geometry) (blocks : Blocks) (i : ℕ) (u : UsedInode) (node : Node) (hands : List Hand) → IsStored g (reading_of g blocks) hands
        → used_at (reading_of g blocks) i ≡ Some u → tree_of g blocks i ≡ Some node → u.inode.blocks ≡ claimed_by node }
    ensures links { (g : Geometry) (blocks : Blocks) (i : ℕ) (u : UsedInode) → HasRightLinks (reading_of g blocks) → used_at (reading_of g blocks) i ≡ Some u
        → u.inode.links ≡ links_to (inodes_of g) (names_in_tree (tree_of g blocks)) i }
{}
