//! The record of an inode in use gets other attributes and links.
ghost use Rattle.std.specs.Prelude.{◌≡◌, ℕ, List, Some};
ghost use Rattle.lufs_base.specs.declared.geometry.Geometry.{Geometry};
ghost use Rattle.volume_model.specs.declared.hand.Hand.{Hand};
ghost use Rattle.volume_model.specs.declared.inode.Dinode.{Dinode};
ghost use Rattle.volume_model.specs.Format.{Blocks};
ghost use Rattle.volume_model.specs.Sound.{UsedInode, InUse, Node, attributes_of, tree_of};
ghost use Rattle.change_laws.specs.Plans.{HasInode, ChangesInode, WritesRecord, KeepsBlocks, with_attributes};

/// A record with other rights, owner, time and links: the node has its attributes.
pub fn attributes_set()
    ensures { (g : Geometry) (blocks others : Blocks) (i : ℕ) (u : UsedInode) (d : Dinode) (node : Node) (hands : List Hand) → HasInode g blocks hands i u node
        → WritesRecord g blocks others i (Some d) → KeepsBlocks u.inode d
        → ChangesInode g blocks others i (InUse (record u { inode = d })) (Some (with_attributes (attributes_of d) node)) hands }
{}

/// Where only the links of a record differ, the tree is the same.
pub fn links_set()
    ensures { (g : Geometry) (blocks others : Blocks) (i : ℕ) (u : UsedInode) (d : Dinode) (node : Node) (hands : List Hand) → HasInode g blocks hands i u node
        → WritesRecord g blocks others i (Some d) → KeepsBlocks u.inode d → attributes_of d ≡ attributes_of u.inode → tree_of g others ≡ tree_of g blocks }
{}
