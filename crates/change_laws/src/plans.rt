//! The parts of a sound volume, at the beginning and at the end of a plan.
ghost use Rattle.std.specs.Prelude.{◌≡◌, List};
ghost use Rattle.lufs_base.specs.declared.geometry.Geometry.{Geometry};
ghost use Rattle.volume_model.specs.declared.hand.Hand.{Hand};
ghost use Rattle.volume_model.specs.Format.{Blocks};
ghost use Rattle.volume_model.specs.Sound.{Reading, reading_of, Tree, tree_of, IsStored, IsRightTree, HasRightLinks, StandsFor};

/// A volume that stands for a tree is stored, its tree is right, and so are its links.
pub fn plan_begins()
    ensures stored { (g : Geometry) (blocks : Blocks) (tree : Tree) (hands : List Hand) → StandsFor g blocks tree hands → IsStored g (reading_of g blocks) hands }
    ensures right { (g : Geometry) (blocks : Blocks) (tree : Tree) (hands : List Hand) → StandsFor g blocks tree hands → IsRightTree g tree }
    ensures links { (g : Geometry) (blocks : Blocks) (tree : Tree) (hands : List Hand) → StandsFor g blocks tree hands → HasRightLinks (reading_of g blocks) }
{}

/// What is stored, with a right tree and right links, stands for that tree.
pub fn plan_ends()
    ensures { (g : Geometry) (blocks : Blocks) (r : Reading) (tree : Tree) (hands : List Hand)
        → reading_of g blocks ≡ r → IsStored g r hands → tree_of g blocks ≡ tree → IsRightTree g tree → HasRightLinks r → StandsFor g blocks tree hands }
{}
