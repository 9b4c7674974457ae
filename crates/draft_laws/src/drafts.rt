// A draft begins with no change, and at its end a store may take the change.
ghost use Rattle.std.specs.Prelude.{◌≡◌, ◌≤◌, ◌*◌, ◌||◌, ℕ, Bool, true, List, Option, Some, IfSome, IsSomeAnd, All};
ghost use Rattle.std.specs.Option.{option_flatten};
ghost use Rattle.lufs_base.specs.Layout.{IsGeometry, blocks_of};
ghost use Rattle.lufs_base.specs.declared.geometry.Geometry.{Geometry};
ghost use Rattle.volume_model.specs.declared.hand.Hand.{Hand};
ghost use Rattle.volume_model.specs.Format.{Image, Blocks, block, sectors_of};
ghost use Rattle.volume_model.specs.Log.{delta_bytes};
ghost use Rattle.volume_model.specs.Sound.{reading_of, inode_at, used_inode, is_among, held_blocks, IsStored, IsRightTree, Node, Tree, tree_of, StandsFor};
ghost use Rattle.change_laws.specs.Plans.{HasInode, HoldMore};
ghost use Rattle.meta_store.specs.declared.change.Change.{Change};
ghost use Rattle.meta_store.specs.Changing.{AllTold};
ghost use Rattle.meta_store.specs.NoChange.{no_change};
ghost use Rattle.meta_store.specs.Conditions.{MayFollow, MayApply};
ghost use Rattle.meta_draft.specs.Drafted.{drafted_blocks};
ghost use Rattle.draft_laws.specs.Drafts.{IsRecorded, IsDraft, HaveLinksOf, HoldsNoneOf};

/// No change is a draft of a content that is stored right. A content that stands for a tree has its links.
pub fn draft_begins()
    ensures draft { (g : Geometry) (base : Image) (taken : ℕ → Bool) (hands : List Hand) → IsGeometry g → 8 * blocks_of g ≤ sectors_of base → IsStored g (reading_of g (block base)) hands
        → IsDraft g base taken no_change hands }
    ensures content { (base : Image) → drafted_blocks no_change base ≡ block base }
    ensures links { (g : Geometry) (blocks : Blocks) (tree : Tree) (hands : List Hand) → StandsFor g blocks tree hands → HaveLinksOf g blocks tree }
{}

/// A draft of which nothing is held that the volume claimed before is a change that a store may take; and where its tree is
/// right, and so are its links, the content stands for that tree.
pub fn draft_ends()
    ensures follows { (g : Geometry) (base : Image) (taken : ℕ → Bool) (change : Change) (hands : List Hand) → IsDraft g base taken change hands → HoldsNoneOf (reading_of g (block base)) hands
        → MayFollow g change taken (reading_of g (block base)) (reading_of g (drafted_blocks change base)) }
    ensures stands { (g : Geometry) (base : Image) (taken : ℕ → Bool) (change : Change) (hands : List Hand) (tree : Tree) → IsDraft g base taken change hands
        → tree_of g (drafted_blocks change base) ≡ tree → IsRightTree g tree → HaveLinksOf g (drafted_blocks change base) tree → StandsFor g (drafted_blocks change base) tree hands }
    // What the caller knows whether or not the store tells its content, and with it if it does.
    ensures applies { (change : Change) (told : AllTold) → All (λ b. told.changing.is_released b ≡ true) change.taken → IsRecorded told.read.geometry change
        → IfSome told.changing.room (λ room. delta_bytes change.deltas ≤ room)
        → IfSome told.read.content (λ base. MayFollow told.read.geometry change (λ b. told.changing.is_taken b || is_among b change.taken)
        (reading_of told.read.geometry (block base)) (reading_of told.read.geometry (drafted_blocks change base)))
        → MayApply change told }
    // Of what was held at the beginning the volume claimed nothing, and nothing either of what is left of it.
    ensures held { (g : Geometry) (base : Image) (hands after : List Hand) (inodes blocks : List ℕ) → IsStored g (reading_of g (block base)) hands → HoldMore hands after inodes blocks
        → HoldsNoneOf (reading_of g (block base)) after }
{}

/// The record of an inode that the tree of a draft has can be read, and leads to its node.
pub fn node_has_inode()
    ensures { (g : Geometry) (base : Image) (taken : ℕ → Bool) (change : Change) (hands : List Hand) (i : ℕ) (node : Node) → IsDraft g base taken change hands
        → tree_of g (drafted_blocks change base) i ≡ Some node
        → IsSomeAnd (option_flatten (inode_at g (drafted_blocks change base) i)) (λ d. HasInode g (drafted_blocks change base) hands i (used_inode (drafted_blocks change base) d) node) }
{}
