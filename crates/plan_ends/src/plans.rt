//! The end of a plan: the draft stands for the tree after the call. What a call does to the links of a tree.
ghost use Rattle.std.specs.Prelude.{◌≡◌, ◌≢◌, ◌≤◌, ℕ, ◌+◌, ◌==◌, Bool, true, None, Ok, List, [], IfSome, if◌then◌else◌};
ghost use Rattle.std.specs.List.{count_by};
ghost use Rattle.lufs_base.specs.declared.geometry.Geometry.{Geometry};
ghost use Rattle.volume_model.specs.declared.hand.Hand.{Hand};
ghost use Rattle.volume_model.specs.Format.{Image, Blocks, block};
ghost use Rattle.volume_model.specs.Sound.{Node, Tree, StandsFor};
ghost use Rattle.tree_types.specs.declared.credentials.Cred.{Cred};
ghost use Rattle.tree_types.specs.declared.call.Call.{Call};
ghost use Rattle.history_model.specs.Places.{is_directory_in, links_in, slots_in_node};
ghost use Rattle.history_model.specs.Walk.{WalkEnd};
ghost use Rattle.history_model.specs.Ends.{WalkEnds, ends_of};
ghost use Rattle.history_model.specs.Edits.{edited_all};
ghost use Rattle.history_model.specs.Effects.{making, edits_at};
ghost use Rattle.history_model.specs.Refusals.{Proceed, decision_at};
ghost use Rattle.history_model.specs.Replies.{tree_after};
ghost use Rattle.history_model.specs.Histories.{makes_inode, IsUsable};
ghost use Rattle.history_model.specs.Right.{IsRightWithin};
ghost use Rattle.history_model.specs.Ranges.{HasLinksInRange};
ghost use Rattle.meta_store.specs.declared.change.Change.{Change};
ghost use Rattle.meta_draft.specs.Drafted.{drafted_blocks};
ghost use Rattle.meta_store.specs.Changing.{AllTold};
ghost use Rattle.meta_store.specs.Conditions.{MayApply};
ghost use Rattle.volume_model.specs.Log.{delta_bytes};
ghost use Rattle.draft_laws.specs.Drafts.{IsRecorded, links_at};
ghost use Rattle.plan_ends.specs.Planned.{IsDrawn, IsTight};

/// What a content says that stands for a tree: the tree is right, its links are in their range, and a record has as
/// many links as the tree.
pub fn tree_told()
    ensures right { (g : Geometry) (blocks : Blocks) (tree : Tree) (hands : List Hand) → StandsFor g blocks tree hands → IsRightWithin g tree }
    ensures range { (g : Geometry) (blocks : Blocks) (tree : Tree) (hands : List Hand) → StandsFor g blocks tree hands → HasLinksInRange g tree }
    ensures links { (g : Geometry) (blocks : Blocks) (tree : Tree) (hands : List Hand) (i : ℕ) → StandsFor g blocks tree hands → IfSome (links_at g blocks i) (λ links. links ≡ links_in g tree i) }
{}

/// A draft whose tree is that after a call, with as many links in each record as in this tree, stands for it, and a store
/// may apply its change. The tree of a call that is carried out has its edits.
pub fn call_planned()
    ensures stands { (g : Geometry) (base : Image) (taken : ℕ → Bool) (change : Change) (hands after : List Hand) (tree : Tree) (cred : Cred) (ino moment : ℕ) (call : Call)
        → StandsFor g (block base) tree hands → (makes_inode call ≡ true → IsUsable g tree ino) → IsDrawn g base taken change (tree_after g tree cred ino moment call) after
        → StandsFor g (drafted_blocks change base) (tree_after g tree cred ino moment call) after }
    // A change that takes no block, as that of a plan: the blocks were taken for its hand.
    ensures applies { (change : Change) (told : AllTold) → change.taken ≡ [] → IsRecorded told.read.geometry change → IfSome told.changing.room (λ room. delta_bytes change.deltas ≤ room)
        → IfSome told.read.content (λ base. IsTight told.read.geometry base told.changing.is_taken change) → MayApply change told }
    ensures edits { (g : Geometry) (tree : Tree) (cred : Cred) (ino moment : ℕ) (call : Call) (ends : WalkEnds) → ends_of tree cred call ≡ Ok ends → decision_at g tree cred call ends ≡ Proceed
        → tree_after g tree cred ino moment call ≡ edited_all (edits_at g tree cred ino moment call ends) tree }
{}

/// The links of a tree in which an inode is made and gets a name: those before, those that the new node names, and the
/// new name. An inode that isn't in use has none.
pub fn links_made()
    ensures made { (g : Geometry) (tree : Tree) (p : WalkEnd) (ino moment : ℕ) (node : Node) (j : ℕ) → IsRightWithin g tree → is_directory_in tree p.dir ≡ true → IsUsable g tree ino → j ≢ 0
        → links_in g (edited_all (making p ino moment node) tree) j ≡ links_in g tree j + count_by (λ s. s.ino == j) (slots_in_node node) + (if ino == j then 1 else 0) }
    ensures free { (g : Geometry) (tree : Tree) (i : ℕ) → IsRightWithin g tree → i ≢ 0 → tree i ≡ None → links_in g tree i ≡ 0 }
{}
