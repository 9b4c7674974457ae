// An inode changes by the deltas of its record and of its blocks.
ghost use Rattle.std.specs.Prelude.{◌≡◌, ◌<◌, ◌≤◌, ◌/◌, ◌%◌, ℕ, Bool, true, List, [], ◌∷◌, length, slice_index, slice_set, Some};
ghost use Rattle.lufs_base.specs.declared.geometry.Geometry.{Geometry};
ghost use Rattle.volume_model.specs.declared.hand.Hand.{Hand};
ghost use Rattle.volume_model.specs.declared.inode.Dinode.{Dinode};
ghost use Rattle.volume_model.specs.declared.directory.Slot.{Slot};
ghost use Rattle.volume_model.specs.Format.{Image, is_file, is_directory, is_link, IsDinode, dinode_bytes, IsChunk, chunk_bytes};
ghost use Rattle.volume_model.specs.Sound.{UsedInode, DirectoryNode, Node, File, Directory, Link, attributes_of};
ghost use Rattle.change_laws.specs.Plans.{HasInode, KeepsBlocks, HasJustBlocks, HoldMore, with_attributes};
ghost use Rattle.meta_store.specs.declared.change.Change.{Change};
ghost use Rattle.meta_store.specs.Deltas.{inode_delta, chunk_delta, zero_delta, text_delta};
ghost use Rattle.meta_draft.specs.Drafted.{drafted_blocks, with_delta};
ghost use Rattle.draft_laws.specs.Drafts.{IsDraft, Draws, MayAttach};

/// A record that keeps its blocks: the node has its attributes, and the inode its links.
pub fn attributes_drawn()
    ensures { (g : Geometry) (base : Image) (taken : ℕ → Bool) (change : Change) (hands : List Hand) (i : ℕ) (u : UsedInode) (d : Dinode) (node : Node) → IsDraft g base taken change hands
        → HasInode g (drafted_blocks change base) hands i u node → IsDinode g.version d → KeepsBlocks u.inode d
        → Draws g base taken change (with_delta change (inode_delta g i (dinode_bytes (Some d)))) i (Some (with_attributes (attributes_of d) node)) (Some d.links) hands }
{}

/// Other slots in a chunk of a directory.
pub fn chunk_drawn()
    ensures { (g : Geometry) (base : Image) (taken : ℕ → Bool) (change : Change) (hands : List Hand) (i k : ℕ) (u : UsedInode) (directory : DirectoryNode) (slots : List Slot)
        → IsDraft g base taken change hands → HasInode g (drafted_blocks change base) hands i u (Directory directory) → k < length directory.chunks → IsChunk slots
        → Draws g base taken change (with_delta change (chunk_delta (slice_index u.numbers (k / 8)) (k % 8) (chunk_bytes slots))) i
        (Some (Directory (record directory { chunks = slice_set directory.chunks k slots }))) (Some u.inode.links) hands }
{}

/// A held inode becomes an empty file.
pub fn file_drawn()
    ensures { (g : Geometry) (base : Image) (taken : ℕ → Bool) (change : Change) (hands after : List Hand) (i : ℕ) (d : Dinode) → IsDraft g base taken change hands
        → HoldMore hands after (i ∷ []) [] → IsDinode g.version d → HasJustBlocks d [] → is_file d.mode ≡ true → d.size ≡ 0
        → Draws g base taken change (with_delta change (inode_delta g i (dinode_bytes (Some d)))) i
        (Some (File (record { attributes = attributes_of d; size = 0; blocks = []; pointers = [] }))) (Some d.links) after }
{}

/// A held inode becomes a directory with one chunk, in a held block that is given in whole.
pub fn directory_drawn()
    ensures { (g : Geometry) (base : Image) (taken : ℕ → Bool) (change : Change) (hands after : List Hand) (i b : ℕ) (d : Dinode) (slots : List Slot) → IsDraft g base taken change hands
        → HoldMore hands after (i ∷ []) (b ∷ []) → MayAttach g base taken change b → IsDinode g.version d → HasJustBlocks d (b ∷ []) → IsChunk slots → is_directory d.mode ≡ true → d.size ≡ 512
        → Draws g base taken change (with_delta (with_delta (with_delta change (zero_delta b)) (chunk_delta b 0 (chunk_bytes slots))) (inode_delta g i (dinode_bytes (Some d)))) i
        (Some (Directory (record { attributes = attributes_of d; chunks = slots ∷ [] }))) (Some d.links) after }
{}

/// A held inode becomes a link, with its text at the front of a held block.
pub fn link_drawn()
    ensures { (g : Geometry) (base : Image) (taken : ℕ → Bool) (change : Change) (hands after : List Hand) (i b : ℕ) (d : Dinode) (text : List ℕ) → IsDraft g base taken change hands
        → HoldMore hands after (i ∷ []) (b ∷ []) → MayAttach g base taken change b → IsDinode g.version d → HasJustBlocks d (b ∷ []) → is_link d.mode ≡ true → d.size ≡ length text
        → 1 ≤ length text → length text ≤ 1024
        → Draws g base taken change (with_delta (with_delta change (text_delta b text)) (inode_delta g i (dinode_bytes (Some d)))) i
        (Some (Link (record { attributes = attributes_of d; text = text }))) (Some d.links) after }
{}
