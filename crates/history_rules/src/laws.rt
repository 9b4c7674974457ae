//! The laws of calls on trees.
ghost use Rattle.std.specs.Prelude.{◌≡◌, ◌≢◌, ◌<◌, ◌==◌, ◌↔◌, ℕ, ◌+◌, Some, List, Bool, true, false, if◌then◌else◌, is_some, Result, Ok};
ghost use Rattle.lufs_base.specs.declared.geometry.Geometry.{Geometry};
ghost use Rattle.tree_types.specs.declared.credentials.Cred.{Cred};
ghost use Rattle.tree_types.specs.declared.call.Call.{Call};
ghost use Rattle.tree_types.specs.declared.reply.Refusal.{Refusal};
ghost use Rattle.tree_types.specs.declared.reply.Reply.TheVariants as reply;
ghost use Rattle.volume_model.specs.Sound.{Tree, DirectoryNode, Directory, shape_of, used_in_tree, claimed_in_tree, links_to, names_in_tree};
ghost use Rattle.history_model.specs.Places.{is_directory_in, links_in, lookup};
ghost use Rattle.history_model.specs.Edits.{Enter, edited};
ghost use Rattle.volume_model.specs.Format.{inodes_of};
ghost use Rattle.history_model.specs.Walk.{WalkEnd, parts_of, walk_of, most_followed, root};
ghost use Rattle.history_model.specs.Walks.{Walks};
ghost use Rattle.history_model.specs.Replies.{reply_of, tree_after, wanted_of, freed_of, freed_blocks_of, refusal_of, tells_bytes};
ghost use Rattle.history_model.specs.Wants.{nothing, blocks_in};
ghost use Rattle.history_model.specs.Ends.{One, ends_of};
ghost use Rattle.history_model.specs.Effects.{made_node};
ghost use Rattle.history_model.specs.Histories.{makes_inode, IsUsable};
ghost use Rattle.history_rules.specs.Made.{HasMade};
ghost use Rattle.history_rules.specs.Used.{IsOfUsed, HasRightFiles};
ghost use Rattle.history_model.specs.Right.{IsRightWithin};
ghost use Rattle.history_model.specs.Ranges.{HasLinksInRange, HasSizesInRange, HasText};
ghost use Rattle.history_model.specs.Lines.{Request, request_of};

/// A call that is refused changes nothing and claims nothing.
pub fn refused_changes_nothing()
    ensures tree { (g : Geometry) (tree : Tree) (cred : Cred) (ino moment : ℕ) (call : Call) (why : Refusal)
        → reply_of g tree cred call ≡ reply.Refused why → tree_after g tree cred ino moment call ≡ tree }
    ensures wanted { (g : Geometry) (tree : Tree) (cred : Cred) (call : Call) (why : Refusal)
        → reply_of g tree cred call ≡ reply.Refused why → wanted_of g tree cred call ≡ nothing }
{}

/// The walk of a path is the only one that the rules of `Walks` allow. It ends in a directory, with what the last name
/// stands for there.
pub fn walks()
    ensures rules { (tree : Tree) (cred : Cred) (path : List ℕ) (follow : Bool) (end : Result WalkEnd Refusal)
        → (walk_of tree cred path follow ≡ end) ↔ Walks tree cred follow most_followed root (parts_of path) end }
    ensures directory { (tree : Tree) (cred : Cred) (path : List ℕ) (follow : Bool) (p : WalkEnd)
        → walk_of tree cred path follow ≡ Ok p → (is_directory_in tree p.dir ≡ true) × (lookup tree p.dir p.name ≡ p.found) }
{}

/// The shape of a tree decides whether a call is refused and why, what it claims, and its reply, unless the reply tells
/// bytes of a file.
pub fn shapes_are_enough()
    ensures refusals { (g : Geometry) (tree : Tree) (cred : Cred) (call : Call)
        → refusal_of (reply_of g (shape_of tree) cred call) ≡ refusal_of (reply_of g tree cred call) }
    ensures replies { (g : Geometry) (tree : Tree) (cred : Cred) (call : Call)
        → tells_bytes call ≡ false → reply_of g (shape_of tree) cred call ≡ reply_of g tree cred call }
    ensures wanted { (g : Geometry) (tree : Tree) (cred : Cred) (call : Call) → wanted_of g (shape_of tree) cred call ≡ wanted_of g tree cred call }
{}

/// A `create`, `mkdir` or `symlink` that is answered ok makes one inode, with the name that its path ends in, and changes no
/// other name of the directory and no other inode.
pub fn inodes_made()
    ensures { (g : Geometry) (tree : Tree) (cred : Cred) (ino moment : ℕ) (call : Call)
        → makes_inode call ≡ true → IsUsable g tree ino → reply_of g tree cred call ≡ reply.Done
        → (p : WalkEnd) × (ends_of tree cred call ≡ Ok (One p)) × HasMade tree (tree_after g tree cred ino moment call) p ino (made_node cred ino moment call p) }
{}

/// After a call as many inodes are in use as before, with the one that it wants and without the one that it frees. As many
/// blocks are claimed as before, with those that it wants and without those that it frees.
pub fn inodes_and_blocks_counted()
    ensures inodes { (g : Geometry) (tree : Tree) (cred : Cred) (ino moment : ℕ) (call : Call)
        → IsOfUsed g tree → (makes_inode call ≡ true → IsUsable g tree ino)
        → used_in_tree g (tree_after g tree cred ino moment call) + (if is_some (freed_of g tree cred call) then 1 else 0)
        ≡ used_in_tree g tree + (if (wanted_of g tree cred call).inode then 1 else 0) }
    ensures blocks { (g : Geometry) (tree : Tree) (cred : Cred) (ino moment : ℕ) (call : Call)
        → IsOfUsed g tree → HasRightFiles tree → (makes_inode call ≡ true → IsUsable g tree ino)
        → claimed_in_tree g (tree_after g tree cred ino moment call) + freed_blocks_of g tree cred call
        ≡ claimed_in_tree g tree + blocks_in (wanted_of g tree cred call) }
{}

/// A name that is entered into a directory is one link of its inode, and no link of any other.
pub fn links_entered()
    ensures { (g : Geometry) (tree : Tree) (dir : ℕ) (name : List ℕ) (i j : ℕ) (d : DirectoryNode)
        → j ≢ 0 → tree dir ≡ Some (Directory d) → dir < inodes_of g
        → links_in g (edited (Enter dir name i) tree) j ≡ links_in g tree j + (if i == j then 1 else 0) }
{}

/// An inode has as many links as there are slots in use that name it, which is the number in a sound volume's record of it.
pub fn links_counted()
    ensures { (g : Geometry) (tree : Tree) (i : ℕ) → i ≢ 0 → links_in g tree i ≡ links_to (inodes_of g) (names_in_tree tree) i }
{}

/// Files that have an index for each block below their size stay so under every call.
pub fn files_stay_right()
    ensures { (g : Geometry) (tree : Tree) (cred : Cred) (ino moment : ℕ) (call : Call)
        → HasRightFiles tree → HasRightFiles (tree_after g tree cred ino moment call) }
{}

/// A right tree stays right under every call, if the number that the call gives to a new inode was free.
pub fn trees_stay_right()
    ensures { (g : Geometry) (tree : Tree) (cred : Cred) (ino moment : ℕ) (call : Call)
        → (makes_inode call ≡ true → IsUsable g tree ino) → IsRightWithin g tree → IsRightWithin g (tree_after g tree cred ino moment call) }
{}

/// Links and sizes stay in their ranges under every call, if the number that it gives to a new inode was free, and a new
/// symbolic link has a text. A line always gives it one.
pub fn numbers_stay_in_range()
    ensures links { (g : Geometry) (tree : Tree) (cred : Cred) (ino moment : ℕ) (call : Call)
        → (makes_inode call ≡ true → IsUsable g tree ino) → IsRightWithin g tree → HasLinksInRange g tree
        → HasLinksInRange g (tree_after g tree cred ino moment call) }
    ensures sizes { (g : Geometry) (tree : Tree) (cred : Cred) (ino moment : ℕ) (call : Call)
        → (makes_inode call ≡ true → IsUsable g tree ino) → HasText call → HasSizesInRange tree
        → HasSizesInRange (tree_after g tree cred ino moment call) }
    ensures texts { (text : List ℕ) (request : Request) → request_of text ≡ Some request → HasText request.call }
{}
