//! Limits computed: names, links, chunks, inodes and blocks; and which of two refusals comes first.
ghost use Rattle.std.specs.Prelude.{◌≡◌, ◌+◌, ◌∷◌, ◌++◌, [], codes, replicate, map, true, false};
ghost use Rattle.std.specs.List.{range_with_len};
ghost use Rattle.tree_types.specs.declared.call.Call.TheVariants as call;
ghost use Rattle.tree_types.specs.declared.reply.Reply.TheVariants as reply;
ghost use Rattle.tree_types.specs.declared.reply.Refusal.TheVariants.{Noinodes};
ghost use Rattle.volume_model.specs.Worked.{smallest};
ghost use Rattle.volume_model.specs.Format.{new_directory};
ghost use Rattle.history_model.specs.Lines.{first_caller};
ghost use Rattle.history_model.specs.Places.{directory_slots};
ghost use Rattle.history_model.specs.Replies.{wanted_of};
ghost use Rattle.history_model.specs.WorkedTrees.{new_tree, tree_with, first_chunk, slot, directory_of, empty_file};
ghost use Rattle.worked_history.specs.Trees.{answers_to, answers_on, longest, taken_chunk, crowd, with_blocks, root_alone, replies_from, tree_from};

/// Names that fill a chunk exactly, and the slots that names take, leave and keep.
pub fn slots_of_names()
    ensures chunk_filled { answers_to (codes "create /" ++ longest 97 ++ codes " 644\ncreate /" ++ (97 ∷ longest 97) ++ codes " 644\ncreate /" ++ replicate 215 98 ++ codes " 644\ncreate /x 644\nstat /\n")
        ≡ codes "1 ok\n2 nametoolong\n3 ok\n4 ok\n5 ok 2 dir 755 2 0 0 1024 1000 1\n" }
    // A name that is taken out leaves its bytes to the slot before it; a replaced name keeps its slot.
    ensures renamed { directory_slots (tree_from smallest 1000 new_tree first_caller (call.Create (codes "/a") 0x1a4 ∷ (call.Create (codes "/b") 0x1a4 ∷ (call.Rename (codes "/a") (codes "/b") ∷ [])))) 2
        ≡ slot 2 12 (codes ".") ∷ (slot 2 24 (codes "..") ∷ (slot 3 476 (codes "b") ∷ [])) }
    // The new name is entered before the old one is taken out.
    ensures moved { directory_slots (tree_from smallest 1000 new_tree first_caller (call.Create (codes "/a") 0x1a4 ∷ (call.Rename (codes "/a") (codes "/b") ∷ []))) 2
        ≡ slot 2 12 (codes ".") ∷ (slot 2 24 (codes "..") ∷ (slot 3 476 (codes "b") ∷ [])) }
    // The first slot of a chunk becomes unused, and is taken over with its length.
    ensures unused { directory_slots (tree_from smallest 1000 (tree_with (first_chunk 2 2 (slot 3 488 (longest 97) ∷ []) ∷ ((slot 3 512 (longest 98) ∷ []) ∷ [])) (empty_file ∷ []))
        first_caller (call.Remove (47 ∷ longest 98) ∷ [])) 2
        ≡ slot 2 12 (codes ".") ∷ (slot 2 12 (codes "..") ∷ (slot 3 488 (longest 97) ∷ (slot 0 512 [] ∷ []))) }
    ensures taken_over { directory_slots (tree_from smallest 1000 (tree_with (first_chunk 2 2 (slot 3 488 (longest 97) ∷ []) ∷ ((slot 0 512 [] ∷ []) ∷ [])) (empty_file ∷ []))
        first_caller (call.Create (47 ∷ longest 98) 0x1a4 ∷ [])) 2
        ≡ slot 2 12 (codes ".") ∷ (slot 2 12 (codes "..") ∷ (slot 3 488 (longest 97) ∷ (slot 4 512 (longest 98) ∷ []))) }
{}

/// An inode has 32,767 links at most: a file, and a directory by its subdirectories.
pub fn most_links()
    ensures file { answers_on smallest (tree_with (first_chunk 2 2 (slot 3 488 (codes "a") ∷ []) ∷ []) (empty_file ∷ (crowd 3 32765 ∷ []))) (codes "link /a /b\nlink /a /c\nlink /a /b\nstat /a\n")
        ≡ codes "1 ok\n2 mlink\n3 exist\n4 ok 3 file 644 32767 0 0 0 1000 0\n" }
    ensures directory { answers_on smallest (tree_with (new_directory 2 2 ∷ []) (crowd 2 32764 ∷ [])) (codes "mkdir /d 755\nmkdir /e 755\nmkdir /d 755\ncreate /f 644\n")
        ≡ codes "1 ok\n2 mlink\n3 exist\n4 ok\n" }
    // A directory that is moved into one counts, one that is moved inside of it or onto another one doesn't.
    ensures moved { answers_on smallest (tree_with (first_chunk 2 2 (slot 3 488 (codes "d") ∷ []) ∷ []) (directory_of (first_chunk 3 2 (slot 4 12 (codes "e") ∷ (slot 5 476 (codes "g") ∷ [])) ∷ []) ∷ (directory_of (new_directory 4 3 ∷ []) ∷ (directory_of (new_directory 5 3 ∷ []) ∷ (crowd 2 32763 ∷ [])))))
        (codes "rename /d/e /x\nrename /d/g /y\nrename /x /y\nrename /d/g /y\nstat /\n")
        ≡ codes "1 ok\n2 mlink\n3 ok\n4 ok\n5 ok 2 dir 755 32767 0 0 512 1000 1\n" }
    ensures above { answers_on smallest (tree_with (first_chunk 2 2 (slot 3 488 (codes "d") ∷ []) ∷ []) (directory_of (new_directory 3 2 ∷ []) ∷ (crowd 3 32765 ∷ []))) (codes "rename /d /d/x\nlink /d /x\n")
        ≡ codes "1 inval\n2 isdir\n" }
{}

/// A directory has 2,048 chunks at most. That it can't grow comes after that the name is there, or that links are too many,
/// and before that inodes or blocks are.
pub fn most_chunks()
    ensures last_chunk { answers_on smallest (tree_with (first_chunk 2 2 (slot 3 488 (longest 97) ∷ []) ∷ replicate 2046 taken_chunk) (empty_file ∷ [])) (codes "create /" ++ longest 98 ++ codes " 644\nstat /\ncreate /" ++ longest 99 ++ codes " 644\ncreate /b 644\n")
        ≡ codes "1 ok\n2 ok 2 dir 755 2 0 0 1048576 1000 257\n3 fbig\n4 ok\n" }
    ensures full { answers_on smallest (tree_with (first_chunk 2 2 (slot 3 488 (longest 97) ∷ []) ∷ replicate 2047 taken_chunk) (empty_file ∷ [])) (codes "create /" ++ longest 98 ++ codes " 644\nmkdir /" ++ longest 98 ++ codes " 755\nsymlink x /" ++ longest 98 ++ codes "\nlink /" ++ longest 97 ++ codes " /" ++ longest 98 ++ codes "\nrename /" ++ longest 97 ++ codes " /" ++ longest 98 ++ codes "\n")
        ≡ codes "1 fbig\n2 fbig\n3 fbig\n4 fbig\n5 fbig\n" }
    ensures there { answers_on smallest (tree_with (first_chunk 2 2 (slot 3 488 (longest 97) ∷ []) ∷ replicate 2047 taken_chunk) (empty_file ∷ [])) (codes "create /" ++ longest 97 ++ codes " 644\nsymlink x /" ++ longest 97 ++ codes "\n")
        ≡ codes "1 exist\n2 exist\n" }
    // The first chunk has room for the name, though no chunk may be added.
    ensures with_room { answers_on smallest (tree_with (new_directory 2 2 ∷ replicate 2047 taken_chunk) (empty_file ∷ [])) (codes "create /" ++ longest 98 ++ codes " 644\n") ≡ codes "1 ok\n" }
    ensures without_inodes { answers_on root_alone (tree_with (first_chunk 2 2 (slot 3 488 (longest 97) ∷ []) ∷ replicate 2047 taken_chunk) []) (codes "create /" ++ longest 98 ++ codes " 644\nmkdir /" ++ longest 98 ++ codes " 755\nsymlink x /" ++ longest 98 ++ codes "\n")
        ≡ codes "1 fbig\n2 fbig\n3 fbig\n" }
    ensures links_first { answers_on smallest (tree_with (first_chunk 2 2 (slot 3 488 (longest 97) ∷ []) ∷ replicate 2047 taken_chunk) (empty_file ∷ (crowd 2 32765 ∷ (crowd 3 32766 ∷ [])))) (codes "mkdir /" ++ longest 98 ++ codes " 755\nlink /" ++ longest 97 ++ codes " /" ++ longest 98 ++ codes "\n")
        ≡ codes "1 mlink\n2 mlink\n" }
    ensures links_of_a_moved_directory_first { answers_on smallest (tree_with (first_chunk 2 2 (slot 3 12 (codes "d") ∷ (slot 3 476 (longest 97) ∷ [])) ∷ replicate 2047 taken_chunk) (directory_of (first_chunk 3 2 (slot 4 488 (codes "e") ∷ []) ∷ []) ∷ (directory_of (new_directory 4 3 ∷ []) ∷ (crowd 2 32764 ∷ []))))
        (codes "rename /d/e /" ++ longest 98 ++ codes "\nrename /d/e /c\nrename /d /c\n")
        ≡ codes "1 mlink\n2 mlink\n3 ok\n" }
{}

/// Thirty inodes can be used in the smallest volume, the root among them. That none is free comes before that blocks are
/// too few.
pub fn inodes_used_up()
    ensures thirty { replies_from smallest 1000 new_tree first_caller (map (λ k. call.Create (47 ∷ (97 + k) ∷ []) 0x1a4) (range_with_len 0 30) ++ (call.Df ∷ []))
        ≡ replicate 29 reply.Done ++ (reply.Refused Noinodes ∷ (reply.Df 61 0 ∷ [])) }
    ensures before_blocks { answers_on root_alone (tree_with (first_chunk 2 2 (slot 2 488 (longest 97) ∷ []) ∷ replicate 7 taken_chunk) []) (codes "df\ncreate /" ++ longest 98 ++ codes " 644\nmkdir /b 755\nsymlink x /b\nlink /" ++ longest 97 ++ codes " /b\n")
        ≡ codes "1 ok 0 0\n2 noinodes\n3 noinodes\n4 noinodes\n5 isdir\n" }
{}

/// A call is refused where it must claim one block more than are free, and not before.
pub fn blocks_used_up()
    ensures directories { answers_on (with_blocks 3) new_tree (codes "mkdir /a 755\nmkdir /b 755\nmkdir /c 755\nsymlink x /c\ncreate /c 644\ndf\nrmdir /a\nsymlink x /a\ndf\n")
        ≡ codes "1 ok\n2 ok\n3 nospace\n4 nospace\n5 ok\n6 ok 0 26\n7 ok\n8 ok\n9 ok 0 26\n" }
    // A directory whose block is full claims another one for the name.
    ensures full_block { answers_on (with_blocks 2) (tree_with (first_chunk 2 2 (slot 3 488 (longest 97) ∷ []) ∷ replicate 7 taken_chunk) (empty_file ∷ []))
        (codes "df\nmkdir /" ++ longest 98 ++ codes " 755\nsymlink x /" ++ longest 98 ++ codes "\ncreate /" ++ longest 98 ++ codes " 644\nlink /" ++ longest 98 ++ codes " /" ++ longest 99 ++ codes "\nstat /\ndf\n")
        ≡ codes "1 ok 1 28\n2 nospace\n3 nospace\n4 ok\n5 ok\n6 ok 2 dir 755 2 0 0 5120 1000 2\n7 ok 0 27\n" }
    ensures no_block { answers_on (with_blocks 1) (tree_with (first_chunk 2 2 (slot 3 488 (longest 97) ∷ []) ∷ replicate 7 taken_chunk) (empty_file ∷ []))
        (codes "create /" ++ longest 98 ++ codes " 644\nlink /" ++ longest 97 ++ codes " /" ++ longest 98 ++ codes "\nrename /" ++ longest 97 ++ codes " /" ++ longest 98 ++ codes "\nrename /" ++ longest 97 ++ codes " /b\n")
        ≡ codes "1 nospace\n2 nospace\n3 nospace\n4 ok\n" }
    // The thirteenth block of a directory brings its pointer block.
    ensures thirteenth_block { answers_on (with_blocks 13) (tree_with (first_chunk 2 2 (slot 3 488 (longest 97) ∷ []) ∷ replicate 95 taken_chunk) (empty_file ∷ [])) (codes "df\ncreate /" ++ longest 98 ++ codes " 644\n")
        ≡ codes "1 ok 1 28\n2 nospace\n" }
    ensures with_pointer_block { answers_on (with_blocks 14) (tree_with (first_chunk 2 2 (slot 3 488 (longest 97) ∷ []) ∷ replicate 95 taken_chunk) (empty_file ∷ [])) (codes "df\ncreate /" ++ longest 98 ++ codes " 644\nstat /\ndf\n")
        ≡ codes "1 ok 2 28\n2 ok\n3 ok 2 dir 755 2 0 0 49664 1000 14\n4 ok 0 27\n" }
{}

/// What calls claim on a new volume.
pub fn wants()
    ensures create { wanted_of smallest new_tree first_caller (call.Create (codes "/a") 0x1a4) ≡ record { inode = true; fresh = []; others = 0 } }
    ensures mkdir { wanted_of smallest new_tree first_caller (call.Mkdir (codes "/a") 0x1ed) ≡ record { inode = true; fresh = []; others = 1 } }
    ensures refused { wanted_of smallest new_tree first_caller (call.Mkdir (codes "/.") 0x1ed) ≡ record { inode = false; fresh = []; others = 0 } }
    ensures in_a_full_block { wanted_of smallest (tree_with (first_chunk 2 2 (slot 3 488 (longest 97) ∷ []) ∷ replicate 7 taken_chunk) (empty_file ∷ [])) first_caller (call.Symlink (codes "x") (47 ∷ longest 98))
        ≡ record { inode = true; fresh = []; others = 2 } }
    ensures write { wanted_of smallest (tree_from smallest 1000 new_tree first_caller (call.Create (codes "/f") 0x1a4 ∷ (call.Write (codes "/f") 8192 (codes "a") ∷ []))) first_caller (call.Write (codes "/f") 4095 (replicate 12288 97))
        ≡ record { inode = false; fresh = 0 ∷ (1 ∷ (3 ∷ [])); others = 0 } }
    ensures pointers { wanted_of smallest (tree_from smallest 1000 new_tree first_caller (call.Create (codes "/f") 0x1a4 ∷ [])) first_caller (call.Write (codes "/f") 49151 (codes "ab"))
        ≡ record { inode = false; fresh = 11 ∷ (12 ∷ []); others = 1 } }
{}
