//! What a volume means, computed on small ones: what there is in it, its tree, and the line for what a check answers.
ghost use Rattle.std.specs.Prelude.{◌≡◌, ◌∷◌, ◌++◌, [], map, replicate, codes, Some, None};
ghost use Rattle.volume_model.specs.declared.finding.Kind.TheVariants.{Group, Inode, Fields, Root, Twice, Chunk, Name, Parent, Links, InodeBit, BlockBit, Count};
ghost use Rattle.volume_model.specs.declared.finding.Verdict.TheVariants.{Clean, Finding};
ghost use Rattle.volume_model.specs.Format.{new_directory};
ghost use Rattle.volume_model.specs.Sound.{free_inodes_of, reading_of, read_length, metadata_length, used_inode, numbers_of, AtIndex, AtPointer, claims_in, Single, verdict_of, File, Directory, Link, directory_blocks, free_blocks_of, shape_of, tree_of};
ghost use Rattle.volume_model.specs.Texts.{word_of, verdict_text};
ghost use Rattle.volume_model.specs.Worked.{file, smallest, made_of, made, slot, directory_slots, with_file, with_all};
ghost use Rattle.worked_volumes.specs.Volumes.{two_groups, with_directory, with_large_root};

/// Volumes that are sound, with what there is in them.
pub fn volumes_that_are_sound()
    ensures new_volume { verdict_of smallest made ≡ Clean (record { inodes = 1; blocks = 1; free = 61 }) }
    ensures with_a_file { verdict_of smallest with_file ≡ Clean (record { inodes = 2; blocks = 2; free = 60 }) }
    ensures with_a_directory { verdict_of smallest with_directory ≡ Clean (record { inodes = 2; blocks = 2; free = 60 }) }
    // A file with holes and a pointer block, that has two names; a directory of two chunks; and a link.
    ensures with_all_types { verdict_of smallest with_all ≡ Clean (record { inodes = 4; blocks = 6; free = 56 }) }
    ensures with_a_large_root { verdict_of smallest with_large_root ≡ Clean (record { inodes = 1; blocks = 14; free = 48 }) }
{}

/// The numbers of an inode, and what it claims: its pointer block, and then the block at each index.
pub fn numbers_and_claims()
    // A pointer block that isn't there reads as zeros.
    ensures no_pointer_block { numbers_of made (file 1 4096 (38 ∷ []) 0 1) ≡ 38 ∷ replicate 1035 0 }
    ensures pointer_block_of_zeros { numbers_of made (file 1 4096 (38 ∷ []) 39 2) ≡ 38 ∷ replicate 1035 0 }
    ensures claims { claims_in 3 (used_inode with_all (file 2 50000 (38 ∷ []) 39 3))
        ≡ record { block = 39; inode = 3; part = AtPointer Single } ∷ (record { block = 38; inode = 3; part = AtIndex 0 }
        ∷ (record { block = 40; inode = 3; part = AtIndex 12 } ∷ [])) }
{}

/// How many bytes of a block are read: of a group block the record, of an inode block all, of a directory's block its two
/// chunks, of a link's the text, and of a file's all, which are no metadata.
pub fn bytes_read()
    ensures all { map (read_length smallest (reading_of smallest with_all)) (2 ∷ (35 ∷ (36 ∷ (37 ∷ (38 ∷ (39 ∷ (41 ∷ (42 ∷ (43 ∷ (99 ∷ []))))))))))
        ≡ 0 ∷ (416 ∷ (4096 ∷ (512 ∷ (4096 ∷ (4096 ∷ (1024 ∷ (2 ∷ (0 ∷ (0 ∷ []))))))))) }
    ensures metadata { map (metadata_length smallest (reading_of smallest with_all)) (35 ∷ (36 ∷ (37 ∷ (38 ∷ (39 ∷ (40 ∷ (41 ∷ (42 ∷ []))))))))
        ≡ 416 ∷ (4096 ∷ (512 ∷ (0 ∷ (4096 ∷ (0 ∷ (1024 ∷ (2 ∷ []))))))) }
    // The first of thirteen blocks has eight chunks, and the last has one.
    ensures large_root { map (read_length smallest (reading_of smallest with_large_root)) (37 ∷ (49 ∷ (50 ∷ []))) ≡ 4096 ∷ (4096 ∷ (512 ∷ [])) }
{}

/// Nodes in the trees of two volumes, a shape, and the free blocks of trees.
pub fn trees()
    ensures new_root { tree_of smallest made 2
        ≡ Some (Directory (record { attributes = record { rights = 0x1ed; uid = 0; gid = 0; mtime = 1000 }; chunks = new_directory 2 2 ∷ [] })) }
    ensures new_free_blocks { free_blocks_of smallest (tree_of smallest made) ≡ 61 }
    ensures free { tree_of smallest with_all 6 ≡ None }
    ensures past_the_volume { tree_of smallest with_all 32 ≡ None }
    // The tree doesn't show how many groups there are.
    ensures root_of_two_groups { tree_of two_groups (made_of two_groups) 2 ≡ tree_of smallest made 2 }
    ensures free_of_two_groups { tree_of two_groups (made_of two_groups) 32 ≡ tree_of smallest made 32 }
    ensures free_blocks_of_two_groups { free_blocks_of two_groups (tree_of smallest made) ≡ 123 }
    ensures root { tree_of smallest with_all 2
        ≡ Some (Directory (record {
          attributes = record { rights = 0x1ed; uid = 7; gid = 8; mtime = 2000 };
          chunks = directory_slots 2 2 (slot 4 12 (codes "d") ∷ (slot 3 476 (codes "f") ∷ [])) ∷ [];
        })) }
    ensures file_with_holes { tree_of smallest with_all 3
        ≡ Some (File (record {
          attributes = record { rights = 0x1a4; uid = 7; gid = 8; mtime = 2000 };
          size = 50000;
          blocks = Some (replicate 4096 1) ∷ (replicate 11 None ++ (Some (replicate 4096 2) ∷ []));
          pointers = Single ∷ [];
        })) }
    ensures directory_of_two_chunks { tree_of smallest with_all 4
        ≡ Some (Directory (record {
          attributes = record { rights = 0x1ed; uid = 7; gid = 8; mtime = 2000 };
          chunks = directory_slots 4 2 (slot 3 488 (codes "g") ∷ []) ∷ ((slot 5 512 (codes "l") ∷ []) ∷ []);
        })) }
    ensures symbolic_link { tree_of smallest with_all 5
        ≡ Some (Link (record { attributes = record { rights = 0x1ff; uid = 7; gid = 8; mtime = 2000 }; text = codes "/f" })) }
    ensures free_blocks { free_blocks_of smallest (tree_of smallest with_all) ≡ 56 }
    ensures free_inodes { free_inodes_of smallest (tree_of smallest with_all) ≡ 26 }
    ensures free_inodes_of_two_groups { free_inodes_of two_groups (tree_of smallest with_all) ≡ 58 }
    ensures shape { shape_of (tree_of smallest with_all) 3
        ≡ Some (File (record {
          attributes = record { rights = 0x1a4; uid = 7; gid = 8; mtime = 2000 };
          size = 50000;
          blocks = Some [] ∷ (replicate 11 None ++ (Some [] ∷ []));
          pointers = Single ∷ [];
        })) }
    // A directory of more than twelve blocks has a pointer block too.
    ensures large_root { free_blocks_of smallest (tree_of smallest with_large_root) ≡ 48 }
    ensures one_chunk { directory_blocks 1 ≡ 1 }
    ensures nine_chunks { directory_blocks 9 ≡ 2 }
    ensures twelve_blocks { directory_blocks 96 ≡ 12 }
    ensures thirteen_blocks { directory_blocks 97 ≡ 14 }
{}

/// The lines for what a check answers.
pub fn check_texts()
    ensures clean { verdict_text (Clean (record { inodes = 1; blocks = 1; free = 61 })) ≡ codes "clean inodes 1 blocks 1 free 61\n" }
    ensures unsound { verdict_text (Finding BlockBit 37) ≡ codes "unsound blockbit 37\n" }
    ensures words { map word_of (Group ∷ (Inode ∷ (Fields ∷ (Root ∷ (Twice ∷ (Chunk ∷ []))))))
        ≡ codes "group" ∷ (codes "inode" ∷ (codes "fields" ∷ (codes "root" ∷ (codes "twice" ∷ (codes "chunk" ∷ []))))) }
    ensures more_words { map word_of (Name ∷ (Parent ∷ (Links ∷ (InodeBit ∷ (BlockBit ∷ (Count ∷ []))))))
        ≡ codes "name" ∷ (codes "parent" ∷ (codes "links" ∷ (codes "inodebit" ∷ (codes "blockbit" ∷ (codes "count" ∷ []))))) }
{}
