//! What sound means, computed on small volumes. Each clause has a volume and what is found in it.
ghost use Rattle.std.specs.Prelude.{◌≡◌, ◌∷◌, [], replicate, codes, Some, None, true, false};
ghost use Rattle.std.specs.List.{range_with_len};
ghost use Rattle.lufs_base.specs.Fields.{field_bytes};
ghost use Rattle.volume_model.specs.declared.finding.Kind.TheVariants.{Group, Inode, Fields, Root, Twice, Chunk, Name, Parent, Links, InodeBit, BlockBit, Count};
ghost use Rattle.volume_model.specs.declared.finding.Verdict.TheVariants.{Clean, Finding};
ghost use Rattle.volume_model.specs.Format.{dinode_bytes, new_directory};
ghost use Rattle.volume_model.specs.Sound.{has_right_size, dot, dot_dot, reading_of, finding_of, verdict_of};
ghost use Rattle.volume_model.specs.Worked.{smallest, made_of, made, changed, with_inode, with_bits, with_counts, with_chunk, with_pointers, file, directory, link, slot, directory_slots, with_root, with_file, with_all, with_held_bits};
ghost use Rattle.worked_volumes.specs.Volumes.{two_groups, with_three, with_directory, with_a_circle, with_a_file_above, with_large_root};

/// Records that are wrong: those of groups and inodes, the fields of an inode, the root, and claims.
pub fn findings_of_records()
    ensures group_magic { verdict_of smallest (changed made 35 0 (1 ∷ [])) ≡ Finding Group 0 }
    ensures group_number { verdict_of smallest (changed made 35 7 (1 ∷ [])) ≡ Finding Group 0 }
    ensures inode_without_mode { verdict_of smallest (changed made 36 387 (1 ∷ [])) ≡ Finding Inode 3 }
    ensures last_inode_without_mode { verdict_of smallest (changed made 36 3971 (1 ∷ [])) ≡ Finding Inode 31 }
    ensures inode_zero_in_use { verdict_of smallest (with_inode made 0 (file 1 0 [] 0 0)) ≡ Finding Inode 0 }
    ensures inode_one_in_use { verdict_of smallest (with_inode made 1 (file 1 0 [] 0 0)) ≡ Finding Inode 1 }
    ensures root_is_file { verdict_of smallest (with_inode made 2 (file 1 512 (37 ∷ []) 0 1)) ≡ Finding Root 2 }
    ensures root_is_free { verdict_of smallest (changed made 36 256 (replicate 128 0)) ≡ Finding Root 2 }
    ensures block_of_two_inodes { verdict_of smallest (with_three (file 1 4096 (37 ∷ []) 0 1)) ≡ Finding Twice 37 }
    ensures block_at_two_indexes { verdict_of smallest (with_three (file 1 8192 (38 ∷ (38 ∷ [])) 0 2)) ≡ Finding Twice 38 }
{}

/// Fields of inode 3 that are out of range. Nothing names it, so where they are right its links are found wrong.
pub fn findings_of_fields()
    ensures no_links { verdict_of smallest (with_three (file 0 0 [] 0 0)) ≡ Finding Fields 3 }
    ensures most_links { verdict_of smallest (with_three (file 32767 0 [] 0 0)) ≡ Finding Links 3 }
    ensures more_links { verdict_of smallest (with_three (file 32768 0 [] 0 0)) ≡ Finding Fields 3 }
    ensures largest_file { verdict_of smallest (with_three (file 1 4243456 [] 0 0)) ≡ Finding Links 3 }
    ensures larger_file { verdict_of smallest (with_three (file 1 4243457 [] 0 0)) ≡ Finding Fields 3 }
    ensures empty_directory { verdict_of smallest (with_three (directory 2 0 [] 0 0)) ≡ Finding Fields 3 }
    ensures largest_directory { has_right_size smallest (directory 2 1048576 [] 0 0) ≡ true }
    ensures larger_directory { has_right_size smallest (directory 2 1049088 [] 0 0) ≡ false }
    ensures half_a_chunk { verdict_of smallest (with_three (directory 2 768 (38 ∷ []) 0 1)) ≡ Finding Fields 3 }
    ensures link_without_text { verdict_of smallest (with_three (link 1 0 [] 0 0)) ≡ Finding Fields 3 }
    ensures longest_link { verdict_of smallest (with_three (link 1 1024 (38 ∷ []) 0 1)) ≡ Finding Links 3 }
    ensures longer_link { verdict_of smallest (with_three (link 1 1025 (38 ∷ []) 0 1)) ≡ Finding Fields 3 }
    ensures last_block { verdict_of smallest (with_three (file 1 4096 (98 ∷ []) 0 1)) ≡ Finding Links 3 }
    ensures block_past_the_volume { verdict_of smallest (with_three (file 1 4096 (99 ∷ []) 0 1)) ≡ Finding Fields 3 }
    ensures block_of_inodes { verdict_of smallest (with_three (file 1 4096 (36 ∷ []) 0 1)) ≡ Finding Fields 3 }
    ensures block_past_the_size { verdict_of smallest (with_three (file 1 4096 (38 ∷ (39 ∷ [])) 0 2)) ≡ Finding Fields 3 }
    ensures hole_in_a_file { verdict_of smallest (with_three (file 1 8192 (0 ∷ (38 ∷ [])) 0 1)) ≡ Finding Links 3 }
    ensures hole_in_a_directory { verdict_of smallest (with_three (directory 2 4608 (38 ∷ []) 0 1)) ≡ Finding Fields 3 }
    ensures hole_in_a_link { verdict_of smallest (with_three (link 1 2 [] 0 0)) ≡ Finding Fields 3 }
    ensures block_not_counted { verdict_of smallest (with_three (file 1 4096 (38 ∷ []) 0 0)) ≡ Finding Fields 3 }
    ensures hole_counted { verdict_of smallest (with_three (file 1 8192 (0 ∷ (38 ∷ [])) 0 2)) ≡ Finding Fields 3 }
    ensures root_counts_two_blocks { verdict_of smallest (changed made 36 351 (2 ∷ [])) ≡ Finding Fields 2 }
{}

/// Pointer blocks that are wrong: their numbers and those in them, and blocks that they claim twice.
pub fn findings_of_pointer_blocks()
    ensures pointer_block_of_the_log { verdict_of smallest (with_three (file 1 49153 [] 34 1)) ≡ Finding Fields 3 }
    ensures pointer_to_inodes { verdict_of smallest (with_pointers (with_three (file 1 49153 [] 38 2)) 38 (36 ∷ [])) ≡ Finding Fields 3 }
    ensures pointer_past_the_size { verdict_of smallest (with_pointers (with_three (file 1 49153 [] 38 2)) 38 (0 ∷ (39 ∷ []))) ≡ Finding Fields 3 }
    ensures pointer_block_not_wanted { verdict_of smallest (with_three (file 1 49152 [] 38 1)) ≡ Finding Fields 3 }
    ensures pointer_block_in_itself { verdict_of smallest (with_pointers (with_three (file 1 49153 [] 38 2)) 38 (38 ∷ [])) ≡ Finding Twice 38 }
    ensures pointer_block_of_an_empty_file { verdict_of smallest (with_three (file 1 0 [] 38 1)) ≡ Finding Fields 3 }
    ensures pointer_block_of_twelve_blocks { verdict_of smallest (with_inode made 2 (directory 2 49152 (range_with_len 37 12) 49 13)) ≡ Finding Fields 2 }
    ensures directory_without_pointer_block { verdict_of smallest (with_inode with_large_root 2 (directory 2 49664 (range_with_len 37 12) 0 12)) ≡ Finding Fields 2 }
    ensures free_inode_named_after_it { verdict_of smallest (with_chunk with_large_root 50 0 (slot 3 512 (codes "a") ∷ [])) ≡ Finding Name 2 }
{}

/// Names that are wrong: in the chunks of a directory, of free inodes, in the tree, and by the count of links.
pub fn findings_of_names()
    ensures slot_of_thirteen_bytes { verdict_of smallest (changed made 37 5 (13 ∷ [])) ≡ Finding Chunk 2 }
    ensures dot_is_another { verdict_of smallest (with_root made (new_directory 3 2)) ≡ Finding Chunk 2 }
    ensures dot_too_long { verdict_of smallest (with_root made (slot 2 16 dot ∷ (slot 2 496 dot_dot ∷ []))) ≡ Finding Chunk 2 }
    ensures no_dot_dot { verdict_of smallest (with_root made (slot 2 12 dot ∷ (slot 2 500 (codes "a") ∷ []))) ≡ Finding Chunk 2 }
    ensures dot_dot_unused { verdict_of smallest (with_root made (slot 2 12 dot ∷ (slot 0 500 [] ∷ []))) ≡ Finding Chunk 2 }
    ensures dot_again { verdict_of smallest (with_root made (directory_slots 2 2 (slot 2 488 dot ∷ []))) ≡ Finding Chunk 2 }
    ensures name_twice { verdict_of smallest (with_root with_file (directory_slots 2 2 (slot 3 12 (codes "a") ∷ (slot 3 476 (codes "a") ∷ [])))) ≡ Finding Chunk 2 }
    ensures name_in_two_chunks { verdict_of smallest (changed (with_chunk with_file 37 1 (slot 3 512 (codes "a") ∷ [])) 36 272 (field_bytes 8 1024)) ≡ Finding Chunk 2 }
    ensures second_chunk_of_zeros { verdict_of smallest (changed with_file 36 272 (field_bytes 8 1024)) ≡ Finding Chunk 2 }
    ensures names_free_inode { verdict_of smallest (with_root made (directory_slots 2 2 (slot 3 488 (codes "a") ∷ []))) ≡ Finding Name 2 }
    ensures names_no_inode { verdict_of smallest (with_root made (directory_slots 2 2 (slot 32 488 (codes "a") ∷ []))) ≡ Finding Name 2 }
    ensures free_inode_above { verdict_of smallest (with_root made (new_directory 2 3)) ≡ Finding Name 2 }
    ensures another_above_the_root { verdict_of smallest (with_root with_file (directory_slots 2 3 (slot 3 488 (codes "a") ∷ []))) ≡ Finding Parent 2 }
    ensures root_is_named { verdict_of smallest (with_root made (directory_slots 2 2 (slot 2 488 (codes "a") ∷ []))) ≡ Finding Parent 2 }
    ensures directory_without_name { verdict_of smallest (with_root with_directory (new_directory 2 2)) ≡ Finding Parent 3 }
    ensures directory_with_two_names { verdict_of smallest (with_root with_directory (directory_slots 2 2 (slot 3 12 (codes "d") ∷ (slot 3 476 (codes "e") ∷ [])))) ≡ Finding Parent 3 }
    ensures another_above { verdict_of smallest (with_chunk with_directory 38 0 (directory_slots 3 3 (slot 0 488 [] ∷ []))) ≡ Finding Parent 3 }
    ensures file_above { verdict_of smallest with_a_file_above ≡ Finding Parent 3 }
    ensures circle_of_one { verdict_of smallest (with_root (with_chunk with_directory 38 0 (directory_slots 3 3 (slot 3 488 (codes "d") ∷ []))) (new_directory 2 2)) ≡ Finding Parent 3 }
    ensures circle_of_two { verdict_of smallest with_a_circle ≡ Finding Parent 3 }
    ensures file_without_name { verdict_of smallest (with_three (file 1 0 [] 0 0)) ≡ Finding Links 3 }
    ensures file_with_two_names { verdict_of smallest (with_root with_file (directory_slots 2 2 (slot 3 12 (codes "a") ∷ (slot 3 476 (codes "b") ∷ [])))) ≡ Finding Links 3 }
    ensures dot_not_counted { verdict_of smallest (with_inode with_directory 3 (directory 1 512 (38 ∷ []) 0 1)) ≡ Finding Links 3 }
    ensures dot_dot_not_counted { verdict_of smallest (with_inode with_directory 2 (directory 2 512 (37 ∷ []) 0 1)) ≡ Finding Links 2 }
{}

/// Bits and counts that are wrong.
pub fn findings_of_bits()
    ensures bit_past_the_inodes { verdict_of smallest (changed made 35 36 (1 ∷ [])) ≡ Finding Group 0 }
    ensures bit_past_the_blocks { verdict_of smallest (changed made 35 168 (1 ∷ [])) ≡ Finding Group 0 }
    ensures bit_of_a_free_inode { verdict_of smallest (with_bits made 15 7) ≡ Finding InodeBit 3 }
    ensures bit_of_the_last_inode { verdict_of smallest (changed made 35 35 (128 ∷ [])) ≡ Finding InodeBit 31 }
    ensures no_bit_of_the_root { verdict_of smallest (with_bits made 3 7) ≡ Finding InodeBit 2 }
    ensures no_bit_of_a_file { verdict_of smallest (with_bits with_file 7 15) ≡ Finding InodeBit 3 }
    ensures no_bit_of_a_block { verdict_of smallest (with_bits made 7 3) ≡ Finding BlockBit 37 }
    ensures bit_of_a_free_block { verdict_of smallest (with_bits made 7 15) ≡ Finding BlockBit 38 }
    ensures bit_of_the_last_block { verdict_of smallest (changed made 35 167 (128 ∷ [])) ≡ Finding BlockBit 98 }
    ensures no_bit_of_a_pointer_block { verdict_of smallest (with_bits with_all 63 239) ≡ Finding BlockBit 39 }
    ensures no_bit_after_a_pointer_block { verdict_of smallest (with_bits with_all 63 223) ≡ Finding BlockBit 40 }
    ensures count_of_inodes { verdict_of smallest (with_counts made 30 61) ≡ Finding Count 0 }
    ensures count_of_blocks { verdict_of smallest (with_counts made 29 62) ≡ Finding Count 0 }
{}

/// The same in the second of two groups.
pub fn findings_of_two_groups()
    ensures new_volume { verdict_of two_groups (made_of two_groups) ≡ Clean (record { inodes = 1; blocks = 1; free = 123 }) }
    ensures group_magic { verdict_of two_groups (changed (made_of two_groups) 99 0 (1 ∷ [])) ≡ Finding Group 1 }
    ensures number_of_the_first_group { verdict_of two_groups (changed (made_of two_groups) 99 7 (0 ∷ [])) ≡ Finding Group 1 }
    ensures inode_without_mode { verdict_of two_groups (changed (made_of two_groups) 100 131 (1 ∷ [])) ≡ Finding Inode 33 }
    ensures block_of_inodes { verdict_of two_groups (with_inode (made_of two_groups) 3 (file 1 4096 (100 ∷ []) 0 1)) ≡ Finding Fields 3 }
    ensures first_body_block { verdict_of two_groups (with_inode (made_of two_groups) 3 (file 1 4096 (101 ∷ []) 0 1)) ≡ Finding Links 3 }
    ensures last_block { verdict_of two_groups (with_inode (made_of two_groups) 3 (file 1 4096 (162 ∷ []) 0 1)) ≡ Finding Links 3 }
    ensures block_past_the_volume { verdict_of two_groups (with_inode (made_of two_groups) 3 (file 1 4096 (163 ∷ []) 0 1)) ≡ Finding Fields 3 }
    ensures file_without_name { verdict_of two_groups (changed (made_of two_groups) 100 128 (dinode_bytes (Some (file 1 0 [] 0 0)))) ≡ Finding Links 33 }
    ensures inode_bit { verdict_of two_groups (changed (made_of two_groups) 99 32 (1 ∷ [])) ≡ Finding InodeBit 32 }
    ensures block_bit { verdict_of two_groups (changed (made_of two_groups) 99 160 (7 ∷ [])) ≡ Finding BlockBit 101 }
    ensures last_block_bit { verdict_of two_groups (changed (made_of two_groups) 99 167 (128 ∷ [])) ≡ Finding BlockBit 162 }
    ensures count_of_inodes { verdict_of two_groups (changed (made_of two_groups) 99 11 (31 ∷ [])) ≡ Finding Count 1 }
{}

/// What is held has its bits set, though no inode in use claims it.
pub fn findings_beside_hands()
    ensures nothing_held { finding_of smallest (reading_of smallest with_held_bits) [] ≡ Some (InodeBit, 3) }
    ensures inode_held { finding_of smallest (reading_of smallest with_held_bits) (record { inode = Some 3; blocks = [] } ∷ []) ≡ Some (BlockBit, 38) }
    ensures both_held { finding_of smallest (reading_of smallest with_held_bits) (record { inode = Some 3; blocks = 38 ∷ [] } ∷ []) ≡ None }
    ensures held_by_two { finding_of smallest (reading_of smallest with_held_bits) (record { inode = None; blocks = 38 ∷ [] } ∷ (record { inode = Some 3; blocks = [] } ∷ [])) ≡ None }
    ensures held_without_bits { finding_of smallest (reading_of smallest made) (record { inode = None; blocks = 38 ∷ [] } ∷ []) ≡ Some (BlockBit, 38) }
{}

/// Where several rules are broken, the earlier kind is found, and in it the lowest number.
pub fn findings_come_in_order()
    ensures two_inodes { verdict_of smallest (changed (changed made 36 1155 (1 ∷ [])) 36 387 (1 ∷ [])) ≡ Finding Inode 3 }
    ensures two_blocks { verdict_of smallest (with_bits made 7 31) ≡ Finding BlockBit 38 }
    ensures group_and_inode { verdict_of smallest (changed (changed made 36 387 (1 ∷ [])) 35 0 (1 ∷ [])) ≡ Finding Group 0 }
    ensures inode_and_lower_fields { verdict_of smallest (changed (changed made 36 351 (2 ∷ [])) 36 387 (1 ∷ [])) ≡ Finding Inode 3 }
    ensures fields_and_root { verdict_of smallest (with_inode (with_three (file 0 0 [] 0 0)) 2 (file 1 512 (37 ∷ []) 0 1)) ≡ Finding Fields 3 }
    ensures twice_and_chunk { verdict_of smallest (with_root (with_three (file 1 4096 (37 ∷ []) 0 1)) (new_directory 1 2)) ≡ Finding Twice 37 }
    ensures name_and_parent { verdict_of smallest (with_root with_directory (new_directory 2 4)) ≡ Finding Name 2 }
    ensures links_and_bit { verdict_of smallest (with_bits (with_three (file 1 0 [] 0 0)) 3 7) ≡ Finding Links 3 }
    ensures bits { verdict_of smallest (with_bits made 15 3) ≡ Finding InodeBit 3 }
    ensures bit_and_count { verdict_of smallest (with_counts (with_bits made 7 3) 30 61) ≡ Finding BlockBit 37 }
{}
