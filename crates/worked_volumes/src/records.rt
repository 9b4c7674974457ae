//! The definitions of records computed on those of the smallest volume.
ghost use Rattle.std.specs.Prelude.{◌≡◌, ◌∷◌, ◌++◌, [], replicate, take, Some, None};
ghost use Rattle.volume_model.specs.Format.{group_of, group_bytes, clear_bits, dinode_of, dinode_bytes};
ghost use Rattle.volume_model.specs.Worked.{smallest, made_root};
ghost use Rattle.worked_volumes.specs.Records.{made_group, group_with, inode_bits, inode_bits_past, block_bits, block_bits_past, inode_with};

/// The group record of the smallest volume, and bytes that are none.
pub fn groups()
    ensures made { group_of smallest 0 (group_with 0 inode_bits block_bits) ≡ Some made_group }
    ensures written { group_bytes made_group ≡ group_with 0 inode_bits block_bits }
    ensures free_inodes { clear_bits inode_bits 32 ≡ 29 }
    ensures free_blocks { clear_bits block_bits 64 ≡ 61 }
    ensures other_number { group_of smallest 0 (group_with 1 inode_bits block_bits) ≡ None }
    ensures inode_past { group_of smallest 0 (group_with 0 inode_bits_past block_bits) ≡ None }
    ensures block_past { group_of smallest 0 (group_with 0 inode_bits block_bits_past) ≡ None }
    ensures inode_1_free { group_of smallest 0 (group_with 0 (5 ∷ replicate 127 0) block_bits) ≡ None }
    ensures inode_block_free { group_of smallest 0 (group_with 0 inode_bits (5 ∷ replicate 255 0)) ≡ None }
{}

/// The root's record, a free one, and bytes that are no record.
pub fn inodes()
    ensures root { dinode_of 1 (inode_with 0x41ed 2 0 0) ≡ Some (Some made_root) }
    ensures written { dinode_bytes (Some made_root) ≡ inode_with 0x41ed 2 0 0 }
    ensures begins { take 4 (dinode_bytes (Some made_root)) ≡ 0x41 ∷ 0xed ∷ 0 ∷ 2 ∷ [] }
    ensures begins_at_700 { take 4 (dinode_bytes (Some (record made_root { mode = 0x41c0 }))) ≡ 0x41 ∷ 0xc0 ∷ 0 ∷ 2 ∷ [] }
    ensures free { dinode_of 1 (replicate 128 0) ≡ Some None }
    ensures free_written { dinode_bytes None ≡ replicate 128 0 }
    ensures mode_0 { dinode_of 1 (0 ∷ 0 ∷ 0 ∷ 2 ∷ replicate 124 0) ≡ None }
    ensures other_type { dinode_of 1 (inode_with 0x61ed 2 0 0) ≡ None }
    ensures bit_above_rights { dinode_of 1 (inode_with 0x43ed 2 0 0) ≡ None }
    ensures third_indirect { dinode_of 1 (inode_with 0x81a4 1 0 1) ≡ None }
{}
