//! What mkfs makes of a disk, computed for the smallest volume.
ghost use Rattle.std.specs.Prelude.{◌≡◌, ◌∷◌, ◌++◌, [], codes, take, drop, replicate, Some, None};
ghost use Rattle.std.specs.Option.{option_map};
ghost use Rattle.volume_model.specs.Format.{clear_bits};
ghost use Rattle.volume_model.specs.MkfsImage.{made_group, made_block};
ghost use Rattle.volume_model.specs.Texts.{mkfs_text};
ghost use Rattle.volume_model.specs.Worked.{smallest};

/// The parts of the smallest volume, made at time 1000.
pub fn new_volume()
    ensures text { mkfs_text smallest ≡ codes "made blocks 99 inodes 30 free 61 ring 255\n" }
    ensures inode_bits { take 2 (made_group smallest 0).inode_bits ≡ 7 ∷ 0 ∷ [] }
    ensures block_bits { take 2 (made_group smallest 0).block_bits ≡ 7 ∷ 0 ∷ [] }
    ensures free_inodes { clear_bits (made_group smallest 0).inode_bits 32 ≡ (made_group smallest 0).free_inodes }
    ensures free_blocks { clear_bits (made_group smallest 0).block_bits 64 ≡ (made_group smallest 0).free_blocks }
    ensures header { option_map (take 16) (made_block smallest 1000 3)
        ≡ Some (0x4C ∷ 0x55 ∷ 0x46 ∷ 0x53 ∷ 0 ∷ 0 ∷ 0 ∷ 1 ∷ 0 ∷ 0 ∷ 0 ∷ 0 ∷ 0 ∷ 0 ∷ 0 ∷ 1 ∷ []) }
    ensures last_of_log { made_block smallest 1000 34 ≡ Some (replicate 4096 0) }
    ensures group { option_map (take 16) (made_block smallest 1000 35)
        ≡ Some (0 ∷ 9 ∷ 2 ∷ 0x55 ∷ 0 ∷ 0 ∷ 0 ∷ 0 ∷ 0 ∷ 0 ∷ 0 ∷ 29 ∷ 0 ∷ 0 ∷ 0 ∷ 61 ∷ []) }
    ensures root_mode { option_map (λ bytes. take 4 (drop 256 bytes)) (made_block smallest 1000 36) ≡ Some (0x41 ∷ 0xed ∷ 0 ∷ 2 ∷ []) }
    ensures root_place { option_map (λ bytes. take 4 (drop 288 bytes)) (made_block smallest 1000 36) ≡ Some (0 ∷ 0 ∷ 0 ∷ 37 ∷ []) }
    ensures root_moment { option_map (λ bytes. take 8 (drop 280 bytes)) (made_block smallest 1000 36) ≡ Some (0 ∷ 0 ∷ 0 ∷ 0 ∷ 0 ∷ 0 ∷ 3 ∷ 0xe8 ∷ []) }
    ensures root_chunk { option_map (take 28) (made_block smallest 1000 37)
        ≡ Some ((0 ∷ 0 ∷ 0 ∷ 2 ∷ 0 ∷ 12 ∷ 0 ∷ 1 ∷ 46 ∷ 0 ∷ 0 ∷ 0 ∷ []) ++ (0 ∷ 0 ∷ 0 ∷ 2 ∷ 1 ∷ 0xf4 ∷ 0 ∷ 2 ∷ 46 ∷ 46 ∷ 0 ∷ 0 ∷ 0 ∷ 0 ∷ 0 ∷ 0 ∷ [])) }
    ensures super_block { made_block smallest 1000 2 ≡ None }
    ensures free_block { made_block smallest 1000 38 ≡ None }
    ensures past_the_volume { made_block smallest 1000 99 ≡ None }
{}
