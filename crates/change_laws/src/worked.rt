//! The definitions of changes, computed on a small volume.
ghost use Rattle.std.specs.Prelude.{◌≡◌, ◌∷◌, [], Some, true, false};
ghost use Rattle.volume_model.specs.Sound.{Unused, InUse, reading_of, used_inode};
ghost use Rattle.volume_model.specs.Worked.{smallest, made, file, with_file, with_all, with_held_bits};
ghost use Rattle.change_laws.specs.Exchange.{claimed_blocks, Exchanges};
ghost use Rattle.change_laws.specs.Marks.{IsOfGroup, IsFree, HasHandPut};
ghost use Rattle.change_laws.specs.Worked.{three_and_block, file_of_one_block, group_in};

/// An inode and a block that are held become a file, and a file becomes free and its block held.
pub fn held_and_claimed()
    ensures claimed { claimed_blocks 3 (Some (used_inode with_all (file 2 50000 (38 ∷ []) 39 3))) ≡ 39 ∷ (38 ∷ (40 ∷ [])) }
    ensures made { Exchanges smallest (reading_of smallest with_held_bits) 3 (InUse file_of_one_block) (three_and_block ∷ []) [] }
    ensures freed { Exchanges smallest (reading_of smallest with_file) 3 Unused [] (three_and_block ∷ []) }
{}

/// The same inode and block are free in a new volume; the bits of its group with theirs set, and with theirs cleared.
pub fn marked_and_free()
    ensures free { IsFree smallest (reading_of smallest made) three_and_block }
    ensures group { IsOfGroup smallest 0 three_and_block }
    ensures set { HasHandPut smallest 0 true three_and_block (group_in made) (group_in with_held_bits) }
    ensures cleared { HasHandPut smallest 0 false three_and_block (group_in with_held_bits) (group_in made) }
{}
