//! The definitions of directory chunks and pointer blocks computed on small examples.
ghost use Rattle.std.specs.Prelude.{◌≡◌, ◌∷◌, ◌++◌, [], replicate, length, Some, None};
ghost use Rattle.volume_model.specs.Format.{chunk_of, chunk_bytes, room_in, with_name, without_slot, found_at, new_directory, pointers_of, pointer_bytes};
ghost use Rattle.worked_volumes.specs.Chunks.{root_chunk, odd_chunk, root_with_one, root_after_one, one, pointer_block, pointers};

/// The chunk of a new root has `.` of length 12 and `..` of length 500.
pub fn chunks()
    ensures read { chunk_of root_chunk ≡ Some (new_directory 2 2) }
    ensures written { chunk_bytes (new_directory 2 2) ≡ root_chunk }
    ensures odd_length { chunk_of odd_chunk ≡ None }
    ensures room { room_in (new_directory 2 2) one ≡ Some 1 }
    ensures entered { with_name (new_directory 2 2) one 5 ≡ root_with_one }
    ensures found { found_at root_with_one one ≡ Some 2 }
    ensures removed { without_slot root_with_one 2 ≡ new_directory 2 2 }
    ensures first_removed { without_slot root_with_one 0 ≡ root_after_one }
{}

/// A pointer block has a number in every four bytes.
pub fn pointer_blocks()
    ensures read { pointers_of pointer_block ≡ pointers }
    ensures written { pointer_bytes pointers ≡ pointer_block }
{}
