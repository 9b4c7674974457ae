//! What lies in the block that a file has at an index.
ghost use Rattle.std.specs.Prelude.{◌≡◌, ℕ, false, take, option_map, IfSome};
ghost use Rattle.lufs_base.specs.Layout.{block_size};
ghost use Rattle.lufs_base.specs.declared.geometry.Geometry.{Geometry};
ghost use Rattle.volume_model.specs.Format.{Blocks};
ghost use Rattle.volume_model.specs.Sound.{reading_of, has_bad_numbers, tree_of};
ghost use Rattle.history_model.specs.Places.{file_in};
ghost use Rattle.history_model.specs.FileBytes.{block_at};
ghost use Rattle.file_map.specs.Mapped.{block_mapped};

/// The bytes of a file at an index are those of the block that it has there.
pub fn mapped_bytes()
    ensures { (g : Geometry) (blocks : Blocks) (i index : ℕ) → has_bad_numbers g (reading_of g blocks) i ≡ false
        → IfSome (file_in (tree_of g blocks) i) (λ file. block_at file index ≡ option_map (λ b. take block_size (blocks b)) (block_mapped (reading_of g blocks) i index)) }
{}
