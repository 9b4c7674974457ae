//! A chunk of a directory changes.
ghost use Rattle.std.specs.Prelude.{◌≡◌, ◌<◌, ℕ, ◌*◌, ◌/◌, ◌%◌, List, length, slice_index, slice_set, Some};
ghost use Rattle.lufs_base.specs.declared.geometry.Geometry.{Geometry};
ghost use Rattle.volume_model.specs.declared.hand.Hand.{Hand};
ghost use Rattle.volume_model.specs.declared.directory.Slot.{Slot};
ghost use Rattle.volume_model.specs.Format.{Blocks};
ghost use Rattle.volume_model.specs.Sound.{UsedInode, InUse, chunk_at, DirectoryNode, Directory};
ghost use Rattle.volume_laws.specs.Changes.{AgreeWhereReadBut, with_chunk};
ghost use Rattle.change_laws.specs.Plans.{HasInode, ChangesInode};

/// The bytes of a chunk of a directory become those of another chunk: the node has its slots there.
pub fn chunk_replaced()
    ensures { (g : Geometry) (blocks others : Blocks) (i k : ℕ) (u : UsedInode) (directory : DirectoryNode) (slots : List Slot) (hands : List Hand)
        → HasInode g blocks hands i u (Directory directory) → k < length directory.chunks
        → AgreeWhereReadBut g blocks others (slice_index u.numbers (k / 8)) (512 * (k % 8)) 512 → chunk_at others u.numbers k ≡ Some slots
        → ChangesInode g blocks others i (InUse (with_chunk u k (Some slots))) (Some (Directory (record directory { chunks = slice_set directory.chunks k slots }))) hands }
{}
