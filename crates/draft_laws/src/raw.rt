// Bytes are written in place: in a block that is held, or in one of a file.
ghost use Rattle.std.specs.Prelude.{◌≡◌, ◌==◌, ◌*◌, ◌/◌, ◌%◌, ℕ, Bool, true, false, List, take, slice_index, Some};
ghost use Rattle.lufs_base.specs.Fields.{put_at};
ghost use Rattle.lufs_base.specs.declared.geometry.Geometry.{Geometry};
ghost use Rattle.volume_model.specs.declared.hand.Hand.{Hand};
ghost use Rattle.volume_model.specs.Format.{Image, block};
ghost use Rattle.volume_model.specs.Sound.{UsedInode, reading_of, is_claimed, held_blocks, is_among, FileNode, File};
ghost use Rattle.volume_laws.specs.Changes.{with_block};
ghost use Rattle.change_laws.specs.Plans.{HasInode};
ghost use Rattle.meta_store.specs.declared.change.Change.{Change};
ghost use Rattle.meta_store.specs.declared.change.RawWrite.{RawWrite};
ghost use Rattle.meta_store.specs.Conditions.{IsInBlock};
ghost use Rattle.meta_draft.specs.Drafted.{drafted_blocks, with_raw};
ghost use Rattle.draft_laws.specs.Drafts.{IsDraft, Draws};
ghost use Rattle.draft_laws.specs.Freeing.{KeepsTree};

/// One raw write more, in a block of a hand that wasn't claimed before, or in a block of a file: the bytes stand there.
pub fn raw_written()
    ensures kept { (g : Geometry) (base : Image) (taken : ℕ → Bool) (change : Change) (hands : List Hand) (w : RawWrite) → IsDraft g base taken change hands → IsInBlock g w
        → is_among (w.first / 8) (held_blocks hands) ≡ true → is_claimed (reading_of g (block base)) (w.first / 8) ≡ false → KeepsTree g base taken change (with_raw change w) hands }
    ensures bytes { (g : Geometry) (base : Image) (taken : ℕ → Bool) (change : Change) (hands : List Hand) (w : RawWrite) → IsDraft g base taken change hands → IsInBlock g w
        → is_among (w.first / 8) (held_blocks hands) ≡ true → is_claimed (reading_of g (block base)) (w.first / 8) ≡ false
        → drafted_blocks (with_raw change w) base (w.first / 8) ≡ put_at (drafted_blocks change base (w.first / 8)) (512 * (w.first % 8)) w.bytes }
    ensures file { (g : Geometry) (base : Image) (taken : ℕ → Bool) (change : Change) (hands : List Hand) (w : RawWrite) (i k : ℕ) (u : UsedInode) (file : FileNode) → IsDraft g base taken change hands
        → IsInBlock g w → HasInode g (drafted_blocks change base) hands i u (File file) → slice_index u.numbers k ≡ w.first / 8 → (w.first / 8 == 0) ≡ false
        → Draws g base taken change (with_raw change w) i
        (Some (File (with_block file k (Some (take 4096 (put_at (drafted_blocks change base (w.first / 8)) (512 * (w.first % 8)) w.bytes)))))) (Some u.inode.links) hands }
{}
