//! What a crash may leave while a volume is made, and what a new volume stands for.
ghost use Rattle.std.specs.Prelude.{◌≡◌, ◌≤◌, ◌<◌, ◌*◌, ◌%◌, ◌^◌, ℕ, length, take, [], Some};
ghost use Rattle.lufs_base.specs.Layout.{IsGeometry, blocks_of};
ghost use Rattle.lufs_base.specs.declared.geometry.Geometry.{Geometry};
ghost use Rattle.volume_model.specs.Format.{Image, block};
ghost use Rattle.volume_model.specs.MkfsImage.{IsMkfsImage};
ghost use Rattle.volume_model.specs.Texts.{free_blocks, verdict_text, check_text_of};
ghost use Rattle.volume_model.specs.declared.finding.Verdict.TheVariants.{Clean};
ghost use Rattle.volume_model.specs.Sound.{StandsFor, Opens};
ghost use Rattle.volume_model.specs.Crash.{Outcome};
ghost use Rattle.new_volume.specs.Mkfs.{mkfs_calls};
ghost use Rattle.new_volume.specs.MkfsCrash.{IsMkfsOutcome};
ghost use Rattle.new_volume.specs.NewVolume.{new_tree};

/// What a crash may leave after any number of the disk calls of [`mkfs`](crate::mkfs): the disk as it was, or no
/// volume, or a volume of this geometry. That volume opens, and its log recovers the content that `mkfs` makes.
pub fn mkfs_outcomes()
    ensures { (g : Geometry) (moment : ℕ) (before : Image) (k n : ℕ) (image : Image) → IsGeometry g → moment < 2 ^ 64 → length before % 512 ≡ 0 → 4096 * blocks_of g ≤ length before → n ≤ k
        → Outcome (record { opening = before; calls = take k (mkfs_calls g moment) }) n image → IsMkfsOutcome g moment before image }
{}

/// A volume that [`mkfs`](crate::mkfs) made is sound, stands for the tree that has the root alone, and opens.
pub fn new_volumes()
    ensures tree { (g : Geometry) (moment : ℕ) (old new : Image) → IsGeometry g → moment < 2 ^ 64
        → IsMkfsImage g moment old new → StandsFor g (block new) (new_tree moment) [] }
    ensures opens { (g : Geometry) (moment : ℕ) (old new : Image) → IsGeometry g → moment < 2 ^ 64 → 4096 * blocks_of g ≤ length old
        → IsMkfsImage g moment old new → Opens new }
    // What a check of it answers: it is clean, and all body blocks but the root's are free.
    ensures check { (g : Geometry) (moment : ℕ) (old new : Image) → IsGeometry g → moment < 2 ^ 64 → 4096 * blocks_of g ≤ length old
        → IsMkfsImage g moment old new → check_text_of new ≡ Some (verdict_text (Clean (record { inodes = 1; blocks = 1; free = free_blocks g }))) }
{}
