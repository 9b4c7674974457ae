//! Where calls may write bytes of files in place.
ghost use Rattle.std.specs.Prelude.{◌≡◌, ◌<◌, ◌⊎◌, ℕ, ◌+◌, ◌*◌, false, List, length, Some};
ghost use Rattle.lufs_base.specs.declared.geometry.Geometry.{Geometry};
ghost use Rattle.volume_model.specs.Crash.{present_of};
ghost use Rattle.volume_model.specs.Sound.{Tree};
ghost use Rattle.journal_model.specs.Versions.{Running};
ghost use Rattle.journal_model.specs.BlockRoles.{is_claimed};
ghost use Rattle.journal_model.specs.Batches.{is_freed_owner};
ghost use Rattle.history_laws.specs.Named.{named_block, byte_in};
ghost use Rattle.history_laws.specs.RawWrites.{given_to, IsTouchedSince, WritesTouched, LiesInBlock};
ghost use Rattle.history_laws.specs.Volumes.{Volume, readings_of, KeepsHistory};

/// What `raw_writes_keep` asks of a write holds of these.
pub fn writes_in_place()
    // Any bytes may be written in a block of a hand: one that isn't claimed and that nothing freed.
    ensures hands { (g : Geometry) (moment : ℕ) (opening : Tree) (first : ℕ) (v : Volume) (start : ℕ) (bytes : List ℕ) (b : ℕ) → LiesInBlock start bytes b
        → is_claimed (v.roles Running b) ≡ false → is_freed_owner (v.j.owners b) ≡ false → KeepsHistory g moment opening first v
        → WritesTouched g moment opening v.h.entries v.r (v.held Running) (readings_of g v) start bytes }
    // In a block that a file has at an index, bytes may be written that are there, or that an entry under way touches.
    ensures files { (g : Geometry) (moment : ℕ) (opening : Tree) (first : ℕ) (v : Volume) (start : ℕ) (bytes : List ℕ) (b ino index : ℕ) → LiesInBlock start bytes b
        → named_block (readings_of g v Running) ino index ≡ Some b
        → ((q value : ℕ) → q < 4096 → given_to start bytes (4096 * b + q) ≡ Some value
        → (value ≡ byte_in (present_of v.r) b (4096 * index + q)) ⊎ IsTouchedSince g moment opening v.h.entries (v.held Running) (length v.r.calls) ino (4096 * index + q))
        → KeepsHistory g moment opening first v → WritesTouched g moment opening v.h.entries v.r (v.held Running) (readings_of g v) start bytes }
{}
