//! A session is crash safe from its mount's first call on.
ghost use Rattle.std.specs.Prelude.{◌≡◌, ◌≤◌, ◌⊎◌, ℕ, true, false, List, length};
ghost use Rattle.lufs_base.specs.Layout.{IsGeometry};
ghost use Rattle.lufs_base.specs.declared.geometry.Geometry.{Geometry};
ghost use Rattle.volume_model.specs.declared.hand.Hand.{Hand};
ghost use Rattle.volume_model.specs.Format.{Image, Blocks, block};
ghost use Rattle.volume_model.specs.Crash.{Record, Outcome, present_of};
ghost use Rattle.volume_model.specs.Sound.{reading_of, Sound, Tree};
ghost use Rattle.history_model.specs.Histories.{Legal};
ghost use Rattle.history_model.specs.CrashSafety.{CrashSafe};
ghost use Rattle.journal_model.specs.Journals.{Owner, Live};
ghost use Rattle.journal_model.specs.BlockRoles.{Role, is_claimed};
ghost use Rattle.journal_model.specs.Batches.{is_freed_owner};
ghost use Rattle.journal_model.specs.Safety.{MayBegin};
ghost use Rattle.journal_model.specs.Mount.{Found, Stage, Mounted};
ghost use Rattle.history_laws.specs.Published.{AreRolesOf};
ghost use Rattle.history_laws.specs.VolumeRoles.{role_of};
ghost use Rattle.history_laws.specs.Volumes.{Volume, KeepsHistory};
ghost use Rattle.history_laws.specs.VolumeSteps.{VolumeStep};
ghost use Rattle.history_laws.specs.Sessions.{MayBeMounted, Mounts, no_history, opened_volume, Session, MountsAgain};

/// Each moment of a mount is crash safe: whatever a crash leaves mounts as the opening tree, with the bytes of its files.
pub fn mounts_are_crash_safe()
    ensures { (g : Geometry) (moment : ℕ) (opening : Tree) (found : Found) (start r : Record) (stage : Stage) → MayBeMounted g found start opening
        → Mounts g found start r stage → CrashSafe g moment opening no_history r (length start.calls) (length r.calls) }
{}

/// The volume that a mount opens keeps its history, which has no entry yet.
pub fn opened_volumes_keep()
    ensures { (g : Geometry) (moment : ℕ) (opening : Tree) (found : Found) (start : Record) (role : ℕ → Role) (owners : ℕ → Owner) (r : Record)
        → MayBeMounted g found start opening → Mounts g found start r Mounted → MayBegin g role owners → AreRolesOf g role (reading_of g (block (present_of r)))
        → KeepsHistory g moment opening (length start.calls) (opened_volume found role owners r) }
{}

/// Each volume that a session comes to keeps its history, since each step leaves one that does.
pub fn sessions_keep()
    ensures step { (g : Geometry) (moment : ℕ) (opening : Tree) (first : ℕ) (v w : Volume) → KeepsHistory g moment opening first v
        → VolumeStep g moment opening v w → KeepsHistory g moment opening first w }
    ensures session { (g : Geometry) (moment : ℕ) (opening : Tree) (start : Record) (v : Volume) → Session g moment opening start v
        → KeepsHistory g moment opening (length start.calls) v }
{}

/// **A session is crash safe at each moment, from its mount's first call on, and its history is legal.** Whatever a crash leaves
/// mounts as the tree of the entries up to a boundary. Each synchronous entry that was told by then is among them, and the bytes
/// that are settled stand.
pub fn sessions_are_crash_safe()
    ensures moments { (g : Geometry) (moment : ℕ) (opening : Tree) (start : Record) (v : Volume) → Session g moment opening start v
        → CrashSafe g moment opening v.h v.r (length start.calls) (length v.r.calls) }
    ensures legal { (g : Geometry) (moment : ℕ) (opening : Tree) (start : Record) (v : Volume) → Session g moment opening start v
        → Legal g moment opening v.h.entries }
{}

/// Whatever a crash of a session leaves may be mounted again, unless its epoch is the last one, and a session goes on from there.
pub fn crashes_are_mounted_again()
    ensures { (g : Geometry) (moment : ℕ) (opening : Tree) (start : Record) (v : Volume) (n : ℕ) (image : Image) → Session g moment opening start v
        → length start.calls ≤ n → n ≤ length v.r.calls → Outcome v.r n image → MountsAgain g moment opening v.h n image }
{}

/// A call of a step that fails is listed, or not. Either is what a session comes to, so that all this is said of a failure, too.
pub fn failed_calls_of_sessions()
    ensures { (g : Geometry) (moment : ℕ) (opening : Tree) (start after : Record) (v w : Volume) → Session g moment opening start v
        → VolumeStep g moment opening v w → (after ≡ v.r) ⊎ (after ≡ w.r) → (u : Volume) × (u.r ≡ after) × Session g moment opening start u }
{}

/// A sound volume gives its blocks roles. With these, and with owners that call just the claimed blocks live and none freed, a
/// volume may be opened.
pub fn volumes_have_roles()
    ensures roles { (g : Geometry) (blocks : Blocks) (hands : List Hand) → IsGeometry g → Sound g blocks hands
        → AreRolesOf g (role_of g (reading_of g blocks)) (reading_of g blocks) }
    ensures owners { (g : Geometry) (blocks : Blocks) (hands : List Hand) (owners : ℕ → Owner) → IsGeometry g → Sound g blocks hands
        → ((b : ℕ) → is_claimed (role_of g (reading_of g blocks) b) ≡ true → owners b ≡ Live)
        → ((b : ℕ) → is_claimed (role_of g (reading_of g blocks) b) ≡ false → is_freed_owner (owners b) ≡ false) → MayBegin g (role_of g (reading_of g blocks)) owners }
{}

/// A disk that may be mounted has a session: a mount of it comes to its end and opens a volume.
pub fn sessions_begin()
    ensures { (g : Geometry) (moment : ℕ) (opening : Tree) (found : Found) (start : Record) → MayBeMounted g found start opening
        → (v : Volume) × Session g moment opening start v }
{}
