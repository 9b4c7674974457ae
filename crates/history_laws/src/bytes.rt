//! The bytes of files that the versions of a volume keep.
ghost use Rattle.std.specs.Prelude.{◌≤◌, ◌⊎◌, ℕ, List, [], ◌∷◌, length};
ghost use Rattle.lufs_base.specs.declared.geometry.Geometry.{Geometry};
ghost use Rattle.tree_types.specs.declared.history.Entry.{Entry};
ghost use Rattle.volume_model.specs.declared.device_call.DeviceCall.TheVariants.{Write, Flush};
ghost use Rattle.volume_model.specs.Crash.{Record, with_calls, IsInside, IsOfSectors};
ghost use Rattle.volume_model.specs.Sound.{Reading, Tree};
ghost use Rattle.journal_model.specs.Versions.{Version, Published, Sealed, Running};
ghost use Rattle.journal_model.specs.BlockRoles.{Seals, Publishes, moved_from};
ghost use Rattle.history_laws.specs.KeptBytes.{AreBytesKept, AreToldPublished, BeganBefore, IsCrashKept};
ghost use Rattle.history_laws.specs.RawWrites.{WritesTouched};

/// A crash now leaves the settled bytes of the published version in their blocks. It leaves those of the sealed version, too,
/// once each entry of it began before now.
pub fn settled_now()
    ensures published { (g : Geometry) (moment : ℕ) (opening : Tree) (entries : List Entry) (r : Record) (readings : Version → Reading) (held : Version → ℕ)
        → AreBytesKept g moment opening entries r readings held → AreToldPublished entries (held Published)
        → IsCrashKept g moment opening entries r (length r.calls) (held Published) (readings Published) }
    ensures sealed { (g : Geometry) (moment : ℕ) (opening : Tree) (entries : List Entry) (r : Record) (readings : Version → Reading) (held : Version → ℕ)
        → AreBytesKept g moment opening entries r readings held → AreToldPublished entries (held Published)
        → (held Sealed ≤ held Published) ⊎ BeganBefore entries (held Sealed) (length r.calls)
        → IsCrashKept g moment opening entries r (length r.calls) (held Sealed) (readings Sealed) }
{}

/// Bytes stay kept at a seal, at a flush, and where the sealed version is published by one.
pub fn bytes_stay()
    ensures seal { (g : Geometry) (moment : ℕ) (opening : Tree) (entries : List Entry) (r : Record) (readings : Version → Reading) (held : Version → ℕ)
        → AreBytesKept g moment opening entries r readings held
        → AreBytesKept g moment opening entries r (λ v. readings (moved_from Seals v)) (λ v. held (moved_from Seals v)) }
    ensures flush { (g : Geometry) (moment : ℕ) (opening : Tree) (entries : List Entry) (r : Record) (readings : Version → Reading) (held : Version → ℕ) → IsOfSectors r
        → AreBytesKept g moment opening entries r readings held → AreBytesKept g moment opening entries (with_calls r (Flush ∷ [])) readings held }
    ensures publish { (g : Geometry) (moment : ℕ) (opening : Tree) (entries : List Entry) (r : Record) (readings : Version → Reading) (held : Version → ℕ) → IsOfSectors r
        → AreBytesKept g moment opening entries r readings held
        → AreBytesKept g moment opening entries (with_calls r (Flush ∷ [])) (λ v. readings (moved_from Publishes v)) (λ v. held (moved_from Publishes v)) }
{}

/// Bytes stay kept at a write that gives a named block only the bytes that are there, or bytes that an entry under way touches:
/// one that no version holds.
pub fn raw_writes()
    ensures { (g : Geometry) (moment : ℕ) (opening : Tree) (entries : List Entry) (r : Record) (first : ℕ) (bytes : List ℕ) (readings : Version → Reading) (held : Version → ℕ)
        → IsOfSectors r → IsInside (length r.opening) (Write first bytes) → AreBytesKept g moment opening entries r readings held
        → WritesTouched g moment opening entries r (held Running) readings first bytes
        → AreBytesKept g moment opening entries (with_calls r (Write first bytes ∷ [])) readings held }
{}
