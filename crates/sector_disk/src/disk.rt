//! The trait of a disk: what each of its calls may do.
ghost use Rattle.std.specs.Prelude.{◌≡◌, ◌≤◌, ◌+◌, ◌*◌, ◌∷◌, [], length, IfSome, IsSome, OnOk, OnErr, ◌⊎◌};
ghost use Rattle.volume_model.specs.Format.{sectors_of};
ghost use Rattle.volume_model.specs.declared.device_call.DeviceCall.TheVariants.{Write, Flush};
ghost use Rattle.sector_disk.specs.Disk.{DiskTold, IsWhole, IsRead, IsUnwritten, HasMade, HasMadePartly, CountsFailure, IsTold, IsOfItsSectors};

use lufs_base::DiskFault;

/// A disk of sectors of 512 bytes, which keeps each sector whole (`docs/DEFINITIONS.md`, "What a disk
/// tells").
pub trait Disk: Drop {
    /// What the disk tells of itself. It always tells its counts, and may leave out what it holds and which calls
    /// changed it.
    ghost told: { Self → DiskTold };

    /// How many sectors it has. No call changes them.
    fn sectors(&self) -> u64
        ensures value { result ≡ (told self.now).sectors }
        ensures content { IsOfItsSectors (told self.now) };

    /// How many writes and flushes were made. If the disk tells them and its content, the two agree.
    fn calls(&self) -> u64
        ensures value { result ≡ (told self.now).calls }
        ensures content { IsTold (told self.now) };

    /// How many faults it met.
    fn faults(&self) -> u64
        ensures { result ≡ (told self.now).faults };

    /// Reads whole sectors, from sector `first` on. After an `Err` `out` holds anything.
    fn read(&mut self, first: u64, out: &mut [u8]) -> Result<(), DiskFault>
        requires whole { IsWhole (length out.old) }
        requires inside { 512 * first + length out.old ≤ 512 * (told self.old).sectors }
        ensures bytes { OnOk result (IsRead first out.new (told self.old)) }
        ensures unwritten { IsUnwritten (told self.old) (told self.new) }
        ensures failure { CountsFailure result (told self.old) (told self.new) };

    /// Writes whole sectors, from sector `first` on. Of a write that fails either nothing was written, or it is
    /// listed and each of its sectors is old or new.
    fn write(&mut self, first: u64, bytes: &[u8]) -> Result<(), DiskFault>
        requires whole { IsWhole (length bytes.now) }
        requires inside { 512 * first + length bytes.now ≤ 512 * (told self.old).sectors }
        ensures ok { OnOk result (HasMade (Write first bytes.now ∷ []) (told self.old) (told self.new)) }
        ensures err { OnErr result (HasMadePartly first bytes.now (told self.old) (told self.new) ⊎ IsUnwritten (told self.old) (told self.new)) }
        ensures failure { CountsFailure result (told self.old) (told self.new) };

    /// Makes a crash keep what was written before. A flush that fails isn't listed.
    fn flush(&mut self) -> Result<(), DiskFault>
        ensures ok { OnOk result (HasMade (Flush ∷ []) (told self.old) (told self.new)) }
        ensures err { OnErr result (IsUnwritten (told self.old) (told self.new)) }
        ensures failure { CountsFailure result (told self.old) (told self.new) };

    /// The content that is told has as many sectors as the disk.
    ghost size: { (d : Self) → IfSome (told d).present (λ image. sectors_of image ≡ (told d).sectors) };

    /// A disk that tells its calls tells their number, and what it holds.
    ghost counted: { (d : Self) → IfSome (told d).listed (λ r. ((told d).calls ≡ length r.calls) × IsSome (told d).present) };
}
