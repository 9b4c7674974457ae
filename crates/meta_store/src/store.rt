//! A store of the blocks of a volume that takes changes.
ghost use Rattle.std.specs.Prelude.{◌≡◌, ◌<◌, ◌*◌, ◌∷◌, [], length, OnOk, OnErr, Err};
ghost use Rattle.lufs_base.specs.Layout.{blocks_of};
ghost use Rattle.volume_model.specs.declared.device_call.DeviceCall.TheVariants.{Write};
ghost use Rattle.volume_model.specs.Log.{AreLoggable};
ghost use Rattle.sector_disk.specs.Disk.{CountsFailure, FailsJustAt};
ghost use Rattle.meta_store.specs.declared.error.StoreError.TheVariants.{Disk, Mem as no_memory};
ghost use Rattle.meta_store.specs.Changing.{IsAsBefore, all_told};
ghost use Rattle.meta_store.specs.Changes.{Applies, Fills, Amends, HasWrittenPartly, writes_of};
ghost use Rattle.meta_store.specs.Conditions.{MayApply, MayFill, MayAmend};

use crate::{Change, MetaRead, StoreError};
use lufs_base::{BlockNo, DiskFault};
use std::alloc::Global;

/// A volume whose metadata changes (`docs/DEFINITIONS.md`, "What a changing store tells").
pub trait MetaStore: MetaRead {
    /// Whether `b` is a body block that may be given out now.
    fn is_released(&self, b: BlockNo) -> bool
        requires inside { b.0 < blocks_of (Self.store self.now).geometry }
        ensures { result ≡ (Self.changing self.now).is_released b.0 };

    /// Makes the raw writes of a change, and then its deltas count. `Mem` leaves the store as it was. After
    /// `Disk` each sector of the raw writes is old or new, and nothing else changed.
    fn apply(&mut self, alloc: Global, change: &Change) -> Result<(), StoreError>
        requires may { MayApply change.now (all_told (Self.store self.old) (Self.changing self.old)) }
        ensures ok { OnOk result (Applies change.now (all_told (Self.store self.old) (Self.changing self.old)) (all_told (Self.store self.new) (Self.changing self.new))) }
        ensures no_memory { result ≡ Err no_memory → IsAsBefore (all_told (Self.store self.old) (Self.changing self.old)) (all_told (Self.store self.new) (Self.changing self.new)) }
        ensures partly { result ≡ Err Disk → HasWrittenPartly (writes_of change.now.raw) (all_told (Self.store self.old) (Self.changing self.old)) (all_told (Self.store self.new) (Self.changing self.new)) }
        ensures failure { FailsJustAt (result ≡ Err Disk) (Self.store self.old).disk (Self.store self.new).disk };

    /// Writes the whole of a block that is in a hand. After an `Err` each of its sectors is old or new, and
    /// nothing else changed.
    fn fill(&mut self, b: BlockNo, bytes: &[u8]) -> Result<(), DiskFault>
        requires size { length bytes.now ≡ 4096 }
        requires may { MayFill b.0 (all_told (Self.store self.old) (Self.changing self.old)) }
        ensures ok { OnOk result (Fills b.0 bytes.now (all_told (Self.store self.old) (Self.changing self.old)) (all_told (Self.store self.new) (Self.changing self.new))) }
        ensures err { OnErr result (HasWrittenPartly (Write (8 * b.0) bytes.now ∷ []) (all_told (Self.store self.old) (Self.changing self.old)) (all_told (Self.store self.new) (Self.changing self.new))) }
        ensures failure { CountsFailure result (Self.store self.old).disk (Self.store self.new).disk };

    /// Puts the bytes in the place of a group record that the running transaction holds, by which these
    /// blocks, which it took, are given back.
    fn amend(&mut self, home: u64, bytes: &[u8], returned: &[BlockNo])
        requires may { MayAmend home bytes.now returned.now (all_told (Self.store self.old) (Self.changing self.old)) }
        ensures { Amends home bytes.now returned.now (all_told (Self.store self.old) (Self.changing self.old)) (all_told (Self.store self.new) (Self.changing self.new)) };

    /// The deltas that are held may be those of one transaction.
    ghost loggable: { (s : Self) → AreLoggable (Self.store s).geometry (Self.changing s).held };
}
