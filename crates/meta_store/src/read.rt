//! Reading the blocks of a volume.
ghost use Rattle.std.specs.Prelude.{◌≡◌, ◌≤◌, ◌<◌, ◌+◌, ◌*◌, length, IfSome, OnOk};
ghost use Rattle.lufs_base.specs.Layout.{IsGeometry, blocks_of};
ghost use Rattle.volume_model.specs.Format.{sectors_of};
ghost use Rattle.sector_disk.specs.Disk.{CountsFailure};
ghost use Rattle.meta_store.specs.Store.{StoreTold, IsBlockRead, AreBlocks, AreBlocksRead, IsUnchanged};
ghost use Rattle.meta_store.specs.Changing.{Changing, IsKept};

use lufs_base::{BlockNo, DiskFault, Geometry};

/// The blocks of a volume, as far as they are read (`docs/DEFINITIONS.md`, "What a store tells").
pub trait MetaRead: Drop {
    /// What it tells of itself: its geometry always, what its blocks hold as it likes.
    ghost store: { Self → StoreTold };

    /// What it tells besides, if it takes changes.
    ghost changing: { Self → Changing };

    /// The geometry of the volume. No call changes it.
    fn geometry(&self) -> &Geometry
        ensures value { result.now ≡ (store self.now).geometry }
        ensures in_range { IsGeometry (store self.now).geometry };

    /// How many faults the disk under it met; 0 where it has none.
    fn faults(&self) -> u64
        ensures { result ≡ (store self.now).disk.faults };

    /// Reads block `b`, 4,096 bytes. After an `Err` `out` holds anything.
    fn block(&mut self, b: BlockNo, out: &mut [u8]) -> Result<(), DiskFault>
        requires inside { b.0 < blocks_of (store self.old).geometry }
        requires size { length out.old ≡ 4096 }
        ensures bytes { OnOk result (IsBlockRead b.0 out.new (store self.old)) }
        ensures unchanged { IsUnchanged (store self.old) (store self.new) }
        ensures kept { IsKept (changing self.old) (changing self.new) }
        ensures failure { CountsFailure result (store self.old).disk (store self.new).disk };

    /// Reads the blocks from block `first` on, one or more of 4,096 bytes each, at once. After an `Err` `out` holds anything.
    fn blocks(&mut self, first: BlockNo, out: &mut [u8]) -> Result<(), DiskFault>
        requires whole { AreBlocks (length out.old) }
        requires inside { 4096 * first.0 + length out.old ≤ 4096 * blocks_of (store self.old).geometry }
        ensures bytes { OnOk result (AreBlocksRead first.0 out.new (store self.old)) }
        ensures unchanged { IsUnchanged (store self.old) (store self.new) }
        ensures kept { IsKept (changing self.old) (changing self.new) }
        ensures failure { CountsFailure result (store self.old).disk (store self.new).disk };

    /// The content that is told has the blocks of the volume.
    ghost size: { (s : Self) → IfSome (store s).content (λ image. 8 * blocks_of (store s).geometry ≤ sectors_of image) };
}
