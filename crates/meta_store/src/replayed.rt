//! A store of a disk with its log laid over, which takes no change.
ghost use Rattle.std.specs.Prelude.{◌≡◌, ◌≤◌, ◌<◌, ◌+◌, ◌*◌, ◌/◌, ◌^◌, length, OnOk, IfSome};
ghost use Rattle.lufs_base.specs.Layout.{IsGeometry, blocks_of};
ghost use Rattle.volume_model.specs.Format.{sectors_from};
ghost use Rattle.sector_disk.specs.Disk.{IsUnwritten, CountsFailure};
ghost use Rattle.meta_store.specs.Index.{AreLaid};
ghost use Rattle.meta_store.specs.Store.{AreBlocks};

use crate::lay::lay;
use crate::{LaidDeltas, MetaRead};
use lufs_base::{BLOCK, BlockNo, DiskFault, Geometry};
use sector_disk::Disk;

// A disk that has the blocks of a volume.
#[derive(Drop)]
struct VolumeDisk<D: Disk> {
    geometry: Geometry,
    disk: D,
    ghost in_range: { IsGeometry geometry },
    ghost whole: { 8 * blocks_of geometry ≤ (D.told disk).sectors },
}

impl<D: Disk> VolumeDisk<D> {
    // Reads the blocks from block `first` on as they stand on the disk.
    fn read(&mut self, first: BlockNo, out: &mut [u8]) -> Result<(), DiskFault>
        requires whole { AreBlocks (length out.old) }
        requires inside { 4096 * first.0 + length out.old ≤ 4096 * blocks_of self.old.geometry }
        ensures bytes { OnOk result (IfSome (D.told self.old.disk).present (λ image. out.new ≡ sectors_from image (8 * first.0) (length out.new / 512))) }
        ensures geometry { self.new.geometry ≡ self.old.geometry }
        ensures unwritten { IsUnwritten (D.told self.old.disk) (D.told self.new.disk) }
        ensures failure { CountsFailure result (D.told self.old.disk) (D.told self.new.disk) }
    {
        self.disk.read(8 * u64::from(first.0), out)
    }
}

// Lays what there is for each of these blocks over them, from block `first` on.
fn lay_over(laid: &LaidDeltas, first: BlockNo, blocks: &mut [u8])
    requires whole { AreBlocks (length blocks.old) }
    requires fits { first.0 + length blocks.old / 4096 < 2 ^ 32 }
    ensures { AreLaid laid.now first.0 blocks.old blocks.new }
{
    for k in 0..blocks.len() / BLOCK {
        let at = BLOCK * k;
        let deltas = laid.of_block(BlockNo(first.0 + k as u32));
        lay(deltas, &mut blocks[at..at + BLOCK]);
    }
}

/// The disk of a volume with deltas of its log laid over. It reads a block when it is asked for it, and
/// writes nothing.
#[derive(Drop)]
pub struct ReplayedDisk<D: Disk> {
    volume: VolumeDisk<D>,
    laid: LaidDeltas,
}

impl<D: Disk> ReplayedDisk<D> {
    ghost use Rattle.std.specs.Prelude.{◌≡◌, ◌≤◌, ◌*◌};
    ghost use Rattle.lufs_base.specs.Layout.{IsGeometry, blocks_of};
    ghost use Rattle.meta_store.specs.Index.{replayed_told};

    /// The disk, which has the volume's blocks, with these deltas laid over.
    pub fn over(disk: D, g: &Geometry, laid: LaidDeltas) -> Self
        requires geometry { IsGeometry g.now }
        requires blocks { 8 * blocks_of g.now ≤ (D.told disk).sectors }
        ensures { ⟦<ReplayedDisk<D> as MetaRead>⟧.store result ≡ replayed_told g.now laid (D.told disk) }
    {
        ReplayedDisk {
            volume: VolumeDisk { geometry: *g, disk },
            laid,
        }
    }

    /// The disk as it is.
    pub fn into_disk(self) -> D
        ensures { D.told result ≡ (⟦<ReplayedDisk<D> as MetaRead>⟧.store self).disk }
    {
        self.volume.disk
    }
}

impl<D: Disk> MetaRead for ReplayedDisk<D> {
    ghost use Rattle.std.specs.Prelude.{◌*◌};
    ghost use Rattle.lufs_base.specs.Layout.{blocks_of};
    ghost use Rattle.meta_store.specs.Index.{deltas_of, replayed_told};
    ghost use Rattle.meta_store.specs.LaidSize.{laid_size};
    ghost use Rattle.meta_store.specs.Changing.{no_changes};

    ghost store = { λ s. replayed_told s.volume.geometry s.laid (D.told s.volume.disk) };

    ghost changing = { λ s. no_changes };

    fn geometry(&self) -> &Geometry {
        &self.volume.geometry
    }

    fn faults(&self) -> u64 {
        self.volume.disk.faults()
    }

    fn block(&mut self, b: BlockNo, out: &mut [u8]) -> Result<(), DiskFault> {
        self.blocks(b, out)
    }

    fn blocks(&mut self, first: BlockNo, out: &mut [u8]) -> Result<(), DiskFault> {
        self.volume.read(first, out)?;
        lay_over(&self.laid, first, out);
        Ok(())
    }

    ghost size = { λ s. laid_size (deltas_of s.laid) (D.told s.volume.disk).present (D.told s.volume.disk).sectors (8 * blocks_of s.volume.geometry) (D.size s.volume.disk) s.volume.whole };
}
