//! How many inodes and blocks of a store are free.
ghost use Rattle.std.specs.Prelude.{IfSome, IfOk};
ghost use Rattle.lufs_base.specs.Layout.{IsGeometry};
ghost use Rattle.volume_model.specs.Format.{block};
ghost use Rattle.volume_model.specs.Sound.{Tree, StandsFor};
ghost use Rattle.sector_disk.specs.Disk.{CountsFailure};
ghost use Rattle.meta_store.specs.Changing.{IsAsBefore, all_told};
ghost use Rattle.block_alloc.specs.Records.{AreClear};
ghost use Rattle.block_alloc.specs.Taking.{AreFree};

use crate::Hands;
use crate::held::{count_blocks, count_inodes, sum_of};
use crate::records::{count_clear_blocks, count_clear_inodes, group_record};
use lufs_base::DiskFault;
use meta_store::MetaRead;

// How many bits of inodes and of blocks are clear.
fn count_clear_bits<S: MetaRead>(store: &mut S) -> Result<(u32, u32), DiskFault>
    ensures clear { IfSome (S.store store.old).content (λ image. IfOk result (λ clear. AreClear (S.store store.old).geometry (block image) clear.0 clear.1)) }
    ensures geometry { IsGeometry (S.store store.old).geometry }
    ensures same { IsAsBefore (all_told (S.store store.old) (S.changing store.old)) (all_told (S.store store.new) (S.changing store.new)) }
    ensures failure { CountsFailure result (S.store store.old).disk (S.store store.new).disk }
{
    let g = *store.geometry();
    let mut inodes = 0;
    let mut blocks = 0;
    for n in 0..g.groups {
        let found = group_record(store, n)?;
        inodes += count_clear_inodes(&g, &found);
        blocks += count_clear_blocks(&g, &found);
    }
    Ok((inodes, blocks))
}

/// How many inodes and how many blocks are free, those in hand among them. Blocks that were freed count, also
/// where they may not be given out yet.
pub fn count_free<S: MetaRead>(store: &mut S, held: &Hands) -> Result<(u32, u32), DiskFault>
    ensures free { (tree : Tree) → IfSome (S.store store.old).content (λ image. StandsFor (S.store store.old).geometry (block image) tree held.now
        → IfOk result (λ free. AreFree (S.store store.old).geometry tree free.0 free.1)) }
    ensures same { IsAsBefore (all_told (S.store store.old) (S.changing store.old)) (all_told (S.store store.new) (S.changing store.new)) }
    ensures failure { CountsFailure result (S.store store.old).disk (S.store store.new).disk }
{
    let (inodes, blocks) = count_clear_bits(store)?;
    let hands = held.as_slice();
    Ok((
        sum_of(inodes, count_inodes(hands)),
        sum_of(blocks, count_blocks(hands)),
    ))
}
