//! Small volumes, made by the numbers in them, and what is left of a draft over one.
ghost use Rattle.std.specs.Prelude.{◌≡◌, length, IfOk};

use cyl_groups::Group;
use lufs_base::{DeltaKind, DiskFault, Geometry, Ino, Mem};
use meta_draft::Draft;
use meta_store::{LaidDeltas, MetaRead, ReplayedDisk, StoreError};
use sector_disk::{Disk, Fail, MemDisk};
use std::alloc::Global;
use volume_model::{Dinode, TxList};

/// A volume of 99 blocks: group block 35, inode block 36, and body blocks from 37 on.
pub(crate) const SMALLEST: Geometry = Geometry {
    version: 1,
    groups: 1,
    bpg: 64,
    ipg: 32,
    log: 256,
};

/// Numbers of 32 bits that stand in a block, from one place on: the block, which of its numbers the first of
/// them is, and the numbers. The record of inode i begins with number 32 * i of the inode block.
pub(crate) type Words<'a> = (u32, u32, &'a [u32]);

/// A group of 32 inodes and 64 blocks: its number, the inodes and blocks that are free, the bits of its first 8 inodes,
/// and those of its first 16 blocks. The others are free.
pub(crate) type Bits = (u32, u32, u32, u8, [u8; 2]);

/// Puts the numbers into the image, as far as it goes.
fn put(image: &mut [u8], words: &Words) {
    let (block, first, numbers) = *words;
    let mut at = 4096 * block as usize + 4 * first as usize;
    for number in numbers {
        for byte in number.to_be_bytes() {
            if let Some(place) = image.get_mut(at) {
                *place = byte;
            }
            at = at.saturating_add(1);
        }
    }
}

/// The volume in which these numbers stand, and zeros.
pub(crate) fn image_of(alloc: Global, made: &[Words]) -> Result<Vec<u8>, Mem>
    ensures { IfOk result (λ image. length image.items ≡ 405504) }
{
    let mut image = vec![in alloc; 0u8; 405_504]?;
    for words in made {
        put(&mut image, words);
    }
    if image.len() != 405_504 {
        return Err(Mem);
    }
    Ok(image)
}

/// The same volume on a disk that fails at this read, the first being 1.
pub(crate) fn failing(
    alloc: Global,
    made: &[Words],
    read: u64,
) -> Result<ReplayedDisk<MemDisk>, StoreError> {
    let fails = Vec::from_slice(alloc, &[Fail::Read(read)])?;
    let disk = MemDisk::new(image_of(alloc, made)?, fails);
    let laid = LaidDeltas::new(alloc, &TxList::new(alloc))?;
    if disk.sectors() < 792 {
        return Err(StoreError::Mem);
    }
    Ok(ReplayedDisk::over(disk, &SMALLEST, laid))
}

pub(crate) fn group_of(bits: &Bits) -> Group {
    let (number, free_inodes, free_blocks, inodes, [first, second]) = *bits;
    let mut inode_bits = [0; 128];
    inode_bits[0] = inodes;
    let mut block_bits = [0; 256];
    block_bits[0] = first;
    block_bits[1] = second;
    Group {
        number,
        free_inodes,
        free_blocks,
        ipg: 32,
        bpg: 64,
        inode_bits,
        block_bits,
    }
}

/// Reads an inode, if the volume has it.
pub(crate) fn inode<S: MetaRead>(
    draft: &Draft,
    store: &mut S,
    i: u32,
) -> Result<Option<Dinode>, DiskFault> {
    let g = *store.geometry();
    if i >= g.groups * g.ipg {
        return Ok(None);
    }
    draft.inode(store, Ino(i))
}

/// Whether the volume has just this group.
pub(crate) fn has_group<S: MetaRead>(
    draft: &Draft,
    store: &mut S,
    bits: &Bits,
) -> Result<bool, DiskFault> {
    if bits.0 >= store.geometry().groups {
        return Ok(false);
    }
    Ok(draft.group(store, bits.0)? == Some(group_of(bits)))
}

/// Whether the draft has just these deltas, told by kind, home and length.
pub(crate) fn has_deltas(draft: &Draft, deltas: &[(DeltaKind, u64, u32)]) -> bool {
    let list = draft.change.deltas.as_slice();
    list.len() == deltas.len()
        && list
            .iter()
            .zip(deltas)
            .all(|(d, other)| (d.kind, d.home, d.len) == *other)
}

/// Whether the draft frees just these blocks, each told with whether it held metadata.
pub(crate) fn has_freed(draft: &Draft, blocks: &[(u32, bool)]) -> bool {
    let list = draft.change.freed.as_slice();
    list.len() == blocks.len()
        && list
            .iter()
            .zip(blocks)
            .all(|(freed, other)| (freed.block.0, freed.meta) == *other)
}
