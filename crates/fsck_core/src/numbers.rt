//! The block numbers of an inode with a pointer block, by index.
ghost use Rattle.std.specs.Prelude.{◌≡◌, ◌≢◌, ◌<◌, ◌≤◌, ◌-◌, ◌*◌, map, length, take, drop, replicate, slice_index, IfSome, IfOk};
ghost use Rattle.std.specs.List.{range_with_len};
ghost use Rattle.lufs_base.specs.Fields.{u32_at};
ghost use Rattle.lufs_base.specs.Layout.{blocks_of};
ghost use Rattle.volume_model.specs.Format.{block};
ghost use Rattle.volume_model.specs.Sound.{numbers_of};
ghost use Rattle.sector_disk.specs.Disk.{CountsFailure};
ghost use Rattle.meta_store.specs.Store.{IsUnchanged};
ghost use Rattle.fsck_core.specs.Claimed.{with_zeros};

use lufs_base::{BLOCK, BlockNo, DiskFault, are_zeros, get_u32};
use meta_store::MetaRead;
use volume_model::Dinode;

/// Numbers in the record of an inode.
const DIRECT: usize = 12;

/// Numbers of a pointer block.
const POINTERS: usize = 1024;

/// The numbers of an inode: the direct ones, and those of its pointer block.
pub(crate) const NUMBERS: usize = 1036;

// How many numbers of a pointer block are at indexes below the size.
fn pointers_below(size: u64) -> usize
    ensures { result ≤ 1024 }
{
    let blocks = size / BLOCK as u64 + 1;
    blocks.saturating_sub(DIRECT as u64).min(POINTERS as u64) as usize
}

// How many numbers of a pointer block there are to look at. All after them are 0.
fn pointers_held(size: u64, bytes: &[u8]) -> usize
    requires { length bytes.now ≡ 4096 }
    ensures most { result ≤ 1024 }
    ensures rest { drop (4 * result) bytes.now ≡ replicate (4096 - 4 * result) 0 }
{
    let count = pointers_below(size);
    if are_zeros(&bytes[4 * count..]) {
        count
    } else {
        POINTERS
    }
}

// Puts the first numbers of a pointer block into `out`.
fn read_pointers(bytes: &[u8], out: &mut [u32])
    requires { 4 * length out.old ≤ length bytes.now }
    ensures { out.new ≡ map (λ i. u32_at bytes.now (4 * i)) (range_with_len 0 (length out.old)) }
{
    for i in 0..out.len() {
        out[i] = get_u32(bytes, 4 * i);
    }
}

/// Puts the number of the block at each index of the inode, which has a pointer block, into `numbers`, 0 for none.
/// Answers how many of them there are to look at: all after them are 0. The pointer block is read into `buffer`.
pub(crate) fn read_numbers<S: MetaRead>(
    store: &mut S,
    d: &Dinode,
    buffer: &mut [u8],
    numbers: &mut [u32],
) -> Result<usize, DiskFault>
    requires some { slice_index d.now.indirect 0 ≢ 0 }
    requires inside { slice_index d.now.indirect 0 < blocks_of (S.store store.old).geometry }
    requires buffer { length buffer.old ≡ 4096 }
    requires numbers { length numbers.old ≡ 1036 }
    ensures most { IfOk result (λ held. held ≤ 1036) }
    ensures numbers { IfSome (S.store store.old).content (λ image. IfOk result (λ held. with_zeros (take held numbers.new) ≡ numbers_of (block image) d.now)) }
    ensures sizes { (length buffer.new ≡ 4096) × (length numbers.new ≡ 1036) }
    ensures unchanged { IsUnchanged (S.store store.old) (S.store store.new) }
    ensures failure { CountsFailure result (S.store store.old).disk (S.store store.new).disk }
{
    store.block(BlockNo(d.indirect[0]), buffer)?;
    let held = pointers_held(d.size, buffer);
    numbers[..DIRECT].copy_from_slice(&d.direct);
    read_pointers(buffer, &mut numbers[DIRECT..DIRECT + held]);
    Ok(DIRECT + held)
}
