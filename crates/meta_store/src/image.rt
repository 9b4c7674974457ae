//! An image in memory: raw writes and deltas laid over it, and the bits of its blocks.
ghost use Rattle.std.specs.Prelude.{◌≡◌, ◌≤◌, ◌<◌, ◌+◌, ◌*◌, ◌/◌, ◌∷◌, [], length, All, true};
ghost use Rattle.lufs_base.specs.Layout.{IsGeometry, blocks_of};
ghost use Rattle.lufs_base.specs.Fields.{put_at};
ghost use Rattle.volume_model.specs.Format.{block, is_body};
ghost use Rattle.volume_model.specs.Sound.{reading_of, block_bit};
ghost use Rattle.volume_model.specs.Crash.{image_after};
ghost use Rattle.meta_store.specs.Laid.{laid_over};
ghost use Rattle.meta_store.specs.Changes.{writes_of, deltas_on};

use crate::RawWrite;
use crate::laid::block_of;
use crate::lay::lay_delta;
use cyl_groups::{BadGroup, is_set, read_group};
use lufs_base::{BLOCK, BlockNo, Delta, Geometry, SECTOR};

/// The bytes of a group record.
const GROUP: usize = 416;

// Puts bytes from byte `at` on.
pub(crate) fn put(image: &mut Vec<u8>, at: usize, bytes: &[u8])
    requires { at + length bytes.now ≤ length image.old.items }
    ensures { image.new.items ≡ put_at image.old.items at bytes.now }
{
    image[at..at + bytes.len()].copy_from_slice(bytes);
}

// Makes raw writes, in order.
pub(crate) fn write_raw(image: &mut Vec<u8>, raw: &[RawWrite])
    requires { All (λ w. 512 * w.first + length w.bytes ≤ length image.old.items) raw.now }
    ensures { image.new.items ≡ image_after image.old.items (writes_of raw.now) }
{
    for write in raw {
        put(image, SECTOR * write.first as usize, write.bytes.as_slice());
    }
}

// Lays a delta over the block that it lies in.
fn lay_in_image(delta: &Delta, image: &mut Vec<u8>)
    requires { 4096 * (delta.now.home / 4096) + 4096 ≤ length image.old.items }
    ensures { image.new.items ≡ laid_over (deltas_on (delta.now ∷ [])) image.old.items }
{
    let at = BLOCK * block_of(delta) as usize;
    lay_delta(delta, &mut image[at..at + BLOCK]);
}

// Lays deltas over the blocks that they lie in, in order.
pub(crate) fn lay_all(deltas: &[Delta], image: &mut Vec<u8>)
    requires { All (λ d. 4096 * (d.home / 4096) + 4096 ≤ length image.old.items) deltas.now }
    ensures { image.new.items ≡ laid_over (deltas_on deltas.now) image.old.items }
{
    for delta in deltas {
        lay_in_image(delta, image);
    }
}

// Whether the bit of a body block is set.
pub(crate) fn block_bit(g: &Geometry, b: BlockNo, image: &[u8]) -> bool
    requires geometry { IsGeometry g.now }
    requires body { is_body g.now b.0 ≡ true }
    requires whole { 4096 * blocks_of g.now ≤ length image.now }
    ensures { result ≡ block_bit g.now (reading_of g.now (block image.now)) b.0 }
{
    let from = b.0 - g.group_block(0).0;
    let n = from / g.bpg;
    let at = BLOCK * g.group_block(n).0 as usize;
    match read_group(g, n, &image[at..at + GROUP]) {
        Ok(group) => is_set(&group.block_bits, from % g.bpg),
        Err(BadGroup) => false,
    }
}
