//! What is in a hand, as a plan takes it.
ghost use Rattle.std.specs.Prelude.{◌≡◌, ◌≢◌, ◌<◌, ◌≤◌, IfOk, IfSome, IfNone, Some};
ghost use Rattle.lufs_base.specs.Layout.{IsGeometry};
ghost use Rattle.volume_model.specs.Format.{inodes_of};
ghost use Rattle.meta_store.specs.Changes.{numbers_in};

use lufs_base::{BlockNo, Geometry, Ino, Mem};
use std::alloc::Global;
use volume_model::Hand;

/// The inode of a hand, if it has one of the volume, from 1 on.
pub fn inode_in(g: &Geometry, hand: &Hand) -> Option<Ino>
    requires { IsGeometry g.now }
    ensures some { IfSome result (λ i. hand.now.inode ≡ Some i.0) }
    ensures range { IfSome result (λ i. (i.0 ≢ 0) × (i.0 < inodes_of g.now)) }
    ensures none { IfNone result (IfSome hand.now.inode (λ i. 0 < i → inodes_of g.now ≤ i)) }
{
    let i = hand.inode?;
    if i == 0 || i >= g.groups * g.ipg {
        return None;
    }
    Some(Ino(i))
}

/// The blocks of a hand, in their order.
pub fn blocks_in(alloc: Global, hand: &Hand) -> Result<Vec<BlockNo>, Mem>
    ensures { IfOk result (λ blocks. numbers_in blocks.items ≡ hand.now.blocks) }
{
    let mut blocks = Vec::new(alloc);
    for b in hand.blocks.as_slice() {
        blocks.push(BlockNo(*b))?;
    }
    Ok(blocks)
}
