//! A small volume, made by the numbers in it, and a store of it that doesn't tell what it holds.
ghost use Rattle.std.specs.Prelude.{◌≡◌, ◌≤◌, ◌*◌, length, IfOk};
ghost use Rattle.lufs_base.specs.Layout.{IsGeometry, blocks_of};

use lufs_base::{BLOCK, BlockNo, DiskFault, Geometry, Mem};
use meta_store::MetaRead;
use std::alloc::Global;

/// A volume of 99 blocks: group block 35, inode block 36, and body blocks from 37 on.
pub(crate) const SMALLEST: Geometry = Geometry {
    version: 1,
    groups: 1,
    bpg: 64,
    ipg: 32,
    log: 256,
};

/// Numbers of 32 bits that stand in a block: the block, which of its numbers the first of them is, and the numbers.
pub(crate) type Words<'a> = (u32, u32, &'a [u32]);

// Puts the numbers into the image, as far as it goes.
fn put(image: &mut [u8], words: &Words) {
    let (block, first, numbers) = *words;
    let mut at = 4096 * block as usize + 4 * first as usize;
    for number in numbers {
        for byte in number.to_be_bytes() {
            if let Some(place) = image.get_mut(at) {
                *place = byte;
            }
            at = at.saturating_add(1);
        }
    }
}

/// The volume in which these numbers stand, then those, and zeros.
pub(crate) fn image_of(alloc: Global, made: &[Words], used_up: &[Words]) -> Result<Vec<u8>, Mem>
    ensures { IfOk result (λ image. length image.items ≡ 405504) }
{
    let mut image = vec![in alloc; 0u8; 405_504]?;
    for words in made {
        put(&mut image, words);
    }
    for words in used_up {
        put(&mut image, words);
    }
    if image.len() != 405_504 {
        return Err(Mem);
    }
    Ok(image)
}

/// A volume that doesn't tell what it holds.
#[derive(Drop)]
pub(crate) struct Untold {
    geometry: Geometry,
    image: Vec<u8>,
    pub ghost in_range: { IsGeometry geometry },
    pub ghost whole: { 4096 * blocks_of geometry ≤ length image.items },
}

impl Untold {
    /// The smallest volume of these bytes.
    pub(crate) fn new(image: Vec<u8>) -> Result<Untold, Mem> {
        if image.len() != 405_504 {
            return Err(Mem);
        }
        Ok(Untold {
            geometry: SMALLEST,
            image,
        })
    }
}

impl MetaRead for Untold {
    ghost use Rattle.std.specs.Prelude.{None};
    ghost use Rattle.meta_store.specs.Store.{no_disk};
    ghost use Rattle.meta_store.specs.Changing.{no_changes};

    ghost store = { λ s. record { geometry = s.geometry; content = None; disk = no_disk } };

    ghost changing = { λ s. no_changes };

    fn geometry(&self) -> &Geometry {
        &self.geometry
    }

    fn faults(&self) -> u64 {
        0
    }

    fn block(&mut self, b: BlockNo, out: &mut [u8]) -> Result<(), DiskFault> {
        let at = BLOCK * b.0 as usize;
        out.copy_from_slice(&self.image[at..at + BLOCK]);
        Ok(())
    }

    fn blocks(&mut self, first: BlockNo, out: &mut [u8]) -> Result<(), DiskFault> {
        let at = BLOCK * first.0 as usize;
        out.copy_from_slice(&self.image[at..at + out.len()]);
        Ok(())
    }

    ghost size = { λ s. tt };
}
