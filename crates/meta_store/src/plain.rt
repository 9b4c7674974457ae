//! A store of an image in memory, which takes every change.
ghost use Rattle.std.specs.Prelude.{◌≡◌, ◌≤◌, ◌<◌, ◌+◌, ◌*◌, ◌++◌, ◌==◌, length, map, IsOk, IfOk};
ghost use Rattle.std.specs.List.{list_any};
ghost use Rattle.lufs_base.specs.Layout.{IsGeometry, blocks_of};
ghost use Rattle.volume_model.specs.Format.{sectors_of, block};
ghost use Rattle.volume_model.specs.Log.{AreLoggable};
ghost use Rattle.meta_store.specs.Store.{AreBlocks, AreBlocksRead, plain_told};
ghost use Rattle.meta_store.specs.Changes.{amended, is_group_at};

use crate::image::{block_bit, lay_all, put, write_raw};
use crate::merge::all_merged;
use crate::{Change, Freed, MetaRead, MetaStore, StoreError};
use lufs_base::{BLOCK, BlockNo, Bytes, Delta, DeltaKind, DiskFault, Geometry, Mem};
use std::alloc::Global;
use std::mem;

/// A volume whose image is in memory. It tells the image, and no read fails. It takes every change, and one
/// transaction holds all of them.
#[derive(Debug, Drop)]
pub struct PlainStore {
    geometry: Geometry,
    image: Vec<u8>,
    held: Vec<Delta>,
    taken: Vec<u32>,
    freed: Vec<u32>,
    pub ghost in_range: { IsGeometry geometry },
    pub ghost whole: { 8 * blocks_of geometry ≤ sectors_of image.items },
    pub ghost loggable: { AreLoggable geometry held.items },
}

impl PlainStore {
    ghost use Rattle.std.specs.Prelude.{◌≡◌, ◌≤◌, ◌*◌, [], length, Some};
    ghost use Rattle.lufs_base.specs.Layout.{IsGeometry, blocks_of};
    ghost use Rattle.meta_store.specs.Store.{plain_told};
    ghost use Rattle.meta_store.specs.Plain.{plain_changing};

    /// The volume of this image, which has all its blocks.
    pub fn new(g: &Geometry, image: Vec<u8>) -> Self
        requires geometry { IsGeometry g.now }
        requires blocks { 4096 * blocks_of g.now ≤ length image.items }
        ensures told { ⟦<PlainStore as MetaRead>⟧.store result ≡ plain_told g.now image.items }
        ensures changing { ⟦<PlainStore as MetaRead>⟧.changing result ≡ plain_changing g.now image.items [] [] [] }
    {
        let alloc = *image.allocator();
        PlainStore {
            geometry: *g,
            image,
            held: Vec::new(alloc),
            taken: Vec::new(alloc),
            freed: Vec::new(alloc),
        }
    }

    /// The image as it is now. A store made of it holds the same, and its transaction holds nothing yet.
    pub fn into_image(self) -> Vec<u8>
        ensures { (⟦<PlainStore as MetaRead>⟧.store self).content ≡ Some result.items }
    {
        self.image
    }
}

impl MetaRead for PlainStore {
    ghost use Rattle.meta_store.specs.Store.{plain_told};
    ghost use Rattle.meta_store.specs.Plain.{plain_changing};

    ghost store = { λ s. plain_told s.geometry s.image.items };

    ghost changing = { λ s. plain_changing s.geometry s.image.items s.held.items s.taken.items s.freed.items };

    fn geometry(&self) -> &Geometry {
        &self.geometry
    }

    fn faults(&self) -> u64 {
        0
    }

    fn block(&mut self, b: BlockNo, out: &mut [u8]) -> Result<(), DiskFault>
        requires inside { b.0 < blocks_of self.old.geometry }
        requires size { length out.old ≡ 4096 }
        ensures sure { IsOk result }
        ensures bytes { out.new ≡ block self.old.image.items b.0 }
        ensures same { self.new ≡ self.old }
    {
        let at = BLOCK * b.0 as usize;
        out.copy_from_slice(&self.image[at..at + BLOCK]);
        Ok(())
    }

    fn blocks(&mut self, first: BlockNo, out: &mut [u8]) -> Result<(), DiskFault>
        requires whole { AreBlocks (length out.old) }
        requires inside { 4096 * first.0 + length out.old ≤ 4096 * blocks_of self.old.geometry }
        ensures sure { IsOk result }
        ensures bytes { AreBlocksRead first.0 out.new (plain_told self.old.geometry self.old.image.items) }
        ensures same { self.new ≡ self.old }
    {
        let at = BLOCK * first.0 as usize;
        out.copy_from_slice(&self.image[at..at + out.len()]);
        Ok(())
    }

    ghost size = { λ s. s.whole };
}

// The numbers with these at their end.
fn with_numbers(alloc: Global, numbers: &[u32], more: &[u32]) -> Result<Vec<u32>, Mem>
    ensures { IfOk result (λ all. all.items ≡ numbers.now ++ more.now) }
{
    let mut all = Vec::from_slice(alloc, numbers)?;
    all.extend_from_slice(more)?;
    Ok(all)
}

// The numbers with those of freed blocks at their end.
fn with_freed(alloc: Global, numbers: &[u32], freed: &[Freed]) -> Result<Vec<u32>, Mem>
    ensures { IfOk result (λ all. all.items ≡ numbers.now ++ map (λ f. f.block.0) freed.now) }
{
    let mut all = Vec::from_slice(alloc, numbers)?;
    for freed in freed {
        all.push(freed.block.0)?;
    }
    Ok(all)
}

// Whether the block is one of these.
fn is_returned(b: u32, returned: &[BlockNo]) -> bool
    ensures { result ≡ list_any (λ x. x.0 == b) returned.now }
{
    returned.iter().any(|block| block.0 == b)
}

// Whether the delta is of a group record of so many bytes at this home.
fn is_group_at(home: u64, bytes: usize, delta: &Delta) -> bool
    ensures { result ≡ is_group_at home bytes delta.now }
{
    matches!(delta.kind, DeltaKind::Group) && delta.home == home && delta.bytes.len() == bytes
}

// Puts as many bytes in the place of those of a delta.
fn put_bytes(alloc: Global, delta: &mut Delta, bytes: &[u8])
    requires { length bytes.now ≡ length delta.old.bytes }
    ensures { delta.new ≡ record delta.old { bytes = bytes.now } }
{
    let mut all = mem::replace(&mut delta.bytes, Bytes::from_vec(Vec::new(alloc))).into_vec();
    all.as_mut_slice().copy_from_slice(bytes);
    delta.bytes = Bytes::from_vec(all);
}

// Puts the bytes into a delta, if it is of the group record at this home.
fn amend_delta(alloc: Global, delta: &mut Delta, home: u64, bytes: &[u8])
    ensures { delta.new ≡ amended home bytes.now delta.old }
{
    if is_group_at(home, bytes.len(), delta) {
        put_bytes(alloc, delta, bytes);
    }
}

// Puts the bytes into the group records that are held at this home.
fn amend_held(alloc: Global, held: &mut Vec<Delta>, home: u64, bytes: &[u8])
    ensures { held.new.items ≡ map (amended home bytes.now) held.old.items }
{
    for delta in held.iter_mut() {
        amend_delta(alloc, delta, home, bytes);
    }
}

impl MetaStore for PlainStore {
    fn is_released(&self, b: BlockNo) -> bool {
        self.geometry.is_body(b) && !block_bit(&self.geometry, b, self.image.as_slice())
    }

    fn apply(&mut self, alloc: Global, change: &Change) -> Result<(), StoreError> {
        let held = all_merged(alloc, self.held.as_slice(), change.deltas.as_slice())?;
        let taken = with_numbers(alloc, self.taken.as_slice(), change.taken.as_slice())?;
        let freed = with_freed(alloc, self.freed.as_slice(), change.freed.as_slice())?;
        write_raw(&mut self.image, change.raw.as_slice());
        lay_all(change.deltas.as_slice(), &mut self.image);
        self.held = held;
        self.taken = taken;
        self.freed = freed;
        Ok(())
    }

    fn fill(&mut self, b: BlockNo, bytes: &[u8]) -> Result<(), DiskFault> {
        put(&mut self.image, BLOCK * b.0 as usize, bytes);
        Ok(())
    }

    fn amend(&mut self, home: u64, bytes: &[u8], returned: &[BlockNo]) {
        put(&mut self.image, home as usize, bytes);
        amend_held(*self.image.allocator(), &mut self.held, home, bytes);
        self.taken.retain(|b| !is_returned(*b, returned));
    }

    ghost loggable = { λ s. s.loggable };
}
