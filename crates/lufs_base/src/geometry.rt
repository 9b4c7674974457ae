//! The numbers that a volume is laid out by, and where each of its parts lies.
ghost use Rattle.std.specs.Prelude.{◌≡◌, ℕ, ◌<◌, ◌≤◌, ◌*◌, ◌%◌, ◌^◌, nat_lt};
ghost use Rattle.lufs_base.specs.declared.geometry.Geometry.{Geometry};
ghost use Rattle.lufs_base.specs.declared.geometry.Region.{Region};
ghost use Rattle.lufs_base.specs.Layout.{is_step, IsGeometry, blocks_of, ring_of, header_sector, ring_place, need_of, group_start, inode_address, region_of, InRegion, inodes_of, is_body};

use crate::{BlockNo, Ino};

/// The bytes of a sector.
pub const SECTOR: usize = 512;

/// The bytes of a block.
pub const BLOCK: usize = 4096;

/// The bytes of a log sector before its trailer.
pub const PAYLOAD: usize = 504;

/// The sector of the superblock.
pub const SUPERBLOCK_SECTOR: u64 = 16;

/// Whether a number is between `low` and `high`, both allowed, and a multiple of `step`.
pub fn is_step(low: u64, high: u64, step: u64, n: u64) -> bool
    requires { 0 < step }
    ensures { result ≡ is_step low high step n }
{
    low <= n && n <= high && n % step == 0
}

/// The numbers that a volume is laid out by (`docs/FORMAT.md`, "Layout").
#[derive(Clone, Copy, Debug, PartialEq, Eq)]
pub struct Geometry {
    pub version: u32,
    /// Groups of the volume.
    pub groups: u32,
    /// Blocks of a group.
    pub bpg: u32,
    /// Inodes of a group.
    pub ipg: u32,
    /// Sectors of the log, with its header.
    pub log: u32,
}

/// What a block is for. A block of a group has the group's number.
#[derive(Clone, Copy, Debug, PartialEq, Eq)]
pub enum Region {
    Boot,
    Super,
    Log,
    GroupBlock(u32),
    Inodes(u32),
    Body(u32),
}

impl Geometry {
    /// Blocks of the volume.
    pub fn total(&self) -> u32
        requires { IsGeometry self.now }
        ensures { result ≡ blocks_of self.now }
    {
        3 + self.log / 8 + self.groups * self.bpg
    }

    /// Sectors of the ring: those of the log without its header.
    pub fn ring(&self) -> u32
        requires { IsGeometry self.now }
        ensures { result ≡ ring_of self.now }
    {
        self.log - 1
    }

    /// The sector of the log's header.
    pub fn header_sector(&self) -> u64
        ensures { result ≡ header_sector self.now }
    {
        24
    }

    /// The sector of this place of the ring.
    pub fn ring_place(&self, place: u32) -> u64
        requires geometry { IsGeometry self.now }
        requires place { place < ring_of self.now }
        ensures { result ≡ ring_place self.now place }
    {
        self.header_sector() + 1 + u64::from(place)
    }

    /// Bytes of deltas that a changing call reserves.
    pub fn need(&self) -> u32
        requires { IsGeometry self.now }
        ensures { result ≡ need_of self.now }
    {
        8_000 + 432 * self.groups
    }

    /// The first block of group `n`, which holds its group record.
    pub fn group_block(&self, n: u32) -> BlockNo
        requires geometry { IsGeometry self.now }
        requires group { n < self.now.groups }
        ensures { result.0 ≡ group_start self.now n }
    {
        BlockNo(3 + self.log / 8 + n * self.bpg)
    }

    /// The byte address of the record of inode `i`.
    pub fn inode_place(&self, i: Ino) -> u64
        requires geometry { IsGeometry self.now }
        requires inode { i.0 < self.now.groups * self.now.ipg }
        ensures { result ≡ inode_address self.now i.0 }
    {
        let group = self.group_block(i.0 / self.ipg);
        4096 * (u64::from(group.0) + 1) + 128 * u64::from(i.0 % self.ipg)
    }

    /// Whether the volume has inode `i`.
    pub fn is_inode(&self, i: Ino) -> bool
        requires { IsGeometry self.now }
        ensures { result ≡ nat_lt i.0 (inodes_of self.now) }
    {
        i.0 < self.groups * self.ipg
    }

    /// Whether block `b` is a body block of the volume.
    pub fn is_body(&self, b: BlockNo) -> bool
        requires { IsGeometry self.now }
        ensures { result ≡ is_body self.now b.0 }
    {
        let first = self.group_block(0).0;
        first <= b.0 && b.0 < self.total() && rest_of(b.0 - first, self.bpg) > self.ipg / 32
    }

    /// What block `b` is for.
    pub fn region(&self, b: BlockNo) -> Region
        requires geometry { IsGeometry self.now }
        requires block { b.0 < blocks_of self.now }
        ensures value { result ≡ region_of self.now b.0 }
        ensures place { InRegion self.now b.0 result }
    {
        let groups = 3 + self.log / 8;
        match b.0 {
            0 | 1 => Region::Boot,
            2 => Region::Super,
            b if b < groups => Region::Log,
            b => {
                let n = (b - groups) / self.bpg;
                let place = (b - groups) % self.bpg;
                if place == 0 {
                    Region::GroupBlock(n)
                } else if place <= self.ipg / 32 {
                    Region::Inodes(n)
                } else {
                    Region::Body(n)
                }
            }
        }
    }
}

// The rest of a division. Mostly a group has a power of two of blocks, and then no division is needed.
fn rest_of(at: u32, n: u32) -> u32
    requires some { 0 < n }
    requires fits { n ≤ 2 ^ 31 }
    ensures { result ≡ at % n }
{
    if n.next_power_of_two() == n {
        at & (n - 1)
    } else {
        at % n
    }
}

/// No block is in two regions.
pub fn one_region()
    ensures { (g : Geometry) (b : ℕ) (r s : Region) → IsGeometry g → InRegion g b r → InRegion g b s → r ≡ s }
{}

/// Each block of the volume lies within the limits of the region that it is said to be in.
pub fn its_region()
    ensures { (g : Geometry) (b : ℕ) → IsGeometry g → b < blocks_of g → InRegion g b (region_of g b) }
{}
