//! A group in memory: what is free in it, and how bits and counts change together.
ghost use Rattle.std.specs.Prelude.{◌≤◌};

use crate::bits;

/// A group: its record, and how many inodes and blocks it has (`docs/FORMAT.md`, "Group record").
/// Bits of inodes and blocks are counted from the group's first.
#[derive(Clone, Copy, Debug, PartialEq, Eq)]
pub struct Group {
    pub number: u32,
    /// Inodes that are not in use.
    pub free_inodes: u32,
    /// Blocks that are not in use.
    pub free_blocks: u32,
    /// Inodes of the group, as the geometry has them.
    pub ipg: u32,
    /// Blocks of the group, as the geometry has them.
    pub bpg: u32,
    /// The inodes in use.
    pub inode_bits: [u8; 128],
    /// The blocks in use.
    pub block_bits: [u8; 256],
    pub ghost ipg_in_bits: { ipg ≤ 1024 },
    pub ghost bpg_in_bits: { bpg ≤ 2048 },
}

impl Group {
    ghost use Rattle.std.specs.Prelude.{◌≡◌, ◌+◌, ◌<◌, true, false};
    ghost use Rattle.volume_model.specs.Format.{bit_at, HasBit};
    ghost use Rattle.cyl_groups.specs.Bits.{IsFirstClear};
    ghost use Rattle.cyl_groups.specs.Group.{IsCounted, OnlyInodes, OnlyBlocks};

    /// The first inode of the group that is not in use, if there is one.
    pub fn first_free_inode(&self) -> Option<u32>
        ensures { IsFirstClear self.now.inode_bits 0 self.now.ipg result }
    {
        bits::first_clear(&self.inode_bits, 0, self.ipg)
    }

    /// The first block of the group from block `from` on that is not in use, if there is one.
    pub fn first_free_block(&self, from: u32) -> Option<u32>
        ensures { IsFirstClear self.now.block_bits from self.now.bpg result }
    {
        bits::first_clear(&self.block_bits, from, self.bpg)
    }

    /// Marks inode `i` of the group as in use, and counts it.
    pub fn set_inode(&mut self, i: u32)
        requires range { i < self.old.ipg }
        requires free { bit_at self.old.inode_bits i ≡ false }
        requires counted { IsCounted self.old }
        ensures bit { HasBit i true self.old.inode_bits self.new.inode_bits }
        ensures count { self.new.free_inodes + 1 ≡ self.old.free_inodes }
        ensures counted { IsCounted self.new }
        ensures others { OnlyInodes self.old self.new }
    {
        bits::set(&mut self.inode_bits, i);
        self.free_inodes -= 1;
    }

    /// Marks inode `i` of the group as free, and counts it.
    pub fn clear_inode(&mut self, i: u32)
        requires range { i < self.old.ipg }
        requires used { bit_at self.old.inode_bits i ≡ true }
        requires counted { IsCounted self.old }
        ensures bit { HasBit i false self.old.inode_bits self.new.inode_bits }
        ensures count { self.new.free_inodes ≡ self.old.free_inodes + 1 }
        ensures counted { IsCounted self.new }
        ensures others { OnlyInodes self.old self.new }
    {
        bits::clear(&mut self.inode_bits, i);
        self.free_inodes += 1;
    }

    /// Marks block `i` of the group as in use, and counts it.
    pub fn set_block(&mut self, i: u32)
        requires range { i < self.old.bpg }
        requires free { bit_at self.old.block_bits i ≡ false }
        requires counted { IsCounted self.old }
        ensures bit { HasBit i true self.old.block_bits self.new.block_bits }
        ensures count { self.new.free_blocks + 1 ≡ self.old.free_blocks }
        ensures counted { IsCounted self.new }
        ensures others { OnlyBlocks self.old self.new }
    {
        bits::set(&mut self.block_bits, i);
        self.free_blocks -= 1;
    }

    /// Marks block `i` of the group as free, and counts it.
    pub fn clear_block(&mut self, i: u32)
        requires range { i < self.old.bpg }
        requires used { bit_at self.old.block_bits i ≡ true }
        requires counted { IsCounted self.old }
        ensures bit { HasBit i false self.old.block_bits self.new.block_bits }
        ensures count { self.new.free_blocks ≡ self.old.free_blocks + 1 }
        ensures counted { IsCounted self.new }
        ensures others { OnlyBlocks self.old self.new }
    {
        bits::clear(&mut self.block_bits, i);
        self.free_blocks += 1;
    }
}
