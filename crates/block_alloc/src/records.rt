//! The records of the groups of a store, and what is clear in them.
ghost use Rattle.std.specs.Prelude.{◌≡◌, ◌<◌, ◌≤◌, ◌*◌, length, IfSome, IfOk, IsErrOf, option_map};
ghost use Rattle.lufs_base.specs.Layout.{IsGeometry, group_start, blocks_of};
ghost use Rattle.volume_model.specs.Format.{block, clear_bits, inodes_of};
ghost use Rattle.volume_model.specs.Sound.{reading_of, group_at};
ghost use Rattle.sector_disk.specs.Disk.{CountsFailure, FailsJustAt};
ghost use Rattle.cyl_groups.specs.Group.{record_of};
ghost use Rattle.meta_store.specs.declared.error.StoreError.TheVariants.{Disk};
ghost use Rattle.meta_store.specs.Changing.{IsAsBefore, all_told};
ghost use Rattle.block_alloc.specs.Records.{AreRecords, IsReadGroup, AreReadGroups, clear_inodes_in_record, clear_blocks_in_record, clear_inodes_among, clear_blocks_among, is_clear_inode, is_clear_block};

use cyl_groups::{Group, is_set, read_group};
use lufs_base::{BLOCK, DiskFault, Geometry};
use meta_store::{MetaRead, StoreError};
use std::alloc::Global;

/// The record of group `n`, None where it can't be read.
pub(crate) fn group_record<S: MetaRead>(store: &mut S, n: u32) -> Result<Option<Group>, DiskFault>
    requires { n < (S.store store.old).geometry.groups }
    ensures value { IfSome (S.store store.old).content (λ image. IfOk result (λ found. option_map record_of found ≡ group_at (S.store store.old).geometry (block image) n)) }
    ensures group { IfOk result (λ found. IsReadGroup (S.store store.old).geometry n found) }
    ensures same { IsAsBefore (all_told (S.store store.old) (S.changing store.old)) (all_told (S.store store.new) (S.changing store.new)) }
    ensures failure { CountsFailure result (S.store store.old).disk (S.store store.new).disk }
{
    let g = *store.geometry();
    let mut bytes = [0; BLOCK];
    store.block(g.group_block(n), &mut bytes)?;
    Ok(read_group(&g, n, &bytes[..416]).ok())
}

/// The record of each group, None of one that can't be read.
pub(crate) fn read_records<S: MetaRead>(
    alloc: Global,
    store: &mut S,
) -> Result<Vec<Option<Group>>, StoreError>
    ensures records { IfSome (S.store store.old).content (λ image. IfOk result (λ records. AreRecords (reading_of (S.store store.old).geometry (block image)) records.items)) }
    ensures size { IfOk result (λ records. length records.items ≡ (S.store store.old).geometry.groups) }
    ensures groups { IfOk result (λ records. AreReadGroups (S.store store.old).geometry records.items) }
    ensures same { IsAsBefore (all_told (S.store store.old) (S.changing store.old)) (all_told (S.store store.new) (S.changing store.new)) }
    ensures failure { FailsJustAt (IsErrOf result Disk) (S.store store.old).disk (S.store store.new).disk }
{
    let g = *store.geometry();
    let mut records = Vec::with_capacity(alloc, g.groups as usize)?;
    for n in 0..g.groups {
        let found = group_record(store, n)?;
        records.push(found)?;
    }
    Ok(records)
}

/// How many of the first `n` bits are clear.
pub(crate) fn count_clear(bits: &[u8], n: u32) -> u32
    requires { n ≤ 8 * length bits.now }
    ensures { result ≡ clear_bits bits.now n }
{
    (0..n).filter(|i| !is_set(bits, *i)).count() as u32
}

/// How many bits of the group's inodes are clear.
pub(crate) fn count_clear_inodes(g: &Geometry, found: &Option<Group>) -> u32
    requires { IsGeometry g.now }
    ensures value { result ≡ clear_inodes_in_record g.now found.now }
    ensures most { result ≤ 1024 }
{
    match found {
        Some(group) => count_clear(&group.inode_bits, g.ipg),
        None => 0,
    }
}

/// How many bits of the group's blocks are clear.
pub(crate) fn count_clear_blocks(g: &Geometry, found: &Option<Group>) -> u32
    requires { IsGeometry g.now }
    ensures value { result ≡ clear_blocks_in_record g.now found.now }
    ensures most { result ≤ 2048 }
{
    match found {
        Some(group) => count_clear(&group.block_bits, g.bpg),
        None => 0,
    }
}

/// How many bits of inodes are clear.
pub(crate) fn clear_inodes(g: &Geometry, records: &[Option<Group>]) -> u32
    requires geometry { IsGeometry g.now }
    requires few { length records.now ≤ 64 }
    ensures { result ≡ clear_inodes_among g.now records.now }
{
    let mut count = 0;
    for found in records {
        count += count_clear_inodes(g, found);
    }
    count
}

/// How many bits of blocks are clear.
pub(crate) fn clear_blocks(g: &Geometry, records: &[Option<Group>]) -> u32
    requires geometry { IsGeometry g.now }
    requires few { length records.now ≤ 64 }
    ensures { result ≡ clear_blocks_among g.now records.now }
{
    let mut count = 0;
    for found in records {
        count += count_clear_blocks(g, found);
    }
    count
}

/// Whether the bit of inode `i` is clear.
pub(crate) fn is_clear_inode(g: &Geometry, records: &[Option<Group>], i: u32) -> bool
    requires geometry { IsGeometry g.now }
    requires size { length records.now ≡ g.now.groups }
    requires inside { i < inodes_of g.now }
    ensures { result ≡ is_clear_inode g.now records.now i }
{
    match &records[(i / g.ipg) as usize] {
        Some(group) => !is_set(&group.inode_bits, i % g.ipg),
        None => false,
    }
}

/// Whether the bit of block `b`, which is one of a group, is clear.
pub(crate) fn is_clear_block(g: &Geometry, records: &[Option<Group>], b: u32) -> bool
    requires geometry { IsGeometry g.now }
    requires size { length records.now ≡ g.now.groups }
    requires low { group_start g.now 0 ≤ b }
    requires inside { b < blocks_of g.now }
    ensures { result ≡ is_clear_block g.now records.now b }
{
    let at = b - g.group_block(0).0;
    match &records[(at / g.bpg) as usize] {
        Some(group) => !is_set(&group.block_bits, at % g.bpg),
        None => false,
    }
}
