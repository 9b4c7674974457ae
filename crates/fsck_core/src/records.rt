//! The records of the groups and of the inodes.
ghost use Rattle.std.specs.Prelude.{◌≡◌, ◌<◌, ◌+◌, ◌*◌, [], length, None, IfSome, IfOk, OnOk, IsErrOf, option_map};
ghost use Rattle.lufs_base.specs.Layout.{IsGeometry};
ghost use Rattle.volume_model.specs.Format.{Blocks, block, inodes_of};
ghost use Rattle.volume_model.specs.declared.finding.Kind.TheVariants.{Group as of_groups};
ghost use Rattle.volume_model.specs.Sound.{reading_of, group_at, first_of_kind};
ghost use Rattle.sector_disk.specs.Disk.{CountsFailure, FailsJustAt};
ghost use Rattle.cyl_groups.specs.Group.{record_of};
ghost use Rattle.meta_store.specs.Store.{IsUnchanged};
ghost use Rattle.fsck_core.specs.Inodes.{AreKept, HasKept};
ghost use Rattle.fsck_core.specs.Tables.{AreGroups, AreOfGroup};
ghost use Rattle.fsck_core.specs.Answers.{IsPart, IsPartOf};
ghost use Rattle.meta_store.specs.declared.error.StoreError.TheVariants.{Disk};
ghost use Rattle.fsck_core.specs.declared.stop.Stop.TheVariants.{Failed};

use crate::inodes::Inodes;
use crate::stop::Stop;
use cyl_groups::{Group, read_group};
use inode_table::read_dinode;
use lufs_base::{BLOCK, BlockNo, DiskFault, Geometry};
use meta_store::MetaRead;
use std::alloc::Global;
use volume_model::Kind;

// The bytes of the record of an inode.
const RECORD: usize = 128;

// The record of group n, if there is one.
fn group_record<S: MetaRead>(store: &mut S, n: u32) -> Result<Option<Group>, DiskFault>
    requires { n < (S.store store.old).geometry.groups }
    ensures value { IfSome (S.store store.old).content (λ image. IfOk result (λ found. option_map record_of found ≡ group_at (S.store store.old).geometry (block image) n)) }
    ensures unchanged { IsUnchanged (S.store store.old) (S.store store.new) }
    ensures failure { CountsFailure result (S.store store.old).disk (S.store store.new).disk }
{
    let g = *store.geometry();
    let mut bytes = [0; BLOCK];
    store.block(g.group_block(n), &mut bytes)?;
    Ok(read_group(&g, n, &bytes[..416]).ok())
}

/// The record of each group.
pub(crate) fn read_groups<S: MetaRead>(alloc: Global, store: &mut S) -> Result<Vec<Group>, Stop>
    ensures part { IsPartOf (S.store store.old) (λ g blocks groups. AreGroups g blocks groups.items) result }
    ensures size { IfOk result (λ groups. length groups.items ≡ (S.store store.old).geometry.groups) }
    ensures unchanged { IsUnchanged (S.store store.old) (S.store store.new) }
    ensures failure { FailsJustAt (IsErrOf result (Failed Disk)) (S.store store.old).disk (S.store store.new).disk }
{
    let g = *store.geometry();
    let mut groups = Vec::with_capacity(alloc, g.groups as usize)?;
    for n in 0..g.groups {
        match group_record(store, n)? {
            Some(group) => groups.push(group)?,
            None => return Err(Stop::Found(Kind::Group, n)),
        }
    }
    Ok(groups)
}

// Keeps the inodes of group n, whose records these bytes are. The inodes 0 and 1 are never in use.
fn push_table(g: &Geometry, n: u32, table: &[u8], inodes: &mut Inodes) -> Result<(), Stop>
    requires geometry { IsGeometry g.now }
    requires group { n < g.now.groups }
    requires size { length table.now ≡ 128 * g.now.ipg }
    requires room { HasKept g.now (n * g.now.ipg) inodes.old.briefs.items inodes.old.unsettled.items inodes.old.claims }
    ensures part { (blocks : Blocks) → AreOfGroup g.now blocks n table.now → first_of_kind g.now (reading_of g.now blocks) [] of_groups ≡ None
        → AreKept g.now blocks (n * g.now.ipg) inodes.old.briefs.items inodes.old.unsettled.items inodes.old.claims
        → IsPart g.now blocks (λ _. AreKept g.now blocks ((n + 1) * g.now.ipg) inodes.new.briefs.items inodes.new.unsettled.items inodes.new.claims) result }
    ensures room { OnOk result (HasKept g.now ((n + 1) * g.now.ipg) inodes.new.briefs.items inodes.new.unsettled.items inodes.new.claims) }
    ensures no_fault { ¬ IsErrOf result (Failed Disk) }
{
    for k in 0..g.ipg {
        let i = n * g.ipg + k;
        let at = RECORD * k as usize;
        match read_dinode(g.version, &table[at..at + RECORD]) {
            Ok(None) => inodes.push_free()?,
            Ok(Some(d)) if i >= 2 => inodes.push_used(g, i, &d)?,
            _ => return Err(Stop::Found(Kind::Inode, i)),
        }
    }
    Ok(())
}

// Reads the inode records of group n, through `table`, and keeps the inodes.
fn read_table<S: MetaRead>(
    store: &mut S,
    n: u32,
    table: &mut [u8],
    inodes: &mut Inodes,
) -> Result<(), Stop>
    requires group { n < (S.store store.old).geometry.groups }
    requires size { length table.old ≡ 128 * (S.store store.old).geometry.ipg }
    requires room { HasKept (S.store store.old).geometry (n * (S.store store.old).geometry.ipg) inodes.old.briefs.items inodes.old.unsettled.items inodes.old.claims }
    ensures part { IfSome (S.store store.old).content (λ image.
        first_of_kind (S.store store.old).geometry (reading_of (S.store store.old).geometry (block image)) [] of_groups ≡ None
        → AreKept (S.store store.old).geometry (block image) (n * (S.store store.old).geometry.ipg) inodes.old.briefs.items inodes.old.unsettled.items inodes.old.claims
        → IsPart (S.store store.old).geometry (block image)
        (λ _. AreKept (S.store store.old).geometry (block image) ((n + 1) * (S.store store.old).geometry.ipg) inodes.new.briefs.items inodes.new.unsettled.items inodes.new.claims) result) }
    ensures room { OnOk result (HasKept (S.store store.old).geometry ((n + 1) * (S.store store.old).geometry.ipg) inodes.new.briefs.items inodes.new.unsettled.items inodes.new.claims) }
    ensures unchanged { IsUnchanged (S.store store.old) (S.store store.new) }
    ensures failure { FailsJustAt (IsErrOf result (Failed Disk)) (S.store store.old).disk (S.store store.new).disk }
{
    let g = *store.geometry();
    store.blocks(BlockNo(g.group_block(n).0 + 1), table)?;
    push_table(&g, n, table, inodes)
}

/// What there is to keep of each inode. The records of a group, which stand in a row, are read at once.
pub(crate) fn read_inodes<S: MetaRead>(alloc: Global, store: &mut S) -> Result<Inodes, Stop>
    requires groups { IfSome (S.store store.old).content (λ image.
        first_of_kind (S.store store.old).geometry (reading_of (S.store store.old).geometry (block image)) [] of_groups ≡ None) }
    ensures part { IsPartOf (S.store store.old) (λ g blocks k. AreKept g blocks (inodes_of g) k.briefs.items k.unsettled.items k.claims) result }
    ensures room { IfOk result (λ k. HasKept (S.store store.old).geometry (inodes_of (S.store store.old).geometry) k.briefs.items k.unsettled.items k.claims) }
    ensures unchanged { IsUnchanged (S.store store.old) (S.store store.new) }
    ensures failure { FailsJustAt (IsErrOf result (Failed Disk)) (S.store store.old).disk (S.store store.new).disk }
{
    let g = *store.geometry();
    let mut inodes = Inodes::new(alloc, &g)?;
    let mut table = vec![in alloc; 0u8; RECORD * g.ipg as usize]?;
    for n in 0..g.groups {
        read_table(store, n, &mut table, &mut inodes)?;
    }
    Ok(inodes)
}
