//! The check as a whole: its rules in their order.
//!
//! It takes four passes. The first reads the record of each group, and the second the record of each inode. Of an inode
//! whose record settles it, a file or a text without a pointer block and with right fields, the second pass claims the
//! blocks at once and keeps only the type and the links. The third goes over the other inodes in use: it looks at the
//! fields of each, claims its blocks, and enters the names of a directory. Each of these ends the check at the first
//! record or inode that breaks its rule. The fourth reads nothing more: it goes through the rules that are left, in
//! their order, over what the others kept.
ghost use Rattle.std.specs.Prelude.{◌≡◌, [], length, None, IsErrOf};
ghost use Rattle.lufs_base.specs.declared.geometry.Geometry.{Geometry as IsOfGeometry};
ghost use Rattle.lufs_base.specs.Layout.{IsGeometry};
ghost use Rattle.volume_model.specs.Format.{Blocks, inodes_of};
ghost use Rattle.volume_model.specs.declared.finding.Kind.TheVariants.{Root};
ghost use Rattle.volume_model.specs.Sound.{reading_of, first_of_kind, finding_of, counts_of};
ghost use Rattle.sector_disk.specs.Disk.{FailsJustAt};
ghost use Rattle.meta_store.specs.Store.{IsUnchanged};
ghost use Rattle.meta_store.specs.declared.error.StoreError.TheVariants.{Disk};
ghost use Rattle.fsck_core.specs.declared.stop.Stop.TheVariants.{Failed};
ghost use Rattle.fsck_core.specs.Answers.{IsPart, IsPartOf, IsVerdictOf};
ghost use Rattle.fsck_core.specs.Survey.{IsSurvey, HasRoom};
ghost use Rattle.fsck_core.specs.StepsUp.{is_directory_record};
ghost use Rattle.fsck_core.specs.Inodes.{AreBriefs};
ghost use Rattle.fsck_core.specs.Tables.{AreGroups};

use crate::bits::{counts, first_bad_block_bit, first_bad_count, first_bad_inode_bit};
use crate::inodes::{Brief, Inodes};
use crate::parents::{first_bad_links, first_bad_parent};
use crate::records::{read_groups, read_inodes};
use crate::stop::{Stop, unless_found};
use crate::survey::{Survey, survey_inodes};
use cyl_groups::Group;
use lufs_base::Geometry;
use meta_store::{MetaRead, StoreError};
use std::alloc::Global;
use volume_model::{Counts, Kind, Verdict};

// Whether the record, if there is one, is a directory's.
fn is_directory_record(inode: &Option<Brief>) -> bool
    ensures { result ≡ is_directory_record inode.now }
{
    match inode {
        Some(d) => d.is_directory(),
        None => false,
    }
}

// The root's number, where the root is no directory in use.
fn first_bad_root(inodes: &[Option<Brief>]) -> Option<u32>
    ensures { (g : IsOfGeometry) (blocks : Blocks) → AreBriefs g blocks inodes.now → length inodes.now ≡ inodes_of g
        → result ≡ first_of_kind g (reading_of g blocks) [] Root }
{
    match inodes.get(2) {
        Some(root) if is_directory_record(root) => None,
        _ => Some(2),
    }
}

// Judges what was read by the rules that are left, in their order, and says what there is where none is broken.
fn judge(
    alloc: Global,
    g: &Geometry,
    groups: &[Group],
    inodes: &[Option<Brief>],
    survey: &Survey,
) -> Result<Counts, Stop>
    requires geometry { IsGeometry g.now }
    requires groups { length groups.now ≡ g.now.groups }
    requires inodes { length inodes.now ≡ inodes_of g.now }
    requires room { HasRoom g.now survey.now }
    ensures part { (blocks : Blocks) → AreGroups g.now blocks groups.now → AreBriefs g.now blocks inodes.now
        → IsSurvey g.now (reading_of g.now blocks) (inodes_of g.now) survey.now
        → IsPart g.now blocks (λ counts. (counts ≡ counts_of g.now (reading_of g.now blocks)) × (finding_of g.now (reading_of g.now blocks) [] ≡ None)) result }
    ensures no_fault { ¬ IsErrOf result (Failed Disk) }
{
    unless_found(Kind::Root, first_bad_root(inodes))?;
    unless_found(Kind::Twice, survey.claims.twice)?;
    unless_found(Kind::Chunk, survey.bad_chunk)?;
    unless_found(Kind::Name, survey.bad_name)?;
    unless_found(
        Kind::Parent,
        first_bad_parent(alloc, inodes, &survey.names)?,
    )?;
    unless_found(Kind::Links, first_bad_links(inodes, &survey.names))?;
    unless_found(Kind::InodeBit, first_bad_inode_bit(g, groups, inodes))?;
    unless_found(
        Kind::BlockBit,
        first_bad_block_bit(g, groups, &survey.claims),
    )?;
    unless_found(Kind::Count, first_bad_count(g, groups))?;
    Ok(counts(g, inodes, &survey.claims))
}

// Reads what a check judges, and says what there is in a volume where no rule is broken.
fn look<S: MetaRead>(alloc: Global, store: &mut S) -> Result<Counts, Stop>
    ensures part { IsPartOf (S.store store.old) (λ g blocks counts. (counts ≡ counts_of g (reading_of g blocks)) × (finding_of g (reading_of g blocks) [] ≡ None)) result }
    ensures unchanged { IsUnchanged (S.store store.old) (S.store store.new) }
    ensures failure { FailsJustAt (IsErrOf result (Failed Disk)) (S.store store.old).disk (S.store store.new).disk }
{
    let g = *store.geometry();
    let groups = read_groups(alloc, store)?;
    let Inodes {
        briefs,
        unsettled,
        claims,
    } = read_inodes(alloc, store)?;
    let survey = survey_inodes(alloc, store, &briefs, &unsettled, claims)?;
    judge(alloc, &g, &groups, &briefs, &survey)
}

/// Checks a volume (`docs/FORMAT.md`, "What sound means"): whether it is sound while nothing is held, with what
/// there is in it, or the first rule that is broken, in their order, with the lowest number for which it is.
///
/// It reads the group blocks, the inode blocks, and the blocks of directories and pointers, no block of a file. Its
/// memory grows with inodes and names, and by a bit for each block.
///
/// # Errors
///
/// `Disk` where a read failed, and only there; `Mem`.
pub fn check<S: MetaRead>(alloc: Global, store: &mut S) -> Result<Verdict, StoreError>
    ensures verdict { IsVerdictOf (S.store store.old) result }
    ensures unchanged { IsUnchanged (S.store store.old) (S.store store.new) }
    ensures failure { FailsJustAt (IsErrOf result StoreError.Disk) (S.store store.old).disk (S.store store.new).disk }
{
    match look(alloc, store) {
        Ok(counts) => Ok(Verdict::Clean(counts)),
        Err(Stop::Found(kind, number)) => Ok(Verdict::Finding(kind, number)),
        Err(Stop::Failed(error)) => Err(error),
    }
}
