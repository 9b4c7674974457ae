//! The walk over the inodes that aren't settled: their fields, the blocks that they claim, and the names in directories.
ghost use Rattle.std.specs.Prelude.{◌≡◌, ◌<◌, ◌≤◌, ◌+◌, ◌*◌, ◌^◌, ◌&&◌, if◌then◌else◌, ℕ, true, map, length, is_none, [], Some, None, IfSome, IfOk, OnOk, IsErrOf};
ghost use Rattle.std.specs.Option.{option_or};
ghost use Rattle.lufs_base.specs.Layout.{IsGeometry, blocks_of};
ghost use Rattle.lufs_base.specs.declared.geometry.Geometry.{Geometry as IsOfGeometry};
ghost use Rattle.volume_model.specs.Format.{block, inodes_of, is_directory};
ghost use Rattle.volume_model.specs.declared.finding.Kind.TheVariants.{Group as of_groups};
ghost use Rattle.volume_model.specs.Sound.{Reading, reading_of, numbers_of, first_of_kind};
ghost use Rattle.sector_disk.specs.Disk.{FailsJustAt};
ghost use Rattle.meta_store.specs.Store.{IsUnchanged};
ghost use Rattle.meta_store.specs.declared.error.StoreError.TheVariants.{Disk};
ghost use Rattle.fsck_core.specs.declared.stop.Stop.TheVariants.{Failed};
ghost use Rattle.fsck_core.specs.Answers.{IsPart, IsPartOf};
ghost use Rattle.fsck_core.specs.Claimed.{IsReadable, HasClaimed, with_zeros};
ghost use Rattle.fsck_core.specs.Inodes.{AreKept, HasKept, settled_blocks};
ghost use Rattle.fsck_core.specs.NameTables.{HasSizes};
ghost use Rattle.fsck_core.specs.Slots.{slot_of, unused_named, chunks_in};
ghost use Rattle.fsck_core.specs.Survey.{HasSeenNames, IsSurvey, HasRoom, IsHere, AreSlotsOf, AreChunksOf};

use crate::claims::Claims;
use crate::directory::{entries_in, read_blocks};
use crate::entries::Entry;
use crate::fields::{below_size, has_right_fields};
use crate::inodes::{Brief, Unsettled};
use crate::names::NameTables;
use crate::numbers::{NUMBERS, read_numbers};
use crate::slots::{are_right, names_unused};
use crate::stop::Stop;
use lufs_base::{BLOCK, BlockNo, Mem};
use meta_store::{MetaRead, StoreError};
use std::alloc::Global;
use volume_model::{Dinode, Kind};

/// What was seen of the inodes so far.
#[derive(Drop)]
pub(crate) struct Survey {
    pub(crate) claims: Claims,
    pub(crate) names: NameTables,
    /// The first directory with a bad chunk.
    pub(crate) bad_chunk: Option<u32>,
    /// The first directory that names an inode that isn't in use.
    pub(crate) bad_name: Option<u32>,
}

// The first directory that names an inode that isn't in use: the one that was found before, or directory i.
fn first_unused(
    found: Option<u32>,
    inodes: &[Option<Brief>],
    i: u32,
    slots: &[Entry],
) -> Option<u32>
    ensures { result ≡ option_or found (if unused_named inodes.now (map slot_of slots.now) then Some i else None) }
{
    match found {
        None if names_unused(inodes, slots) => Some(i),
        _ => found,
    }
}

impl Survey {
    // Where no inode was looked at, these blocks are claimed.
    fn new(alloc: Global, claims: Claims, count: u32) -> Result<Self, Mem>
        ensures seen { IfOk result (λ s. (g : IsOfGeometry) (r : Reading) → inodes_of g ≡ count → HasClaimed (blocks_of g) (settled_blocks g r (inodes_of g)) claims → IsSurvey g r 0 s) }
        ensures claims { IfOk result (λ s. s.claims ≡ claims) }
        ensures sizes { IfOk result (λ s. HasSizes count s.names) }
    {
        Ok(Survey {
            claims,
            names: NameTables::new(alloc, count)?,
            bad_chunk: None,
            bad_name: None,
        })
    }

    // Whether the names of directories are still looked at: what breaks a rule on them is found only where
    // no block is claimed twice and no chunk is bad.
    fn looks_at_names(&self) -> bool
        ensures { result ≡ (is_none self.now.claims.twice && is_none self.now.bad_chunk) }
    {
        self.claims.twice.is_none() && self.bad_chunk.is_none()
    }

    // Enters the slots of directory i.
    fn enter(
        &mut self,
        alloc: Global,
        inodes: &[Option<Brief>],
        i: u32,
        slots: &[Entry],
    ) -> Result<(), Mem>
        ensures names { (n : ℕ) (r : Reading) → AreSlotsOf n r inodes.now i (map slot_of slots.now) → self.old.bad_chunk ≡ None → HasSeenNames n i r self.old
            → OnOk result (HasSeenNames n (i + 1) r self.new) }
        ensures claims { self.new.claims ≡ self.old.claims }
        ensures sizes { (n : ℕ) → HasSizes n self.old.names → HasSizes n self.new.names }
    {
        if !are_right(alloc, i, slots)? {
            self.bad_chunk = Some(i);
            return Ok(());
        }
        self.bad_name = first_unused(self.bad_name, inodes, i, slots);
        self.names.enter(i, slots);
        Ok(())
    }
}

// Looks at the names of directory i, which stand in so many chunks at the front of these bytes.
fn look_at_slots(
    alloc: Global,
    inodes: &[Option<Brief>],
    i: u32,
    bytes: &[u8],
    chunks: usize,
    survey: &mut Survey,
) -> Result<(), Mem>
    requires { 512 * chunks ≤ length bytes.now }
    ensures names { (n : ℕ) (r : Reading) → AreChunksOf n r inodes.now i (chunks_in bytes.now chunks) → survey.old.bad_chunk ≡ None → HasSeenNames n i r survey.old
        → OnOk result (HasSeenNames n (i + 1) r survey.new) }
    ensures claims { survey.new.claims ≡ survey.old.claims }
    ensures sizes { (n : ℕ) → HasSizes n survey.old.names → HasSizes n survey.new.names }
{
    match entries_in(alloc, bytes, chunks)? {
        Some(slots) => survey.enter(alloc, inodes, i, &slots),
        None => {
            survey.bad_chunk = Some(i);
            Ok(())
        }
    }
}

// Looks at the names in inode i, if it is a directory and they are still looked at. Its blocks are read through `buffer`.
fn look_at_names<S: MetaRead>(
    alloc: Global,
    store: &mut S,
    inodes: &[Option<Brief>],
    i: u32,
    d: &Dinode,
    numbers: &[u32],
    buffer: &mut [u8],
    survey: &mut Survey,
) -> Result<(), StoreError>
    requires here { IfSome (S.store store.old).content (λ image. IsHere (S.store store.old).geometry (block image) inodes.now i d.now) }
    requires read { IfSome (S.store store.old).content (λ image. with_zeros numbers.now ≡ numbers_of (block image) d.now) }
    requires readable { is_directory d.now.mode ≡ true → IsReadable (S.store store.old).geometry d.now numbers.now }
    requires buffer { length buffer.old ≡ 4096 }
    ensures names { IfSome (S.store store.old).content (λ image.
        survey.old.claims.twice ≡ None → HasSeenNames (inodes_of (S.store store.old).geometry) i (reading_of (S.store store.old).geometry (block image)) survey.old
        → OnOk result (HasSeenNames (inodes_of (S.store store.old).geometry) (i + 1) (reading_of (S.store store.old).geometry (block image)) survey.new)) }
    ensures claims { survey.new.claims ≡ survey.old.claims }
    ensures sizes { (n : ℕ) → HasSizes n survey.old.names → HasSizes n survey.new.names }
    ensures buffer { length buffer.new ≡ 4096 }
    ensures unchanged { IsUnchanged (S.store store.old) (S.store store.new) }
    ensures failure { FailsJustAt (IsErrOf result Disk) (S.store store.old).disk (S.store store.new).disk }
{
    if !d.is_directory() {
        return Ok(());
    }
    if !survey.looks_at_names() {
        return Ok(());
    }
    let bytes = read_blocks(alloc, store, d, numbers, buffer)?;
    let chunks = (d.size / 512) as usize;
    Ok(look_at_slots(alloc, inodes, i, &bytes, chunks, survey)?)
}

// Looks at inode i, which is in use and has these numbers by index, and none past their end.
fn look_at_numbers<S: MetaRead>(
    alloc: Global,
    store: &mut S,
    inodes: &[Option<Brief>],
    i: u32,
    d: &Dinode,
    numbers: &[u32],
    buffer: &mut [u8],
    survey: &mut Survey,
) -> Result<(), Stop>
    requires here { IfSome (S.store store.old).content (λ image. IsHere (S.store store.old).geometry (block image) inodes.now i d.now) }
    requires numbers { length numbers.now ≤ 1036 }
    requires read { IfSome (S.store store.old).content (λ image. with_zeros numbers.now ≡ numbers_of (block image) d.now) }
    requires buffer { length buffer.old ≡ 4096 }
    requires room { HasRoom (S.store store.old).geometry survey.old }
    requires counted { survey.old.claims.count + 1037 < 2 ^ 32 }
    ensures part { IfSome (S.store store.old).content (λ image.
        IsSurvey (S.store store.old).geometry (reading_of (S.store store.old).geometry (block image)) i survey.old
        → IsPart (S.store store.old).geometry (block image)
        (λ _. IsSurvey (S.store store.old).geometry (reading_of (S.store store.old).geometry (block image)) (i + 1) survey.new) result) }
    ensures buffer { length buffer.new ≡ 4096 }
    ensures room { OnOk result (HasRoom (S.store store.old).geometry survey.new) }
    ensures counted { OnOk result (survey.new.claims.count ≤ survey.old.claims.count + 1037) }
    ensures unchanged { IsUnchanged (S.store store.old) (S.store store.new) }
    ensures failure { FailsJustAt (IsErrOf result (Failed Disk)) (S.store store.old).disk (S.store store.new).disk }
{
    let g = *store.geometry();
    if !has_right_fields(&g, d, numbers) {
        return Err(Stop::Found(Kind::Fields, i));
    }
    survey.claims.claim_all(d, below_size(d, numbers));
    Ok(look_at_names(alloc, store, inodes, i, d, numbers, buffer, survey)?)
}

// Looks at inode i, which is in use.
fn look_at<S: MetaRead>(
    alloc: Global,
    store: &mut S,
    inodes: &[Option<Brief>],
    i: u32,
    d: &Dinode,
    buffer: &mut [u8],
    numbers: &mut [u32],
    survey: &mut Survey,
) -> Result<(), Stop>
    requires here { IfSome (S.store store.old).content (λ image. IsHere (S.store store.old).geometry (block image) inodes.now i d.now) }
    requires buffer { length buffer.old ≡ 4096 }
    requires numbers { length numbers.old ≡ 1036 }
    requires room { HasRoom (S.store store.old).geometry survey.old }
    requires counted { survey.old.claims.count + 1037 < 2 ^ 32 }
    ensures part { IfSome (S.store store.old).content (λ image.
        IsSurvey (S.store store.old).geometry (reading_of (S.store store.old).geometry (block image)) i survey.old
        → IsPart (S.store store.old).geometry (block image)
        (λ _. IsSurvey (S.store store.old).geometry (reading_of (S.store store.old).geometry (block image)) (i + 1) survey.new) result) }
    ensures sizes { (length buffer.new ≡ 4096) × (length numbers.new ≡ 1036) }
    ensures room { OnOk result (HasRoom (S.store store.old).geometry survey.new) }
    ensures counted { OnOk result (survey.new.claims.count ≤ survey.old.claims.count + 1037) }
    ensures unchanged { IsUnchanged (S.store store.old) (S.store store.new) }
    ensures failure { FailsJustAt (IsErrOf result (Failed Disk)) (S.store store.old).disk (S.store store.new).disk }
{
    if d.indirect[0] == 0 {
        return look_at_numbers(alloc, store, inodes, i, d, &d.direct, buffer, survey);
    }
    let g = *store.geometry();
    if !g.is_body(BlockNo(d.indirect[0])) {
        return Err(Stop::Found(Kind::Fields, i));
    }
    let held = read_numbers(store, d, buffer, numbers)?;
    look_at_numbers(alloc, store, inodes, i, d, &numbers[..held], buffer, survey)
}

/// Looks at each inode that isn't settled. `claims` has the blocks of the others.
pub(crate) fn survey_inodes<S: MetaRead>(
    alloc: Global,
    store: &mut S,
    inodes: &[Option<Brief>],
    unsettled: &[Unsettled],
    claims: Claims,
) -> Result<Survey, Stop>
    requires kept { IfSome (S.store store.old).content (λ image.
        AreKept (S.store store.old).geometry (block image) (inodes_of (S.store store.old).geometry) inodes.now unsettled.now claims) }
    requires room { HasKept (S.store store.old).geometry (inodes_of (S.store store.old).geometry) inodes.now unsettled.now claims }
    requires groups { IfSome (S.store store.old).content (λ image.
        first_of_kind (S.store store.old).geometry (reading_of (S.store store.old).geometry (block image)) [] of_groups ≡ None) }
    ensures part { IsPartOf (S.store store.old) (λ g blocks s. IsSurvey g (reading_of g blocks) (inodes_of g) s) result }
    ensures room { IfOk result (HasRoom (S.store store.old).geometry) }
    ensures unchanged { IsUnchanged (S.store store.old) (S.store store.new) }
    ensures failure { FailsJustAt (IsErrOf result (Failed Disk)) (S.store store.old).disk (S.store store.new).disk }
{
    let g = *store.geometry();
    let mut survey = Survey::new(alloc, claims, g.groups * g.ipg)?;
    let mut buffer = [0; BLOCK];
    let mut numbers = [0; NUMBERS];
    for one in unsettled {
        look_at(
            alloc,
            store,
            inodes,
            one.ino,
            &one.inode,
            &mut buffer,
            &mut numbers,
            &mut survey,
        )?;
    }
    Ok(survey)
}
