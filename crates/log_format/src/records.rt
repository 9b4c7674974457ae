//! The records of a run, read with their deltas: which deltas may be logged, and in which order.
ghost use Rattle.std.specs.Prelude.{◌≡◌, ◌<◌, ◌≤◌, ℕ, List, length, IfOk};
ghost use Rattle.lufs_base.specs.Layout.{IsGeometry};
ghost use Rattle.volume_model.specs.Log.{is_home_of, is_part_of_block, may_be_logged, may_precede, Whole, front_of, run_of, AreLoggable};
ghost use Rattle.lufs_base.specs.declared.delta.Delta.{Delta};
ghost use Rattle.lufs_base.specs.declared.geometry.Geometry.{Geometry};
ghost use Rattle.log_format.specs.declared.records.RunError.TheVariants.{Mem};
ghost use Rattle.log_format.specs.InOrder.{InOrder, last_of, may_stand_after};
ghost use Rattle.log_format.specs.Answers.{IsFront, LoggedIsNext, IsRun};
ghost use Rattle.log_format.specs.Heads.{head_of, bare, is_commit_after};

use crate::kinds::{COMMIT, HEAD, kind_of, logged_len};
use lufs_base::{
    BLOCK, BlockNo, Bytes, Delta, DeltaKind, DeltaList, Geometry, Mem, Region, are_zeros, get_u32,
    get_u64,
};
use std::alloc::{AllocError, Global};

/// What the payload of a run is.
#[derive(Debug, Drop)]
pub enum Run {
    /// A committed transaction of these deltas.
    Whole(DeltaList),
    /// The ring ends the run before its commit record.
    Short,
}

/// Why there is no run.
#[derive(Clone, Copy, Debug, PartialEq, Eq)]
pub enum RunError {
    /// A record breaks a rule of the log.
    Bad,
    /// Out of memory.
    Mem,
}

impl From<lufs_base::Mem> for RunError {
    ghost from_gives = { λ _ e. e ≡ Mem };

    fn from(_: lufs_base::Mem) -> RunError {
        RunError::Mem
    }
}

impl From<AllocError> for RunError {
    ghost from_gives = { λ _ e. e ≡ Mem };

    fn from(_: AllocError) -> RunError {
        RunError::Mem
    }
}

// What stands at the front of the rest of a payload.
#[derive(Debug, Drop)]
enum Front {
    Logged(Delta),
    Commit,
    // The bytes end before the record does.
    Cut,
    // A record that breaks a rule.
    Wrong,
}

/// Whether deltas of a kind lie on such blocks.
pub(crate) fn is_home_of(kind: DeltaKind, region: Region) -> bool
    ensures { result ≡ is_home_of kind region }
{
    match kind {
        DeltaKind::Group => matches!(region, Region::GroupBlock(_)),
        DeltaKind::Inode => matches!(region, Region::Inodes(_)),
        _ => matches!(region, Region::Body(_)),
    }
}

/// Whether a delta of a kind may lie at this place of its block, with this length.
pub(crate) fn is_part_of_block(kind: DeltaKind, place: u32, len: u32) -> bool
    requires { place < 4096 }
    ensures { result ≡ is_part_of_block kind place len }
{
    match kind {
        DeltaKind::Group => place == 0 && len == 416,
        DeltaKind::Inode => place % 128 == 0 && len == 128,
        DeltaKind::Chunk => place % 512 == 0 && len == 512,
        DeltaKind::Pointers => place % 4 == 0 && len % 4 == 0 && 4 <= len && len <= 4096 - place,
        DeltaKind::Zero => place == 0 && len == 4096,
        DeltaKind::LinkText => place == 0 && 1 <= len && len <= 1024,
        DeltaKind::Cancel => place == 0 && len == 4096,
    }
}

/// Whether a delta of this kind may have this home and this length.
#[tactic(auto, unfolding(volume_model::specs::Log::LogRecord::may_be_logged))]
pub(crate) fn may_be_logged(g: &Geometry, kind: DeltaKind, home: u64, len: u32) -> bool
    requires { IsGeometry g.now }
    ensures { result ≡ may_be_logged g.now kind home len }
{
    if home / BLOCK as u64 >= u64::from(g.total()) {
        return false;
    }
    let region = g.region(BlockNo((home / BLOCK as u64) as u32));
    is_home_of(kind, region) && is_part_of_block(kind, (home % BLOCK as u64) as u32, len)
}

/// What the head of a delta's record says.
#[derive(Clone, Copy, Debug, PartialEq, Eq)]
pub(crate) struct RecordHead {
    pub(crate) kind: DeltaKind,
    pub(crate) home: u64,
    pub(crate) len: u32,
}

pub(crate) fn head_of(d: &Delta) -> RecordHead
    ensures { result ≡ head_of d.now }
{
    RecordHead {
        kind: d.kind,
        home: d.home,
        len: d.len,
    }
}

// Whether a delta with this head may stand before another of this kind and home.
#[tactic(auto, unfolding(volume_model::specs::Log::LogRecord::may_precede))]
pub(crate) fn may_precede(d: RecordHead, kind: DeltaKind, home: u64) -> bool
    ensures { result ≡ may_precede (bare d) kind home }
{
    if d.home > home {
        return false;
    }
    if d.home == home && !(d.kind.is_zero_block() && !kind.is_zero_block()) {
        return false;
    }
    if d.kind.has_bytes() && kind.has_bytes() && u64::from(d.len) > home - d.home {
        return false;
    }
    !(d.kind.is_cancel() || kind.is_cancel()) || d.home / BLOCK as u64 != home / BLOCK as u64
}

// Whether the bytes are the commit record after so many deltas, with nothing but zeros after it up to
// the end of its sector, the last of the run.
pub(crate) fn is_commit(tid: u64, count: usize, bytes: &[u8]) -> bool
    requires { 16 ≤ length bytes.now }
    ensures { result ≡ is_commit_after tid count bytes.now }
{
    get_u64(bytes, 0) == tid
        && get_u32(bytes, 8) as usize == count
        && bytes.len() - HEAD < 504
        && are_zeros(&bytes[HEAD..])
}

// Whether a delta of this kind and home may stand after the last of these.
#[tactic(auto, unfolding(volume_model::specs::Log::LogRecord::may_precede))]
fn may_stand_after_last(before: &[Delta], kind: DeltaKind, home: u64) -> bool
    ensures { result ≡ may_stand_after (last_of before.now) kind home }
{
    match before.last() {
        None => true,
        Some(d) => may_precede(head_of(d), kind, home),
    }
}

// What stands at the front of the bytes, after these deltas of the transaction. Only the last of them
// is looked at, since what may stand after it may stand after each.
#[tactic(auto, unfolding(volume_model::specs::Log::LogRun::front_of))]
fn read_front(
    alloc: Global,
    g: &Geometry,
    tid: u32,
    before: &[Delta],
    bytes: &[u8],
) -> Result<Front, Mem>
    requires geometry { IsGeometry g.now }
    requires order { InOrder g.now before.now }
    ensures value { IfOk result (IsFront (front_of g.now tid before.now bytes.now)) }
    ensures next { IfOk result (LoggedIsNext g.now before.now bytes.now) }
{
    if bytes.len() < HEAD {
        return Ok(Front::Cut);
    }
    let home = get_u64(bytes, 0);
    let len = get_u32(bytes, 8);
    let record_type = get_u32(bytes, 12);
    if record_type == COMMIT {
        if is_commit(u64::from(tid), before.len(), bytes) {
            return Ok(Front::Commit);
        }
        return Ok(Front::Wrong);
    }
    let Some(kind) = kind_of(record_type) else {
        return Ok(Front::Wrong);
    };
    if !may_be_logged(g, kind, home, len) {
        return Ok(Front::Wrong);
    }
    if !may_stand_after_last(before, kind, home) {
        return Ok(Front::Wrong);
    }
    let size = logged_len(kind, len) as usize;
    if bytes.len() - HEAD < size {
        return Ok(Front::Cut);
    }
    let logged = Bytes::from_slice(alloc, &bytes[HEAD..HEAD + size])?;
    Ok(Front::Logged(Delta {
        kind,
        home,
        len,
        bytes: logged,
    }))
}

/// Reads the payload of a run of transaction `tid` (`docs/FORMAT.md`, "Log records").
pub fn read_run(alloc: Global, g: &Geometry, tid: u32, payload: &[u8]) -> Result<Run, RunError>
    requires { IsGeometry g.now }
    ensures { IsRun (run_of g.now tid payload.now) result }
{
    let mut deltas = DeltaList::new(alloc);
    let mut at = 0;
    loop {
        match read_front(alloc, g, tid, deltas.as_slice(), &payload[at..])? {
            Front::Logged(delta) => {
                at += HEAD + logged_len(delta.kind, delta.len) as usize;
                deltas.push(delta)?;
            }
            Front::Commit => return Ok(Run::Whole(deltas)),
            Front::Cut => return Ok(Run::Short),
            Front::Wrong => return Err(RunError::Bad),
        }
    }
}
