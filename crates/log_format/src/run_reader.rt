//! Reads a run as its payload comes. Of its deltas it keeps a tally, and of its bytes those of the
//! record that isn't whole yet.
ghost use Rattle.std.specs.Prelude.{◌≡◌, ◌<◌, ◌≤◌, ◌+◌, ◌*◌, ◌^◌, ℕ, List, [], length, drop, IfOk, OnOk, IsErrOf};
ghost use Rattle.lufs_base.specs.Layout.{IsGeometry};
ghost use Rattle.lufs_base.specs.declared.geometry.Geometry.{Geometry};
ghost use Rattle.lufs_base.specs.declared.delta.Delta.{Delta};
ghost use Rattle.volume_model.specs.Log.{front_of, run_of};
ghost use Rattle.log_format.specs.declared.records.RunError.TheVariants.{Bad};
ghost use Rattle.log_format.specs.BodyHomes.{AreInBodies};
ghost use Rattle.log_format.specs.Heads.{may_follow};
ghost use Rattle.log_format.specs.RunReading.{IsTally, IsFound, FitsIn, IsCounted, HasSkipped, StopsAt, IsBadAfter, HasRead, HasReadMore, IsBadWith, IsTotal, bytes_read};

use crate::RunError;
use crate::bodies::BodyHomes;
use crate::kinds::{COMMIT, HEAD, kind_of, logged_len};
use crate::records::{RecordHead, is_commit, may_precede};
use lufs_base::{DeltaKind, Geometry, get_u32, get_u64};
use std::alloc::Global;

/// What is kept of the deltas of a run.
#[derive(Clone, Copy, Debug, PartialEq, Eq)]
pub struct Tally {
    /// How many there are.
    pub deltas: u32,
    /// The bytes of their records.
    pub bytes: u32,
    // What the head of the last one says, which alone decides what may stand after them.
    last: Option<RecordHead>,
}

// What stands at the front of bytes.
#[derive(Clone, Copy, Debug)]
enum Found {
    Logged(RecordHead),
    Commit,
    // The bytes end before the record does.
    Cut,
    // A record that breaks a rule.
    Wrong,
}

// Whether a delta of this kind and home may stand after the last one.
fn may_follow(last: Option<RecordHead>, kind: DeltaKind, home: u64) -> bool
    ensures { result ≡ may_follow last kind home }
{
    match last {
        None => true,
        Some(head) => may_precede(head, kind, home),
    }
}

// What stands at the front of the bytes, after deltas of this tally. `homes` saves divisions.
fn find_front(g: &Geometry, tid: u64, tally: &Tally, homes: &mut BodyHomes, bytes: &[u8]) -> Found
    requires geometry { IsGeometry g.now }
    requires bodies { AreInBodies g.now homes.old }
    ensures bodies { AreInBodies g.now homes.new }
    ensures fits { FitsIn bytes.now result }
    ensures value { (before : List Delta) → IsTally g.now before tally.now → IsFound g.now before bytes.now (front_of g.now tid before bytes.now) result }
{
    if bytes.len() < HEAD {
        return Found::Cut;
    }
    let home = get_u64(bytes, 0);
    let len = get_u32(bytes, 8);
    let record_type = get_u32(bytes, 12);
    if record_type == COMMIT {
        if is_commit(tid, tally.deltas as usize, bytes) {
            return Found::Commit;
        }
        return Found::Wrong;
    }
    let Some(kind) = kind_of(record_type) else {
        return Found::Wrong;
    };
    if !homes.may_be_logged(g, kind, home, len) {
        return Found::Wrong;
    }
    if !may_follow(tally.last, kind, home) {
        return Found::Wrong;
    }
    if bytes.len() - HEAD < logged_len(kind, len) as usize {
        return Found::Cut;
    }
    Found::Logged(RecordHead { kind, home, len })
}

// Where the deltas at the front of a run's bytes end, and whether a commit record stands there. They are
// added to the tally.
fn skip_deltas(
    g: &Geometry,
    tid: u64,
    tally: &mut Tally,
    bytes: &[u8],
) -> Result<(usize, bool), RunError>
    requires geometry { IsGeometry g.now }
    requires counted { IsCounted tally.old }
    requires room { tally.old.bytes + length bytes.now < 2 ^ 32 }
    ensures counted { IsCounted tally.new }
    ensures at { IfOk result (λ end. (end.0 ≤ length bytes.now) × (tally.new.bytes ≡ tally.old.bytes + end.0)) }
    ensures skipped { IfOk result (λ end. HasSkipped g.now tid bytes.now end.0 tally.old tally.new) }
    ensures stop { IfOk result (λ end. StopsAt g.now tid (drop end.0 bytes.now) end.1 tally.new) }
    ensures bad { IsErrOf result Bad → IsBadAfter g.now tid bytes.now tally.old }
{
    let mut homes = BodyHomes::none();
    let mut at = 0;
    loop {
        match find_front(g, tid, tally, &mut homes, &bytes[at..]) {
            Found::Logged(head) => {
                let size = HEAD + logged_len(head.kind, head.len) as usize;
                at += size;
                tally.deltas += 1;
                tally.bytes += size as u32;
                tally.last = Some(head);
            }
            Found::Commit => return Ok((at, true)),
            Found::Cut => return Ok((at, false)),
            Found::Wrong => return Err(RunError::Bad),
        }
    }
}

// Removes so many bytes at the front.
fn remove_front(bytes: &mut Vec<u8>, count: usize)
    requires { count ≤ length bytes.old.items }
    ensures { bytes.new.items ≡ drop count bytes.old.items }
{
    let len = bytes.len();
    bytes.copy_within(count..len, 0);
    bytes.truncate(len - count);
}

/// A run that is read as its payload comes (`docs/FORMAT.md`, "Log records").
#[derive(Debug, Drop)]
pub struct RunReader {
    tid: u64,
    tally: Tally,
    // The bytes after the deltas of the tally: of a record that isn't whole, or of the commit record.
    kept: Vec<u8>,
    committed: bool,
}

impl RunReader {
    /// A reader that has read nothing of a run of transaction `tid`.
    pub fn new(alloc: Global, tid: u64) -> Self
        ensures tid { result.tid ≡ tid }
        ensures counted { (IsCounted result.tally) × (bytes_read result ≡ 0) }
        ensures read { (g : Geometry) → HasRead g [] result }
    {
        RunReader {
            tid,
            tally: Tally {
                deltas: 0,
                bytes: 0,
                last: None,
            },
            kept: Vec::new(alloc),
            committed: false,
        }
    }

    /// Begins a run of transaction `tid`.
    pub fn begin(&mut self, tid: u64)
        ensures tid { self.new.tid ≡ tid }
        ensures counted { (IsCounted self.new.tally) × (bytes_read self.new ≡ 0) }
        ensures read { (g : Geometry) → HasRead g [] self.new }
    {
        self.tid = tid;
        self.tally = Tally {
            deltas: 0,
            bytes: 0,
            last: None,
        };
        self.kept.clear();
        self.committed = false;
    }

    /// Reads on in the next bytes of the payload. After an `Err` the run is to be begun again.
    pub fn feed(&mut self, g: &Geometry, bytes: &[u8]) -> Result<(), RunError>
        requires geometry { IsGeometry g.now }
        requires counted { IsCounted self.old.tally }
        requires room { bytes_read self.old + length bytes.now < 2 ^ 32 }
        ensures counted { OnOk result (IsCounted self.new.tally) }
        ensures read { OnOk result (HasReadMore g.now bytes.now self.old self.new) }
        ensures bad { IsErrOf result Bad → IsBadWith g.now bytes.now self.old }
    {
        self.kept.extend_from_slice(bytes)?;
        let (end, committed) = skip_deltas(g, self.tid, &mut self.tally, &self.kept)?;
        remove_front(&mut self.kept, end);
        self.committed = committed;
        Ok(())
    }

    /// The tally of the run's deltas, if what was read is a whole run: else it ends before its commit record.
    pub fn total(&self) -> Option<Tally>
        ensures { (g : Geometry) (read : List ℕ) → HasRead g read self.now → IsTotal (run_of g self.now.tid read) result }
    {
        if self.committed {
            Some(self.tally)
        } else {
            None
        }
    }
}
