//! A host in memory for tests and examples, whose calls fail where a test names them.
ghost use Rattle.std.specs.Prelude.{◌≡◌, ◌≢◌, ◌<◌, ◌∷◌, ◌++◌, [], OnOk, OnErr, Contains, IfOk, Some, None, Err, IsSome, IsTrue, vec_len, vec_capacity, is_ok, if◌then◌else◌};
ghost use Rattle.std.specs.Option.{option_copied, option_map, ForSome};
ghost use Rattle.lufs_base.specs.Causes.{counted};
ghost use Rattle.sector_disk.specs.MemDisk.{told_of as disk_told};
ghost use Rattle.host_io.specs.MemSink.{new_state as new_sink, told_of as sink_told};
ghost use Rattle.host_io.specs.MemSource.{new_state as new_source, told_of as source_told, set_to_fail};
ghost use Rattle.host_io.specs.MemHost.{new_state, call_of, calls_to_fail, asks_after, faults_after, absent_after, zeros_of, there_or_zeros, outside_of, FailedOrMem};
ghost use Rattle.host_io.specs.Named.{places_of};
ghost use Rattle.host_io.specs.Places.{here, lent, here_of, with_place};
ghost use Rattle.host_io.specs.Outside.{disk_of, source_of, answer_of, after_ask, with_disk, with_sink, IsLentDisk, IsLentSink, StartsAs, empty_sink};
ghost use Rattle.host_io.specs.declared.host.HostError.TheVariants.{Missing, Failed};
ghost use Rattle.host_io.specs.declared.host.AskKind.TheVariants.{TakeDisk, MakeDisk, TakeSource, TakeSink};

use crate::mem_sink::is_named;
use crate::named::{Named, find, give_back, lend, lend_new};
use crate::{Ask, AskAnswer, AskKind, Host, HostError, MemSink, MemSource};
use lufs_base::{Bytes, Mem};
use sector_disk::MemDisk;
use std::alloc::Global;
use std::marker::Model;

// The k-th call of what has this name, which is to fail.
#[derive(Drop)]
struct NamedCall {
    name: Bytes,
    k: u64,
}

/// A host in memory, with a time, disks, sources and sinks by name, and the calls that are to fail. It tells
/// everything.
#[derive(Drop)]
pub struct MemHost {
    alloc: Global,
    moment: u64,
    disks: Vec<Named<MemDisk>>,
    sources: Vec<Named<MemSource>>,
    sinks: Vec<Named<MemSink>>,
    asks: Vec<Ask>,
    fails: Vec<u64>,
    take_fails: Vec<NamedCall>,
    put_fails: Vec<NamedCall>,
    takes: u64,
    faults: u64,
    absent: u64,
}

impl Model for MemHost {
    ghost use Rattle.host_io.specs.MemHost.{State};

    ghost Value = { State };

    ghost view = { λ h. record {
      moment = h.moment;
      disks = h.disks.items;
      sources = h.sources.items;
      sinks = h.sinks.items;
      asks = h.asks.items;
      fails = h.fails.items;
      take_fails = h.take_fails.items;
      put_fails = h.put_fails.items;
      takes = h.takes;
      faults = h.faults;
      absent = h.absent;
    } };
}

// A disk of so many sectors of zeros, whose calls don't fail.
fn zero_disk(alloc: Global, sectors: u64) -> Result<MemDisk, Mem>
    ensures { IfOk result (λ disk. disk ≡ zeros_of sectors) }
{
    let bytes = sectors.checked_mul(512).ok_or(Mem)?;
    let image = vec![in alloc; 0u8; usize::try_from(bytes).map_err(|_| Mem)?]?;
    Ok(MemDisk::new(image, Vec::new(alloc)))
}

// Lends the disk of that name as it is, or one of so many sectors of zeros where there is none. An `Err` changes
// nothing.
fn lend_or_make(
    alloc: Global,
    disks: &mut Vec<Named<MemDisk>>,
    name: &[u8],
    sectors: u64,
) -> Result<MemDisk, Mem>
    ensures value { IfOk result (λ disk. disk ≡ there_or_zeros (here_of (places_of disks.old.items name.now)) sectors) }
    ensures ok { OnOk result (places_of disks.new.items ≡ with_place (places_of disks.old.items) name.now lent) }
    ensures err { OnErr result (disks.new.items ≡ disks.old.items) }
{
    match lend(disks, name) {
        Some(disk) => Ok(disk),
        None => {
            let disk = zero_disk(alloc, sectors)?;
            lend_new(alloc, disks, name)?;
            Ok(disk)
        }
    }
}

// Makes room in the list for an ask of this name.
fn make_room(alloc: Global, asks: &mut Vec<Ask>, name: &str) -> Result<Bytes, Mem>
    ensures name { IfOk result (λ kept. kept ≡ name.now) }
    ensures room { OnOk result (vec_len asks.new < vec_capacity asks.new) }
    ensures same { asks.new.items ≡ asks.old.items }
{
    asks.reserve(1)?;
    Bytes::from_slice(alloc, name.as_bytes())
}

// Lists an ask with its answer, for which there is room.
fn list(asks: &mut Vec<Ask>, kind: AskKind, name: Bytes, answer: AskAnswer)
    requires { vec_len asks.old < vec_capacity asks.old }
    ensures { asks.new.items ≡ asks.old.items ++ record { kind = kind; name = name; answer = answer } ∷ [] }
{
    asks.push_reserved(Ask { kind, name, answer });
}

// What a host answers an ask with, unless memory ran out.
fn answer_of<T>(given: &Result<T, HostError>) -> Option<AskAnswer>
    ensures { result ≡ answer_of given.now }
{
    match given {
        Ok(_) => Some(AskAnswer::Given),
        Err(HostError::Missing) => Some(AskAnswer::Missing),
        Err(HostError::Failed) => Some(AskAnswer::Failed),
        Err(HostError::Mem) => None,
    }
}

// Lists an ask with its answer, for which there is room, and counts one that wasn't given.
fn note(
    asks: &mut Vec<Ask>,
    faults: &mut u64,
    absent: &mut u64,
    kind: AskKind,
    name: Bytes,
    answer: Option<AskAnswer>,
)
    requires { vec_len asks.old < vec_capacity asks.old }
    ensures asks { asks.new.items ≡ asks_after kind name answer asks.old.items }
    ensures faults { faults.new ≡ faults_after answer faults.old }
    ensures absent { absent.new ≡ absent_after answer absent.old }
{
    match answer {
        Some(AskAnswer::Missing) => *absent = absent.saturating_add(1),
        Some(AskAnswer::Failed) => *faults = faults.saturating_add(1),
        Some(AskAnswer::Given) | None => {}
    }
    if let Some(answer) = answer {
        list(asks, kind, name, answer);
    }
}

// Lists the number of a call that is to fail, if it is one of what has that name.
fn push_call(fails: &mut Vec<u64>, call: &NamedCall, name: &str) -> Result<(), Mem>
    ensures { OnOk result (fails.new.items ≡ fails.old.items ++ call_of name.now call.now) }
{
    if call.name.as_slice() == name.as_bytes() {
        fails.push(call.k)?;
    }
    Ok(())
}

// The numbers of the calls that are to fail, of what has that name.
fn calls_to_fail(alloc: Global, calls: &[NamedCall], name: &str) -> Result<Vec<u64>, Mem>
    ensures { IfOk result (λ fails. fails.items ≡ calls_to_fail calls.now name.now) }
{
    let mut fails = Vec::new(alloc);
    for call in calls {
        push_call(&mut fails, call, name)?;
    }
    Ok(fails)
}

// Adds a call that is to fail. An `Err` changes nothing.
fn add_call(alloc: Global, calls: &mut Vec<NamedCall>, name: &str, k: u64) -> Result<(), Mem>
    ensures { calls.new.items ≡ (if is_ok result then calls.old.items ++ record { name = name.now; k = k } ∷ [] else calls.old.items) }
{
    let name = Bytes::from_slice(alloc, name.as_bytes())?;
    calls.push(NamedCall { name, k })?;
    Ok(())
}

// Lends the source of that name, whose calls of that name fail, unless the take itself is to fail. An `Err` changes
// nothing.
fn lend_source(
    alloc: Global,
    sources: &mut Vec<Named<MemSource>>,
    calls: &[NamedCall],
    is_to_fail: bool,
    name: &str,
) -> Result<MemSource, HostError>
    ensures named { IsTrue is_to_fail → FailedOrMem result }
    ensures only_named { result ≡ Err Failed → IsTrue is_to_fail }
    ensures value { IfOk result (λ source. option_map (set_to_fail (calls_to_fail calls.now name.now)) (here_of (places_of sources.old.items name.now)) ≡ Some source) }
    ensures missing { result ≡ Err Missing → here_of (places_of sources.old.items name.now) ≡ None }
    ensures ok { OnOk result (places_of sources.new.items ≡ with_place (places_of sources.old.items) name.now lent) }
    ensures err { OnErr result (sources.new.items ≡ sources.old.items) }
{
    if is_to_fail {
        return Err(HostError::Failed);
    }
    let fails = calls_to_fail(alloc, calls, name)?;
    match lend(sources, name.as_bytes()) {
        Some(source) => Ok(source.failing(fails)),
        None => Err(HostError::Missing),
    }
}

// Lends a new sink under that name, whose calls of that name fail, unless the take itself is to fail. An `Err` changes
// nothing.
fn lend_sink(
    alloc: Global,
    sinks: &mut Vec<Named<MemSink>>,
    calls: &[NamedCall],
    is_to_fail: bool,
    name: &str,
) -> Result<MemSink, HostError>
    ensures named { IsTrue is_to_fail → FailedOrMem result }
    ensures only_named { result ≡ Err Failed → IsTrue is_to_fail }
    ensures made { IfOk result (λ sink. sink ≡ new_sink (calls_to_fail calls.now name.now)) }
    ensures not_missing { result ≢ Err Missing }
    ensures ok { OnOk result (places_of sinks.new.items ≡ with_place (places_of sinks.old.items) name.now lent) }
    ensures err { OnErr result (sinks.new.items ≡ sinks.old.items) }
{
    if is_to_fail {
        return Err(HostError::Failed);
    }
    let sink = MemSink::new(calls_to_fail(alloc, calls, name)?);
    lend_new(alloc, sinks, name.as_bytes())?;
    Ok(sink)
}

impl MemHost {
    /// A host that holds nothing, at this time in seconds since 1970.
    pub fn new(alloc: Global, moment: u64) -> Self
        ensures { result ≡ new_state moment }
    {
        MemHost {
            alloc,
            moment,
            disks: Vec::new(alloc),
            sources: Vec::new(alloc),
            sinks: Vec::new(alloc),
            asks: Vec::new(alloc),
            fails: Vec::new(alloc),
            take_fails: Vec::new(alloc),
            put_fails: Vec::new(alloc),
            takes: 0,
            faults: 0,
            absent: 0,
        }
    }

    /// Holds the disk under the name; an older one of that name is dropped. An `Err` changes nothing.
    pub fn add_disk(&mut self, name: &str, disk: MemDisk) -> Result<(), Mem>
        ensures ok { OnOk result (places_of self.new.disks ≡ with_place (places_of self.old.disks) name.now (here disk)) }
        ensures rest { self.new ≡ record self.old { disks = self.new.disks } }
        ensures err { OnErr result (self.new ≡ self.old) }
    {
        lend_new(self.alloc, &mut self.disks, name.as_bytes())?;
        give_back(&mut self.disks, name.as_bytes(), disk);
        Ok(())
    }

    /// Holds a source of these bytes under the name; an older one of that name is dropped. An `Err` changes nothing.
    pub fn add_source(&mut self, name: &str, bytes: &[u8]) -> Result<(), Mem>
        ensures ok { OnOk result (places_of self.new.sources ≡ with_place (places_of self.old.sources) name.now (here (new_source bytes.now))) }
        ensures rest { self.new ≡ record self.old { sources = self.new.sources } }
        ensures err { OnErr result (self.new ≡ self.old) }
    {
        let source = MemSource::from_slice(self.alloc, bytes)?;
        lend_new(self.alloc, &mut self.sources, name.as_bytes())?;
        give_back(&mut self.sources, name.as_bytes(), source);
        Ok(())
    }

    /// Lets the k-th call that takes or makes something fail, counted from 1.
    pub fn fail_host(&mut self, k: u64) -> Result<(), Mem>
        ensures { self.new ≡ (if is_ok result then record self.old { fails = self.old.fails ++ k ∷ [] } else self.old) }
    {
        self.fails.push(k)?;
        Ok(())
    }

    /// Lets the k-th take of the source of that name fail, counted from 1, once the host lends it.
    pub fn fail_take(&mut self, name: &str, k: u64) -> Result<(), Mem>
        ensures { self.new ≡ (if is_ok result then record self.old { take_fails = self.old.take_fails ++ record { name = name.now; k = k } ∷ [] } else self.old) }
    {
        add_call(self.alloc, &mut self.take_fails, name, k)
    }

    /// Lets the k-th put of the sink of that name fail, counted from 1, once the sink is taken again.
    pub fn fail_put(&mut self, name: &str, k: u64) -> Result<(), Mem>
        ensures { self.new ≡ (if is_ok result then record self.old { put_fails = self.old.put_fails ++ record { name = name.now; k = k } ∷ [] } else self.old) }
    {
        add_call(self.alloc, &mut self.put_fails, name, k)
    }

    /// The bytes of the sink of that name, if there is one that isn't lent.
    pub fn sink(&self, name: &str) -> Option<&[u8]>
        ensures { option_copied result ≡ option_map (λ k. k.bytes) (here_of (places_of self.now.sinks name.now)) }
    {
        Some(find(&self.sinks, name.as_bytes())?.bytes())
    }

    /// The disk of that name, if there is one that isn't lent.
    pub fn disk(&self, name: &str) -> Option<&MemDisk>
        ensures { option_copied result ≡ here_of (places_of self.now.disks name.now) }
    {
        find(&self.disks, name.as_bytes())
    }
}

impl Host for MemHost {
    ghost use Rattle.host_io.specs.MemHost.{outside_of};

    type D = MemDisk;

    type S = MemSource;

    type K = MemSink;

    ghost outside = { λ h. outside_of h };

    fn faults(&self) -> u64 {
        self.faults
    }

    fn absent(&self) -> u64 {
        self.absent
    }

    fn moment(&mut self) -> u64 {
        self.moment
    }

    /// Fails exactly where the take was named.
    fn take_disk(&mut self, name: &str) -> Result<MemDisk, HostError>
        ensures named { Contains self.old.fails (counted self.old.takes) → FailedOrMem result }
        ensures only_named { result ≡ Err Failed → Contains self.old.fails (counted self.old.takes) }
        ensures value { IfOk result (λ disk. here_of (places_of self.old.disks name.now) ≡ Some disk) }
        ensures missing { result ≡ Err Missing → here_of (places_of self.old.disks name.now) ≡ None }
        ensures given { IfOk result (λ disk. IsSome (outside_of self.old).holds → disk_of (outside_of self.old) name.now ≡ Some (disk_told disk)) }
        ensures told_missing { result ≡ Err Missing → disk_of (outside_of self.old) name.now ≡ None }
        ensures after { outside_of self.new ≡ after_ask TakeDisk name.now (answer_of result) (outside_of self.old) }
    {
        self.takes = self.takes.saturating_add(1);
        let kept = make_room(self.alloc, &mut self.asks, name)?;
        if is_named(&self.fails, self.takes) {
            self.faults = self.faults.saturating_add(1);
            list(&mut self.asks, AskKind::TakeDisk, kept, AskAnswer::Failed);
            return Err(HostError::Failed);
        }
        let Some(disk) = lend(&mut self.disks, name.as_bytes()) else {
            self.absent = self.absent.saturating_add(1);
            list(&mut self.asks, AskKind::TakeDisk, kept, AskAnswer::Missing);
            return Err(HostError::Missing);
        };
        list(&mut self.asks, AskKind::TakeDisk, kept, AskAnswer::Given);
        Ok(disk)
    }

    /// Fails exactly where the make was named.
    fn make_disk(&mut self, name: &str, sectors: u64) -> Result<MemDisk, HostError>
        ensures named { Contains self.old.fails (counted self.old.takes) → FailedOrMem result }
        ensures only_named { result ≡ Err Failed → Contains self.old.fails (counted self.old.takes) }
        ensures value { IfOk result (λ disk. disk ≡ there_or_zeros (here_of (places_of self.old.disks name.now)) sectors) }
        ensures given { IfOk result (λ disk. IsSome (outside_of self.old).holds → StartsAs (disk_of (outside_of self.old) name.now) sectors (disk_told disk)) }
        ensures not_missing { result ≢ Err Missing }
        ensures after { outside_of self.new ≡ after_ask MakeDisk name.now (answer_of result) (outside_of self.old) }
    {
        self.takes = self.takes.saturating_add(1);
        let kept = make_room(self.alloc, &mut self.asks, name)?;
        if is_named(&self.fails, self.takes) {
            self.faults = self.faults.saturating_add(1);
            list(&mut self.asks, AskKind::MakeDisk, kept, AskAnswer::Failed);
            return Err(HostError::Failed);
        }
        let disk = lend_or_make(self.alloc, &mut self.disks, name.as_bytes(), sectors)?;
        list(&mut self.asks, AskKind::MakeDisk, kept, AskAnswer::Given);
        Ok(disk)
    }

    fn give_disk(&mut self, name: &str, disk: MemDisk)
        requires { ForSome (outside_of self.old).holds (IsLentDisk name.now) }
        ensures held { places_of self.new.disks ≡ with_place (places_of self.old.disks) name.now (here disk) }
        ensures rest { self.new ≡ record self.old { disks = self.new.disks } }
        ensures told { outside_of self.new ≡ with_disk name.now (disk_told disk) (outside_of self.old) }
    {
        give_back(&mut self.disks, name.as_bytes(), disk);
    }

    /// Fails exactly where the take was named.
    fn take_source(&mut self, name: &str) -> Result<MemSource, HostError>
        ensures named { Contains self.old.fails (counted self.old.takes) → FailedOrMem result }
        ensures only_named { result ≡ Err Failed → Contains self.old.fails (counted self.old.takes) }
        ensures value { IfOk result (λ source. option_map (set_to_fail (calls_to_fail self.old.take_fails name.now)) (here_of (places_of self.old.sources name.now)) ≡ Some source) }
        ensures missing { result ≡ Err Missing → here_of (places_of self.old.sources name.now) ≡ None }
        ensures given { IfOk result (λ source. IsSome (outside_of self.old).holds → source_of (outside_of self.old) name.now ≡ Some (source_told source)) }
        ensures told_missing { result ≡ Err Missing → source_of (outside_of self.old) name.now ≡ None }
        ensures after { outside_of self.new ≡ after_ask TakeSource name.now (answer_of result) (outside_of self.old) }
    {
        self.takes = self.takes.saturating_add(1);
        let kept = make_room(self.alloc, &mut self.asks, name)?;
        let is_to_fail = is_named(&self.fails, self.takes);
        let given = lend_source(
            self.alloc,
            &mut self.sources,
            &self.take_fails,
            is_to_fail,
            name,
        );
        note(
            &mut self.asks,
            &mut self.faults,
            &mut self.absent,
            AskKind::TakeSource,
            kept,
            answer_of(&given),
        );
        given
    }

    /// Fails exactly where the take was named.
    fn take_sink(&mut self, name: &str) -> Result<MemSink, HostError>
        ensures named { Contains self.old.fails (counted self.old.takes) → FailedOrMem result }
        ensures only_named { result ≡ Err Failed → Contains self.old.fails (counted self.old.takes) }
        ensures made { IfOk result (λ sink. sink ≡ new_sink (calls_to_fail self.old.put_fails name.now)) }
        ensures given { IfOk result (λ sink. IsSome (outside_of self.old).holds → sink_told sink ≡ empty_sink) }
        ensures not_missing { result ≢ Err Missing }
        ensures after { outside_of self.new ≡ after_ask TakeSink name.now (answer_of result) (outside_of self.old) }
    {
        self.takes = self.takes.saturating_add(1);
        let kept = make_room(self.alloc, &mut self.asks, name)?;
        let is_to_fail = is_named(&self.fails, self.takes);
        let given = lend_sink(
            self.alloc,
            &mut self.sinks,
            &self.put_fails,
            is_to_fail,
            name,
        );
        note(
            &mut self.asks,
            &mut self.faults,
            &mut self.absent,
            AskKind::TakeSink,
            kept,
            answer_of(&given),
        );
        given
    }

    fn give_sink(&mut self, name: &str, sink: MemSink)
        requires { ForSome (outside_of self.old).holds (IsLentSink name.now) }
        ensures held { places_of self.new.sinks ≡ with_place (places_of self.old.sinks) name.now (here sink) }
        ensures rest { self.new ≡ record self.old { sinks = self.new.sinks } }
        ensures told { outside_of self.new ≡ with_sink name.now (sink_told sink) (outside_of self.old) }
    {
        give_back(&mut self.sinks, name.as_bytes(), sink);
    }
}
