//! The trait of a host, which lends disks, sources and sinks by name, and the values that record what it was asked.
ghost use Rattle.std.specs.Prelude.{◌≡◌, ◌≢◌, Some, None, Err, IfSome, IfOk, IsSome};
ghost use Rattle.std.specs.Option.{ForSome};
ghost use Rattle.host_io.specs.Outside.{Outside, disk_of, source_of, answer_of, after_ask, with_disk, with_sink, IsLentDisk, IsLentSink, StartsAs, empty_sink};
ghost use Rattle.host_io.specs.declared.host.HostError.TheVariants.{Missing};
ghost use Rattle.host_io.specs.declared.host.AskKind.TheVariants.{TakeDisk, MakeDisk, TakeSource, TakeSink};

use crate::{Sink, Source};
use lufs_base::{Bytes, Mem};
use sector_disk::Disk;

/// Why a host gave nothing.
#[derive(Clone, Copy, PartialEq, Eq)]
pub enum HostError {
    /// There is nothing of that name.
    Missing,
    /// The host failed.
    Failed,
    /// Memory ran out.
    Mem,
}

impl From<Mem> for HostError {
    ghost use Rattle.host_io.specs.declared.host.HostError.TheVariants.{Mem};

    ghost from_gives = { λ _ e. e ≡ Mem };

    fn from(_: Mem) -> Self {
        HostError::Mem
    }
}

/// What a host was asked for.
#[derive(Clone, Copy, PartialEq, Eq)]
pub enum AskKind {
    TakeDisk,
    MakeDisk,
    TakeSource,
    TakeSink,
}

/// What the host answered. An ask for which memory ran out isn't listed.
#[derive(Clone, Copy, PartialEq, Eq)]
pub enum AskAnswer {
    Given,
    Missing,
    Failed,
}

/// One ask of a host.
#[derive(Drop)]
pub struct Ask {
    pub kind: AskKind,
    pub name: Bytes,
    pub answer: AskAnswer,
}

/// The outside of a command. It lends disks, sources and sinks by name, takes disks and sinks back, and tells the time.
/// The name `-` is standard output (`docs/DEFINITIONS.md`, "What a host, a source and a sink tell").
pub trait Host {
    type D: Disk;

    type S: Source;

    type K: Sink;

    /// What the host tells of the outside. It always tells its counts, and may leave out the rest.
    ghost outside: { Self → Outside };

    /// How many takes and makes failed.
    fn faults(&self) -> u64
        ensures { result ≡ (outside self.now).faults };

    /// How many takes were of a disk or a source that isn't there.
    fn absent(&self) -> u64
        ensures { result ≡ (outside self.now).absent };

    /// The time, in seconds since 1970.
    fn moment(&mut self) -> u64
        ensures value { IfSome (outside self.old).moment (λ moment. result ≡ moment) }
        ensures after { outside self.new ≡ outside self.old };

    /// Lends the disk of that name.
    fn take_disk(&mut self, name: &str) -> Result<Self::D, HostError>
        ensures given { IfOk result (λ disk. IsSome (outside self.old).holds → disk_of (outside self.old) name.now ≡ Some (Self.D.told disk)) }
        ensures missing { result ≡ Err Missing → disk_of (outside self.old) name.now ≡ None }
        ensures after { outside self.new ≡ after_ask TakeDisk name.now (answer_of result) (outside self.old) };

    /// Lends the disk of that name as it is. Where there is none, it makes one of so many sectors of zeros and
    /// lends that. It never answers `Missing`.
    fn make_disk(&mut self, name: &str, sectors: u64) -> Result<Self::D, HostError>
        ensures given { IfOk result (λ disk. IsSome (outside self.old).holds → StartsAs (disk_of (outside self.old) name.now) sectors (Self.D.told disk)) }
        ensures not_missing { result ≢ Err Missing }
        ensures after { outside self.new ≡ after_ask MakeDisk name.now (answer_of result) (outside self.old) };

    /// Takes a disk back that was lent under that name, as it is. It takes no memory.
    fn give_disk(&mut self, name: &str, disk: Self::D)
        requires { ForSome (outside self.old).holds (IsLentDisk name.now) }
        ensures { outside self.new ≡ with_disk name.now (Self.D.told disk) (outside self.old) };

    /// Lends the source of that name, which isn't given back.
    fn take_source(&mut self, name: &str) -> Result<Self::S, HostError>
        ensures given { IfOk result (λ source. IsSome (outside self.old).holds → source_of (outside self.old) name.now ≡ Some (Self.S.told source)) }
        ensures missing { result ≡ Err Missing → source_of (outside self.old) name.now ≡ None }
        ensures after { outside self.new ≡ after_ask TakeSource name.now (answer_of result) (outside self.old) };

    /// Makes an empty sink of that name, which replaces an older one, and lends it. It never answers
    /// `Missing`.
    fn take_sink(&mut self, name: &str) -> Result<Self::K, HostError>
        ensures given { IfOk result (λ sink. IsSome (outside self.old).holds → Self.K.told sink ≡ empty_sink) }
        ensures not_missing { result ≢ Err Missing }
        ensures after { outside self.new ≡ after_ask TakeSink name.now (answer_of result) (outside self.old) };

    /// Takes a sink back that was lent under that name, as it is. It takes no memory.
    fn give_sink(&mut self, name: &str, sink: Self::K)
        requires { ForSome (outside self.old).holds (IsLentSink name.now) }
        ensures { outside self.new ≡ with_sink name.now (Self.K.told sink) (outside self.old) };
}
