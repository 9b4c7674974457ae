//! The trait of a sink, which takes the bytes that a command prints.
ghost use Rattle.std.specs.Prelude.{◌≡◌};
ghost use Rattle.host_io.specs.Outside.{SinkTold, Puts};

/// A put failed. The sink's count of faults says that it did.
#[derive(Clone, Copy, PartialEq, Eq)]
pub struct SinkFault;

/// Takes bytes, one after the other (`docs/DEFINITIONS.md`, "What a host, a source and a sink tell").
pub trait Sink: Drop {
    /// What the sink tells of itself. It always tells its count of faults, and may leave out what it holds.
    ghost told: { Self → SinkTold };

    /// How many puts failed.
    fn faults(&self) -> u64
        ensures { result ≡ (told self.now).faults };

    /// Appends the bytes. After an `Err` only the first of them were appended: maybe none, maybe all.
    fn put(&mut self, bytes: &[u8]) -> Result<(), SinkFault>
        ensures { Puts bytes.now result (told self.old) (told self.new) };
}
