//! The trait of a source, which gives the bytes that a command reads.
ghost use Rattle.std.specs.Prelude.{◌≡◌, ◌<◌, length};
ghost use Rattle.host_io.specs.Source.{SourceTold, Takes};

/// A take failed. The source's count of faults says that it did.
#[derive(Clone, Copy, PartialEq, Eq)]
pub struct SourceFault;

/// Gives bytes, one after the other (`docs/DEFINITIONS.md`, "What a host, a source and a sink tell").
pub trait Source: Drop {
    /// What the source tells of itself. It always tells its count of faults, and may leave out what is left.
    ghost told: { Self → SourceTold };

    /// How many takes failed.
    fn faults(&self) -> u64
        ensures { result ≡ (told self.now).faults };

    /// Puts the next bytes at the front of `out`, and answers how many: none only where nothing is left. After an `Err`
    /// nothing was taken, and `out` holds anything.
    fn take(&mut self, out: &mut [u8]) -> Result<usize, SourceFault>
        requires { 0 < length out.old }
        ensures { Takes result out.new (told self.old) (told self.new) };
}
