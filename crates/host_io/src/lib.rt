//! The outside of a command: a host lends it disks, sources and sinks by name and tells the time. A host in memory is
//! there for tests.
#![tactic(auto)]

mod host;
mod mem_host;
mod mem_sink;
mod mem_source;
mod named;
mod sink;
mod source;
#[cfg(test)]
mod tests;
mod whole;

pub use host::{Ask, AskAnswer, AskKind, Host, HostError};
pub use mem_host::MemHost;
pub use mem_sink::MemSink;
pub use mem_source::MemSource;
pub use sink::{Sink, SinkFault};
pub use source::{Source, SourceFault};
pub use whole::{ReadError, read_whole};
