//! The outside of the program: disks, sources and sinks over files, standard output, and the clock. They are proved to
//! keep the clauses of their traits, and tell nothing of what files hold.
#![tactic(auto)]

mod file_disk;
mod file_host;
mod file_sink;
mod file_source;

pub use file_disk::FileDisk;
pub use file_host::FileHost;
pub use file_sink::FileSink;
pub use file_source::FileSource;

#[cfg(test)]
mod tests;
