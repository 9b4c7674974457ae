//! What a session keeps of what it did: entries, commits and rolls.
use crate::{Call, Cause, Cred, Reply};

/// A line that was carried out or refused, in the order in which a session did so
/// (`docs/SCRIPTS.md`, "The history"). `start`, `at` and `told` count the listed calls of the disk.
#[derive(Debug, Drop)]
pub struct Entry {
    /// The stream that the line is of, from 0.
    pub stream: u8,
    /// The number of the line in its script.
    pub line: u32,
    /// The inode that the call made.
    pub ino: Option<u32>,
    /// When the step in which the call was carried out began.
    pub start: u64,
    /// When that step ended.
    pub at: u64,
    /// When the reply was given, if it was.
    pub told: Option<u64>,
    /// Whether the reply waits until the entry is committed.
    pub sync: bool,
    pub reply: Reply,
    /// None where the line isn't a call.
    pub call: Option<Call>,
    pub cred: Cred,
}

/// A transaction was closed: it holds the entries up to number `boundary`.
#[derive(Clone, Copy, Debug, PartialEq, Eq)]
pub struct Commit {
    pub boundary: u32,
    pub cause: Cause,
}

/// A roll of the transactions up to number `through` was begun.
#[derive(Clone, Copy, Debug, PartialEq, Eq)]
pub struct RollNote {
    pub through: u32,
    pub cause: Cause,
}
