//! Which lines are served, how many turns they take, and how many a schedule gives.
ghost use Rattle.std.specs.Prelude.{◌≡◌};
ghost use Rattle.plain_session.specs.ServedLines.{served_call, served_line, turns_for, turns_of, turns_in};
ghost use Rattle.call_ops.specs.Served.{is_served, changes_names};

use tree_types::{Call, Line};

// Whether the call changes names of directories, and is served.
fn changes_names(call: &Call) -> bool
    ensures { result ≡ changes_names call.now }
{
    matches!(
        call,
        Call::Create { .. } | Call::Mkdir { .. } | Call::Remove { .. } | Call::Rmdir { .. }
    )
}

// Whether the call is one that is served.
fn is_served(call: &Call) -> bool
    ensures { result ≡ is_served call.now }
{
    changes_names(call)
        || matches!(
            call,
            Call::Stat { .. } | Call::Lstat { .. } | Call::List { .. }
        )
}

// The call of a line, if it is served.
fn served_call(sync: bool, call: Option<Call>) -> Option<Call>
    ensures { result ≡ served_call sync call }
{
    match call {
        Some(call) if !sync && is_served(&call) => Some(call),
        _ => None,
    }
}

/// The line as it is served: one whose call isn't served yet, or that is synchronous, counts as one without a call.
pub(crate) fn served_line(line: Line) -> Line
    ensures { result ≡ served_line line }
{
    Line {
        number: line.number,
        cred: line.cred,
        sync: false,
        call: served_call(line.sync, line.call),
    }
}

/// How many turns the line takes.
pub(crate) fn turns_of(line: &Line) -> usize
    ensures { result ≡ turns_of line.now }
{
    match &line.call {
        Some(call) if changes_names(call) => 4,
        _ => 2,
    }
}

/// How many turns a schedule gives the first stream: as many as it has bytes `0`. All others are skipped.
pub fn turns_in(schedule: &[u8]) -> usize
    ensures { result ≡ turns_in schedule.now }
{
    schedule.iter().filter(|b| **b == b'0').count()
}
