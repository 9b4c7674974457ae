//! Whether deltas may be those of one transaction.
ghost use Rattle.std.specs.Prelude.{◌≡◌, ◌↔◌, ◌&&◌, true};
ghost use Rattle.std.specs.List.{list_all};
ghost use Rattle.lufs_base.specs.Layout.{IsGeometry};
ghost use Rattle.volume_model.specs.Log.{AreLoggable};
ghost use Rattle.log_format.specs.Loggable.{is_logged, precedes, are_in_order};

use crate::kinds::logged_len;
use crate::records::{head_of, may_be_logged, may_precede};
use lufs_base::{Delta, Geometry};

// Whether the delta may be logged, with as many bytes as it logs.
fn is_logged(g: &Geometry, delta: &Delta) -> bool
    requires { IsGeometry g.now }
    ensures { result ≡ is_logged g.now delta.now }
{
    may_be_logged(g, delta.kind, delta.home, delta.len)
        && delta.bytes.len() == logged_len(delta.kind, delta.len) as usize
}

// Whether each of the deltas may be logged, with as many bytes as it logs.
fn are_logged(g: &Geometry, deltas: &[Delta]) -> bool
    requires { IsGeometry g.now }
    ensures { result ≡ list_all (is_logged g.now) deltas.now }
{
    deltas.iter().all(|delta| is_logged(g, delta))
}

// Whether the first may stand before the other.
#[tactic(auto, unfolding(volume_model::specs::Log::LogRecord::may_precede))]
fn precedes(delta: &Delta, later: &Delta) -> bool
    ensures { result ≡ precedes delta.now later.now }
{
    may_precede(head_of(delta), later.kind, later.home)
}

// Whether it may stand before each of these.
fn precedes_all(delta: &Delta, rest: &[Delta]) -> bool
    ensures { result ≡ list_all (precedes delta.now) rest.now }
{
    rest.iter().all(|later| precedes(delta, later))
}

// Whether each of the deltas may stand before all later ones.
fn are_in_order(deltas: &[Delta]) -> bool
    ensures { result ≡ are_in_order deltas.now }
{
    let mut rest = deltas;
    while let [delta, later @ ..] = rest {
        if !precedes_all(delta, later) {
            return false;
        }
        rest = later;
    }
    true
}

// The two tests, one after the other.
fn pass(g: &Geometry, deltas: &[Delta]) -> bool
    requires { IsGeometry g.now }
    ensures { result ≡ (list_all (is_logged g.now) deltas.now && are_in_order deltas.now) }
{
    are_logged(g, deltas) && are_in_order(deltas)
}

/// Whether the deltas may be those of one transaction: each may be logged, with as many bytes as it logs, and each may
/// stand before all later ones (`docs/FORMAT.md`, "Log records").
pub fn are_loggable(g: &Geometry, deltas: &[Delta]) -> bool
    requires { IsGeometry g.now }
    ensures { (result ≡ true) ↔ AreLoggable g.now deltas.now }
{
    pass(g, deltas)
}
