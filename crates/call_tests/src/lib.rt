//! Tests of calls, asked and planned on small volumes. They stand in a crate of their own, since a crate with tests is
//! proved twice (`CONTRIBUTING.md`).
#![tactic(auto)]

#[cfg(test)]
mod calls;
#[cfg(test)]
mod names;
#[cfg(test)]
mod volume;
