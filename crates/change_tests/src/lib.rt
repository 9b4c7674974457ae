//! Tests of the crates below the calls: drafts, directories and files. They stand in a crate of their own,
//! since a crate with tests is proved twice (`CONTRIBUTING.md`).
#![tactic(auto)]

#[cfg(test)]
mod directories;
#[cfg(test)]
mod drafts;
#[cfg(test)]
mod files;
#[cfg(test)]
mod freed;
#[cfg(test)]
mod volume;
