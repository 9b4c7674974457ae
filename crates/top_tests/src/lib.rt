//! Tests of the commands, over a host in memory. They stand in a crate of their own, since a crate with tests is proved
//! twice (`CONTRIBUTING.md`).
#![tactic(auto)]

#[cfg(test)]
mod check;
#[cfg(test)]
mod mkfs;
#[cfg(test)]
mod scan;
#[cfg(test)]
mod sessions;
#[cfg(test)]
mod volumes;
