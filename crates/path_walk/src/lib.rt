//! Paths, walked from the root over a store (`docs/definitions/calls-and-histories.md`, "The walk").
#![tactic(auto)]

mod error;
mod inodes;
mod links;
mod part_lookup;
mod parts;
mod refusals;
mod steps;
mod walked;
mod walking;

pub use error::WalkError;
pub use walked::Walked;
pub use walking::walk;

#[cfg(test)]
mod tests;
