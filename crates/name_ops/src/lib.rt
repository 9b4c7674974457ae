//! Calls on names, asked and planned over a store (`docs/definitions/changes.md`, "Plans").
#![tactic(auto)]

mod asking;
mod create;
mod found;
mod gained;
mod links;
mod mkdir;
mod remove;
mod rmdir;
mod wanted;

pub use create::{plan_create, wants_create};
pub use mkdir::{plan_mkdir, wants_mkdir};
pub use remove::{plan_remove, wants_remove};
pub use rmdir::{plan_rmdir, wants_rmdir};
pub use wanted::Wanted;
