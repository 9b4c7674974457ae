//! Tests of fsck_core: a volume for each kind of finding. They stand in a crate of their own, since a crate with
//! tests is proved twice (`CONTRIBUTING.md`).
#![tactic(auto)]

#[cfg(test)]
mod findings;
