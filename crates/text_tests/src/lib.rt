//! Tests of script_text: lines, replies and histories as texts. They stand in a crate of their own, since a crate with
//! tests is proved twice (`CONTRIBUTING.md`).
#![tactic(auto)]

#[cfg(test)]
mod texts;
