//! Tests of plain_calls: calls served over a small volume in memory. They stand in a crate of their own, since a crate
//! with tests is proved twice (`CONTRIBUTING.md`).
#![tactic(auto)]

#[cfg(test)]
mod served;
