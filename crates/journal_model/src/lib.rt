//! The journal of a volume as a state machine of device calls. The definitions stand in `specs/`, a
//! file for each notion (`docs/DEFINITIONS.md`); their values on small journals are functions here.
#![tactic(auto)]

mod worked;

pub use worked::{commits, freed_blocks, rolls, turns};
