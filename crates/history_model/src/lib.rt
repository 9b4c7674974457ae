//! What calls and histories mean (`docs/CALLS.md`, `docs/SCRIPTS.md`). The definitions stand in `specs/`, one file for
//! each notion.
#![tactic(auto)]
