//! The command `drive`: the lines of a script are served over a volume by the turns of a schedule, in memory, and the volume
//! is then written back (`docs/SCRIPTS.md`).
#![tactic(auto)]

mod drive;
mod ending;
mod mount;
mod put;
mod session;
mod sources;

pub use drive::drive_named;
pub use ending::{DriveEnding, SinkName};
pub use mount::MountError;
pub use put::put_ending;
pub use session::Kept;
