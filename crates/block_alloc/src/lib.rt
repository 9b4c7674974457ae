//! Free inodes and blocks of a store: counted, chosen for a call, taken and put back (`docs/DEFINITIONS.md`).
#![tactic(auto)]

mod choice;
mod free;
mod hands;
mod held;
mod marking;
mod marks;
mod records;
mod returning;
mod taken;
mod taking;

pub use choice::choose;
pub use free::count_free;
pub use hands::Hands;
pub use returning::put_back;
pub use taken::Taken;
pub use taking::take;
