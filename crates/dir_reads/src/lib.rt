//! Directories, read with the change that a call is making: names looked up and listed, where a new one has room, and a
//! directory opened to be changed (`docs/definitions/changes.md`, "Directories in a draft").
#![tactic(auto)]

mod chunk_list;
mod directory;
mod listing;
mod numbers;
mod record;
mod search;
mod space;
mod window;

pub use chunk_list::{CHUNKS, MOST_CHUNKS, Opened};
pub use directory::{Directory, Found, Wanted};
pub use listing::entries;
pub use search::{is_empty, lookup};
pub use space::{Room, can_enter};
