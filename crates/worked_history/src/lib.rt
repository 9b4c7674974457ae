//! What calls and histories mean, computed: whole scripts to the texts of their replies, each refusal beside the one that is
//! tested after it, each limit, and small histories.
#![tactic(auto)]

mod bytes;
mod calls;
mod crashes;
mod histories;
mod limits;
mod lines;
mod renames;
mod trees;
mod walks;

pub use bytes::{bytes_told, largest_file, pointer_block_of_a_file, sizes_grown, volume_filled};
pub use calls::{
    attributes_changed, bytes_refused, directories_made, directories_removed, files_made,
    names_listed, names_of_one_inode, names_removed, symbolic_links, times,
};
pub use crashes::crash_safe_session;
pub use histories::{
    bytes_touched, commits_and_rolls, entries_of_lines, history_texts, legal_history,
    replays_of_histories, reservations, settled_bytes,
};
pub use limits::{blocks_used_up, inodes_used_up, most_chunks, most_links, slots_of_names, wants};
pub use lines::{
    example_of_replies, lines_numbered, reply_texts, synchronous_lines, words_of_lines,
};
pub use renames::{renames_done, renames_refused};
pub use trees::{right_trees, wrong_trees};
pub use walks::{links_on_the_way, long_names_on_the_way, parts_of_paths, rights_on_the_way};
