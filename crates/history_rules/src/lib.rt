//! What follows from the definitions of calls and histories: laws of trees under calls, and of histories.
#![tactic(auto)]

mod histories;
mod laws;

pub use histories::{histories_grow, histories_stay_right, moments_join, opening_settles};
pub use laws::{
    files_stay_right, inodes_and_blocks_counted, inodes_made, links_counted, links_entered,
    numbers_stay_in_range, refused_changes_nothing, shapes_are_enough, trees_stay_right, walks,
};
