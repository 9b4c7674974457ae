//! The texts of scripts, replies and sessions: lines are read as calls, and replies, histories and summaries are
//! written (`docs/SCRIPTS.md`).
#![tactic(auto)]

mod arguments;
mod calls;
mod history;
mod lines;
mod numbers;
mod output;
mod replies;
mod script;
mod words;

pub use history::{history_text, session_text};
pub use lines::read_line;
pub use replies::{is_short, reply_text};
pub use script::{LinesError, ScriptLines, lines_of};
