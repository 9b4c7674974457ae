//! The lines of a whole script, read.
ghost use Rattle.std.specs.Prelude.{◌≡◌, ◌≤◌, ◌<◌, ◌==◌, ◌++◌, ◌+◌, length, drop, Err, IfOk, OnOk};
ghost use Rattle.std.specs.List.{position, position_or_len};
ghost use Rattle.std.specs.Option.{option_to_list};
ghost use Rattle.history_model.specs.Lines.{line_of, lines_of, texts_in, first_caller};
ghost use Rattle.script_text.specs.declared.script.LinesError.TheVariants.{TooMany};

use crate::lines::read_line;
use lufs_base::Mem;
use std::alloc::Global;
use tree_types::{Cred, Line};

/// As whom a stream begins.
const FIRST_CALLER: Cred = Cred { uid: 0, gid: 0 };

/// The lines of a script.
#[derive(Debug, Drop)]
pub struct ScriptLines {
    /// Those that aren't skipped, in order.
    pub lines: Vec<Line>,
    /// How many there are, those that are skipped among them.
    pub count: u32,
}

/// Why the lines of a script weren't read.
#[derive(Clone, Copy, Debug, PartialEq, Eq)]
pub enum LinesError {
    /// There are more lines than may be read.
    TooMany,
    /// Memory ran out.
    Mem,
}

impl From<Mem> for LinesError {
    ghost use Rattle.script_text.specs.declared.script.LinesError.TheVariants.{Mem};

    ghost from_gives = { λ _ e. e ≡ Mem };

    fn from(_: Mem) -> Self {
        LinesError::Mem
    }
}

// The place of the first line feed.
fn feed_in(script: &[u8]) -> Option<usize>
    ensures { result ≡ position (λ b. b == 10) script.now }
{
    script.iter().position(|b| *b == b'\n')
}

// Where the first line of a script ends.
#[tactic(auto, using(crate::proofs::ScriptLemmas::first_feed))]
fn end_of_line(script: &[u8]) -> usize
    ensures { result ≡ position_or_len (λ b. b == 10) script.now }
{
    feed_in(script).unwrap_or(script.len())
}

// What follows the line feed at this place, if there is one.
fn after_line(script: &[u8], end: usize) -> &[u8]
    requires { end ≤ length script.now }
    ensures { result.now ≡ drop (end + 1) script.now }
{
    script[end..].get(1..).unwrap_or(&[])
}

// Adds the line of this number, unless it is skipped.
fn add_line(alloc: Global, lines: &mut Vec<Line>, number: u32, text: &[u8]) -> Result<(), Mem>
    ensures { OnOk result (lines.new.items ≡ lines.old.items ++ option_to_list (line_of number first_caller text.now)) }
{
    if let Some(line) = read_line(alloc, number, FIRST_CALLER, text)? {
        lines.push(line)?;
    }
    Ok(())
}

/// The lines of a script that aren't skipped, and how many lines it has with those that are (`docs/SCRIPTS.md`,
/// "Lines"), if these are at most `limit`. Each line is numbered from 1, and as whom a stream begins.
pub fn lines_of(alloc: Global, script: &[u8], limit: u32) -> Result<ScriptLines, LinesError>
    ensures lines { IfOk result (λ read. read.lines.items ≡ lines_of script.now) }
    ensures count { IfOk result (λ read. read.count ≡ length (texts_in script.now)) }
    ensures within { OnOk result (length (texts_in script.now) ≤ limit) }
    ensures too_many { result ≡ Err TooMany → limit < length (texts_in script.now) }
{
    let mut lines = Vec::new(alloc);
    let mut count = 0;
    let mut rest = script;
    'lines: while !rest.is_empty() {
        if count == limit {
            return Err(LinesError::TooMany);
        }
        count += 1;
        let end = end_of_line(rest);
        add_line(alloc, &mut lines, count, &rest[..end])?;
        rest = after_line(rest, end);
    }
    Ok(ScriptLines { lines, count })
}
