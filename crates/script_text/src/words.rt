//! Which lines are skipped, which are text, and the words of a line.
ghost use Rattle.std.specs.Prelude.{◌≡◌, ◌==◌, ◌&&◌, nat_le, IfOk};
ghost use Rattle.std.specs.List.{list_all};
ghost use Rattle.script_text.specs.Words.{texts};
ghost use Rattle.history_model.specs.Lines.{is_skipped, begins_with, is_text, words_of};

use std::alloc::{AllocError, Global};

/// The most bytes of a line.
const LONGEST_LINE: usize = 36_864;

/// Whether a line is a comment, or empty but for spaces.
pub(crate) fn is_skipped(line: &[u8]) -> bool
    ensures { result ≡ is_skipped line.now }
{
    are_spaces(line) || begins_with(b'#', line)
}

fn are_spaces(bytes: &[u8]) -> bool
    ensures { result ≡ list_all (λ b. b == 32) bytes.now }
{
    bytes.iter().all(|b| *b == b' ')
}

/// Whether the first byte is this one.
pub(crate) fn begins_with(byte: u8, bytes: &[u8]) -> bool
    ensures { result ≡ begins_with byte bytes.now }
{
    match bytes {
        [first, ..] => *first == byte,
        [] => false,
    }
}

/// Whether a line isn't too long and has only visible ASCII characters and spaces.
pub(crate) fn is_text(line: &[u8]) -> bool
    ensures { result ≡ is_text line.now }
{
    line.len() <= LONGEST_LINE && are_visible(line)
}

fn are_visible(bytes: &[u8]) -> bool
    ensures { result ≡ list_all (λ b. nat_le 0x20 b && nat_le b 0x7E) bytes.now }
{
    bytes.iter().all(|b| 0x20 <= *b && *b <= 0x7e)
}

/// The words of a line, in order.
pub(crate) fn words_of(alloc: Global, line: &[u8]) -> Result<Vec<&[u8]>, AllocError>
    ensures { IfOk result (λ words. texts words.items ≡ words_of line.now) }
{
    line.split(|b| *b == b' ')
        .filter(|word| !word.is_empty())
        .collect(alloc)
}
