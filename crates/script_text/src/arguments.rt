//! The paths and names that are given to a call.
ghost use Rattle.std.specs.Prelude.{◌≡◌, IfOk};
ghost use Rattle.history_model.specs.Lines.{path_of, name_of};
ghost use Rattle.script_text.specs.Words.{texts};
ghost use Rattle.script_text.specs.Arguments.{only_path, path_pair, path_mode_pair};

use crate::numbers::mode_of;
use crate::words::begins_with;
use lufs_base::{Mem, Name, is_name};
use std::alloc::Global;
use tree_types::PathText;

/// The word as a path: it begins with a slash.
pub(crate) fn path_of(alloc: Global, word: &[u8]) -> Result<Option<PathText>, Mem>
    ensures { IfOk result (λ path. path ≡ path_of word.now) }
{
    if begins_with(b'/', word) {
        let path = PathText::from_slice(alloc, word)?;
        Ok(Some(path))
    } else {
        Ok(None)
    }
}

/// The word as a name that a directory may give.
pub(crate) fn name_of(alloc: Global, word: &[u8]) -> Result<Option<Name>, Mem>
    ensures { IfOk result (λ name. name ≡ name_of word.now) }
{
    if is_name(word) {
        let name = Name::from_slice(alloc, word)?;
        Ok(Some(name))
    } else {
        Ok(None)
    }
}

/// The one path of these words.
pub(crate) fn only_path(alloc: Global, words: &[&[u8]]) -> Result<Option<PathText>, Mem>
    ensures { IfOk result (λ path. path ≡ only_path (texts words.now)) }
{
    match words {
        [path] => path_of(alloc, path),
        _ => Ok(None),
    }
}

/// The two paths that these words are.
pub(crate) fn path_pair(alloc: Global, words: &[&[u8]]) -> Result<Option<(PathText, PathText)>, Mem>
    ensures { IfOk result (λ pair. pair ≡ path_pair (texts words.now)) }
{
    let [old, new] = words else {
        return Ok(None);
    };
    let Some(old) = path_of(alloc, old)? else {
        return Ok(None);
    };
    let new = path_of(alloc, new)?;
    Ok(new.map(|new| (old, new)))
}

/// The path and the rights that these words are.
pub(crate) fn path_mode_pair(alloc: Global, words: &[&[u8]]) -> Result<Option<(PathText, u16)>, Mem>
    ensures { IfOk result (λ pair. pair ≡ path_mode_pair (texts words.now)) }
{
    let [path, mode] = words else {
        return Ok(None);
    };
    let Some(mode) = mode_of(mode) else {
        return Ok(None);
    };
    let path = path_of(alloc, path)?;
    Ok(path.map(|path| (path, mode)))
}
