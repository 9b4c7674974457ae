//! The call that the words of a line ask for.
ghost use Rattle.std.specs.Prelude.{◌≡◌, IfOk, bytes_eq};
ghost use Rattle.tree_types.specs.declared.call.Call.TheVariants as call;
ghost use Rattle.history_model.specs.Lines.{one_path, two_paths, path_and_mode, symlink_of, chown_of, write_of, trunc_of, read_of, list_of, df_of, become_of, call_in, changing_calls, other_calls};
ghost use Rattle.script_text.specs.Words.{texts};

use crate::arguments::{name_of, only_path, path_mode_pair, path_of, path_pair};
use crate::numbers::{bytes_of_hex, count_of, u32_of, u64_of};
use lufs_base::{Bytes, Mem};
use std::alloc::Global;
use tree_types::Call;

fn is_word(word: &[u8], name: &[u8]) -> bool
    ensures { result ≡ bytes_eq name.now word.now }
{
    name == word
}

#[tactic(auto, using(crate::proofs::ArgumentLemmas::path_and_mode_are))]
fn create_of(alloc: Global, words: &[&[u8]]) -> Result<Option<Call>, Mem>
    ensures { IfOk result (λ made. made ≡ path_and_mode call.Create (texts words.now)) }
{
    let given = path_mode_pair(alloc, words)?;
    Ok(given.map(|(path, mode)| Call::Create { path, mode }))
}

#[tactic(auto, using(crate::proofs::ArgumentLemmas::path_and_mode_are))]
fn mkdir_of(alloc: Global, words: &[&[u8]]) -> Result<Option<Call>, Mem>
    ensures { IfOk result (λ made. made ≡ path_and_mode call.Mkdir (texts words.now)) }
{
    let given = path_mode_pair(alloc, words)?;
    Ok(given.map(|(path, mode)| Call::Mkdir { path, mode }))
}

#[tactic(auto, using(crate::proofs::ArgumentLemmas::path_and_mode_are))]
fn chmod_of(alloc: Global, words: &[&[u8]]) -> Result<Option<Call>, Mem>
    ensures { IfOk result (λ made. made ≡ path_and_mode call.Chmod (texts words.now)) }
{
    let given = path_mode_pair(alloc, words)?;
    Ok(given.map(|(path, mode)| Call::Chmod { path, mode }))
}

#[tactic(auto, using(crate::proofs::ArgumentLemmas::two_paths_are))]
fn link_of(alloc: Global, words: &[&[u8]]) -> Result<Option<Call>, Mem>
    ensures { IfOk result (λ made. made ≡ two_paths call.Link (texts words.now)) }
{
    let given = path_pair(alloc, words)?;
    Ok(given.map(|(old, new)| Call::Link { old, new }))
}

#[tactic(auto, using(crate::proofs::ArgumentLemmas::two_paths_are))]
fn rename_of(alloc: Global, words: &[&[u8]]) -> Result<Option<Call>, Mem>
    ensures { IfOk result (λ made. made ≡ two_paths call.Rename (texts words.now)) }
{
    let given = path_pair(alloc, words)?;
    Ok(given.map(|(old, new)| Call::Rename { old, new }))
}

#[tactic(auto, using(crate::proofs::ArgumentLemmas::one_path_is))]
fn remove_of(alloc: Global, words: &[&[u8]]) -> Result<Option<Call>, Mem>
    ensures { IfOk result (λ made. made ≡ one_path call.Remove (texts words.now)) }
{
    let given = only_path(alloc, words)?;
    Ok(given.map(|path| Call::Remove { path }))
}

#[tactic(auto, using(crate::proofs::ArgumentLemmas::one_path_is))]
fn rmdir_of(alloc: Global, words: &[&[u8]]) -> Result<Option<Call>, Mem>
    ensures { IfOk result (λ made. made ≡ one_path call.Rmdir (texts words.now)) }
{
    let given = only_path(alloc, words)?;
    Ok(given.map(|path| Call::Rmdir { path }))
}

#[tactic(auto, using(crate::proofs::ArgumentLemmas::one_path_is))]
fn fsync_of(alloc: Global, words: &[&[u8]]) -> Result<Option<Call>, Mem>
    ensures { IfOk result (λ made. made ≡ one_path call.Fsync (texts words.now)) }
{
    let given = only_path(alloc, words)?;
    Ok(given.map(|path| Call::Fsync { path }))
}

#[tactic(auto, using(crate::proofs::ArgumentLemmas::one_path_is))]
fn stat_of(alloc: Global, words: &[&[u8]]) -> Result<Option<Call>, Mem>
    ensures { IfOk result (λ made. made ≡ one_path call.Stat (texts words.now)) }
{
    let given = only_path(alloc, words)?;
    Ok(given.map(|path| Call::Stat { path }))
}

#[tactic(auto, using(crate::proofs::ArgumentLemmas::one_path_is))]
fn lstat_of(alloc: Global, words: &[&[u8]]) -> Result<Option<Call>, Mem>
    ensures { IfOk result (λ made. made ≡ one_path call.Lstat (texts words.now)) }
{
    let given = only_path(alloc, words)?;
    Ok(given.map(|path| Call::Lstat { path }))
}

#[tactic(auto, using(crate::proofs::ArgumentLemmas::one_path_is))]
fn readlink_of(alloc: Global, words: &[&[u8]]) -> Result<Option<Call>, Mem>
    ensures { IfOk result (λ made. made ≡ one_path call.Readlink (texts words.now)) }
{
    let given = only_path(alloc, words)?;
    Ok(given.map(|path| Call::Readlink { path }))
}

fn symlink_of(alloc: Global, words: &[&[u8]]) -> Result<Option<Call>, Mem>
    ensures { IfOk result (λ made. made ≡ symlink_of (texts words.now)) }
{
    let [text, path] = words else {
        return Ok(None);
    };
    let Some(path) = path_of(alloc, path)? else {
        return Ok(None);
    };
    let text = Bytes::from_slice(alloc, text)?;
    Ok(Some(Call::Symlink { text, path }))
}

fn chown_of(alloc: Global, words: &[&[u8]]) -> Result<Option<Call>, Mem>
    ensures { IfOk result (λ made. made ≡ chown_of (texts words.now)) }
{
    let [path, uid, gid] = words else {
        return Ok(None);
    };
    let Some(path) = path_of(alloc, path)? else {
        return Ok(None);
    };
    match (u32_of(uid), u32_of(gid)) {
        (Some(uid), Some(gid)) => Ok(Some(Call::Chown { path, uid, gid })),
        _ => Ok(None),
    }
}

fn write_of(alloc: Global, words: &[&[u8]]) -> Result<Option<Call>, Mem>
    ensures { IfOk result (λ made. made ≡ write_of (texts words.now)) }
{
    let [path, offset, hex] = words else {
        return Ok(None);
    };
    let Some(path) = path_of(alloc, path)? else {
        return Ok(None);
    };
    let Some(offset) = u64_of(offset) else {
        return Ok(None);
    };
    let Some(bytes) = bytes_of_hex(alloc, hex)? else {
        return Ok(None);
    };
    Ok(Some(Call::Write {
        path,
        offset,
        bytes,
    }))
}

fn trunc_of(alloc: Global, words: &[&[u8]]) -> Result<Option<Call>, Mem>
    ensures { IfOk result (λ made. made ≡ trunc_of (texts words.now)) }
{
    let [path, size] = words else {
        return Ok(None);
    };
    let Some(path) = path_of(alloc, path)? else {
        return Ok(None);
    };
    let Some(size) = u64_of(size) else {
        return Ok(None);
    };
    Ok(Some(Call::Trunc { path, size }))
}

fn read_of(alloc: Global, words: &[&[u8]]) -> Result<Option<Call>, Mem>
    ensures { IfOk result (λ made. made ≡ read_of (texts words.now)) }
{
    let [path, offset, count] = words else {
        return Ok(None);
    };
    let Some(path) = path_of(alloc, path)? else {
        return Ok(None);
    };
    match (u64_of(offset), count_of(count)) {
        (Some(offset), Some(count)) => Ok(Some(Call::Read {
            path,
            offset,
            count,
        })),
        _ => Ok(None),
    }
}

fn list_of(alloc: Global, words: &[&[u8]]) -> Result<Option<Call>, Mem>
    ensures { IfOk result (λ made. made ≡ list_of (texts words.now)) }
{
    match words {
        [path] => {
            let path = path_of(alloc, path)?;
            Ok(path.map(|path| Call::List { path, after: None }))
        },
        [path, after] => {
            let Some(path) = path_of(alloc, path)? else {
                return Ok(None);
            };
            let after = name_of(alloc, after)?;
            Ok(after.map(|name| Call::List {
                path,
                after: Some(name),
            }))
        },
        _ => Ok(None),
    }
}

fn df_of(words: &[&[u8]]) -> Option<Call>
    ensures { result ≡ df_of (texts words.now) }
{
    match words {
        [] => Some(Call::Df),
        _ => None,
    }
}

fn become_of(words: &[&[u8]]) -> Option<Call>
    ensures { result ≡ become_of (texts words.now) }
{
    let [uid, gid] = words else {
        return None;
    };
    match (u32_of(uid), u32_of(gid)) {
        (Some(uid), Some(gid)) => Some(Call::Become { uid, gid }),
        _ => None,
    }
}

/// The call that changes the tree, by its first word.
pub(crate) fn changing_call(
    alloc: Global,
    word: &[u8],
    arguments: &[&[u8]],
) -> Result<Option<Call>, Mem>
    ensures { IfOk result (λ made. made ≡ call_in changing_calls word.now (texts arguments.now)) }
{
    if is_word(word, b"create") {
        create_of(alloc, arguments)
    } else if is_word(word, b"mkdir") {
        mkdir_of(alloc, arguments)
    } else if is_word(word, b"link") {
        link_of(alloc, arguments)
    } else if is_word(word, b"symlink") {
        symlink_of(alloc, arguments)
    } else if is_word(word, b"rename") {
        rename_of(alloc, arguments)
    } else if is_word(word, b"remove") {
        remove_of(alloc, arguments)
    } else if is_word(word, b"rmdir") {
        rmdir_of(alloc, arguments)
    } else if is_word(word, b"chmod") {
        chmod_of(alloc, arguments)
    } else if is_word(word, b"chown") {
        chown_of(alloc, arguments)
    } else if is_word(word, b"write") {
        write_of(alloc, arguments)
    } else if is_word(word, b"trunc") {
        trunc_of(alloc, arguments)
    } else {
        Ok(None)
    }
}

/// The call that doesn't change the tree, by its first word.
pub(crate) fn other_call(
    alloc: Global,
    word: &[u8],
    arguments: &[&[u8]],
) -> Result<Option<Call>, Mem>
    ensures { IfOk result (λ made. made ≡ call_in other_calls word.now (texts arguments.now)) }
{
    if is_word(word, b"fsync") {
        fsync_of(alloc, arguments)
    } else if is_word(word, b"read") {
        read_of(alloc, arguments)
    } else if is_word(word, b"stat") {
        stat_of(alloc, arguments)
    } else if is_word(word, b"lstat") {
        lstat_of(alloc, arguments)
    } else if is_word(word, b"list") {
        list_of(alloc, arguments)
    } else if is_word(word, b"readlink") {
        readlink_of(alloc, arguments)
    } else if is_word(word, b"df") {
        Ok(df_of(arguments))
    } else if is_word(word, b"as") {
        Ok(become_of(arguments))
    } else {
        Ok(None)
    }
}
