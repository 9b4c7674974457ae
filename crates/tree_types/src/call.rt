//! What a line of a script asks for.
use crate::{Cred, PathText};
use lufs_base::{Bytes, Name};

/// What a line asks for (`docs/CALLS.md`). A `mode` is the nine bits of rights.
#[derive(Debug, Drop)]
pub enum Call {
    /// Makes an empty file.
    Create {
        path: PathText,
        mode: u16,
    },
    /// Makes an empty directory.
    Mkdir {
        path: PathText,
        mode: u16,
    },
    /// Gives the inode that `old` names a second name, `new`.
    Link {
        old: PathText,
        new: PathText,
    },
    /// Makes a symbolic link with this text.
    Symlink {
        text: Bytes,
        path: PathText,
    },
    /// Moves the name `old` to `new`, and replaces what `new` named.
    Rename {
        old: PathText,
        new: PathText,
    },
    /// Removes a name of a file or of a symbolic link.
    Remove {
        path: PathText,
    },
    /// Removes an empty directory.
    Rmdir {
        path: PathText,
    },
    /// Sets the rights.
    Chmod {
        path: PathText,
        mode: u16,
    },
    /// Sets owner and group.
    Chown {
        path: PathText,
        uid: u32,
        gid: u32,
    },
    /// Puts bytes into a file from byte `offset` on.
    Write {
        path: PathText,
        offset: u64,
        bytes: Bytes,
    },
    /// Sets the size of a file, in bytes.
    Trunc {
        path: PathText,
        size: u64,
    },
    /// Is answered once all that came before it is committed.
    Fsync {
        path: PathText,
    },
    /// Tells at most `count` bytes of a file from byte `offset` on.
    Read {
        path: PathText,
        offset: u64,
        count: u32,
    },
    /// Tells of an inode; a link at the end of the path is followed.
    Stat {
        path: PathText,
    },
    /// Tells of an inode; a link at the end of the path isn't followed.
    Lstat {
        path: PathText,
    },
    /// Tells the first names of a directory that come after this one.
    List {
        path: PathText,
        after: Option<Name>,
    },
    /// Tells the text of a symbolic link.
    Readlink {
        path: PathText,
    },
    /// Tells what is free.
    Df,
    /// Makes the stream's later calls in this user's name.
    Become {
        uid: u32,
        gid: u32,
    },
}

/// A line of a script that isn't skipped (`docs/SCRIPTS.md`, "Lines").
#[derive(Debug, Drop)]
pub struct Line {
    /// The place of the line in its script, from 1.
    pub number: u32,
    /// Who makes the call.
    pub cred: Cred,
    /// Whether the reply waits until the call is committed.
    pub sync: bool,
    /// None where the line isn't a call.
    pub call: Option<Call>,
}
