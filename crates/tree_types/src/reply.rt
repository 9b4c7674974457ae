//! What a line is answered, and why a call is refused.
use crate::NameList;
use lufs_base::Bytes;

/// Why a call is refused (`docs/CALLS.md`, "Refusals").
#[derive(Clone, Copy, Debug, PartialEq, Eq)]
pub enum Refusal {
    /// The line isn't a call.
    Syntax,
    /// An earlier call of the disk failed, so nothing is changed any more.
    Locked,
    /// There is nothing of that name.
    Noent,
    /// Something else stands where a directory is needed.
    Notdir,
    /// More than eight symbolic links on one walk.
    Loop,
    /// The caller lacks a right.
    Denied,
    /// The name is there already.
    Exist,
    /// A directory stands where none may be.
    Isdir,
    /// The directory has names in it.
    Notempty,
    /// The call isn't allowed for what the path names.
    Inval,
    /// A name, path or text is too long.
    Nametoolong,
    /// The inode has as many names as it may have.
    Mlink,
    /// A file or a directory would be larger than it may be.
    Fbig,
    /// No inode is free.
    Noinodes,
    /// Fewer blocks are free than the call must claim.
    Nospace,
    /// A call of the disk failed in the middle of this one.
    Fault,
    /// Out of memory.
    Nomem,
}

/// What `stat` and `lstat` tell of an inode.
#[derive(Clone, Copy, Debug, PartialEq, Eq)]
pub struct StatInfo {
    pub ino: u32,
    /// The bits of its type and of its rights.
    pub mode: u16,
    pub links: u16,
    pub uid: u32,
    pub gid: u32,
    /// Bytes.
    pub size: u64,
    /// Seconds since 1970.
    pub mtime: u64,
    /// Blocks that it claims, pointer blocks among them.
    pub blocks: u32,
}

/// What a line is answered (`docs/SCRIPTS.md`, "Replies").
#[derive(Debug, Drop)]
pub enum Reply {
    /// The call was done.
    Done,
    /// Of `stat` and `lstat`.
    Stat(StatInfo),
    /// The bytes that were read.
    Read(Bytes),
    /// Names of a directory, and whether more follow.
    Names(NameList, bool),
    /// The text of a symbolic link.
    Text(Bytes),
    /// Free blocks and free inodes.
    Df(u32, u32),
    Refused(Refusal),
}
