//! What a line or a commit waits for, and why a commit or a roll was begun.

/// What a line or a commit waits for, with the numbers that show it (`docs/SCRIPTS.md`, "Causes").
#[derive(Clone, Copy, Debug, PartialEq, Eq)]
pub enum Wait {
    /// Room in the log: `used` and `sealed` sectors of its `ring` are taken, and `pending` and
    /// `need` bytes of deltas don't fit beside them.
    Full {
        used: u32,
        sealed: u32,
        pending: u32,
        need: u32,
        ring: u32,
    },
    /// A commit, which waits until so many calls that are under way have ended.
    Closing {
        members: u32,
    },
    /// The release of freed blocks: of the `free` blocks only `released` may be given out yet.
    Unreleased {
        released: u32,
        free: u32,
        wanted: u32,
    },
    /// An inode, or blocks, that other calls hold.
    InHand {
        inode: bool,
        wanted: u32,
        free: u32,
        held: u32,
    },
    /// Nothing: the tree changed since the call took its blocks, so it begins again. The numbers are
    /// the lengths of the history then and now.
    Changed {
        taken_at: u32,
        now: u32,
    },
    /// The commit of an entry past the last published one.
    Uncommitted {
        entry: u32,
        published: u32,
    },
}

/// Why a commit or a roll was begun (`docs/SCRIPTS.md`, "Causes").
#[derive(Clone, Copy, Debug, PartialEq, Eq)]
pub enum Cause {
    /// This entry is synchronous and wasn't committed.
    SyncWaits(u32),
    /// A line found no room in the log.
    Full(Wait),
    /// A line found too few released blocks.
    Unreleased(Wait),
    /// More than half of the ring's sectors are used: so many, of so many.
    Half(u32, u32),
    /// The schedule asked for it, by the byte at this place.
    Asked(u32),
    /// The session ends.
    Ending,
}
