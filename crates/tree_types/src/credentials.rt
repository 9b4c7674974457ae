//! Who makes a call, and what the rights of an inode permit.
ghost use Rattle.std.specs.Prelude.{◌≡◌};
ghost use Rattle.tree_types.specs.Permits.{rights_for, permits};

/// Who makes a call.
#[derive(Clone, Copy, Debug, PartialEq, Eq)]
pub struct Cred {
    /// 0 is the superuser, who is permitted everything.
    pub uid: u32,
    pub gid: u32,
}

/// What an inode says of its owner and its rights.
#[derive(Clone, Copy, Debug, PartialEq, Eq)]
pub struct Attr {
    /// The rights in the lowest nine bits: three each for the owner, the group and all others. The
    /// bits of the type may stand above them.
    pub mode: u16,
    pub uid: u32,
    pub gid: u32,
    /// When it was last changed, in seconds since 1970.
    pub mtime: u64,
}

/// Whether a caller has these rights on an inode: 4 to read, 2 to write, 1 to search, or a sum of
/// them (`docs/CALLS.md`, "Rights").
pub fn permits(cred: &Cred, attr: &Attr, bit: u16) -> bool
    ensures { result ≡ permits cred.now attr.now.mode attr.now.uid attr.now.gid bit }
{
    cred.uid == 0 || rights_for(cred, attr) & bit == bit
}

// The rights of the one class that the caller belongs to.
fn rights_for(cred: &Cred, attr: &Attr) -> u16
    ensures { result ≡ rights_for cred.now attr.now.mode attr.now.uid attr.now.gid }
{
    if cred.uid == attr.uid {
        attr.mode / 64 % 8
    } else if cred.gid == attr.gid {
        attr.mode / 8 % 8
    } else {
        attr.mode % 8
    }
}
