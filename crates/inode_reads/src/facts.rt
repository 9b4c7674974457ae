//! What the record of an inode says of its type and of its rights.
ghost use Rattle.std.specs.Prelude.{◌≡◌, ℕ, Some};
ghost use Rattle.lufs_base.specs.declared.geometry.Geometry.{Geometry};
ghost use Rattle.tree_types.specs.Permits.{permits};
ghost use Rattle.volume_model.specs.Format.{is_directory, is_link};
ghost use Rattle.volume_model.specs.Sound.{Tree};
ghost use Rattle.history_model.specs.Places.{is_directory_in, is_link_in, may};
ghost use Rattle.inode_reads.specs.InodeOf.{IsInodeOf};

use tree_types::{Attr, Cred, permits};
use volume_model::Dinode;

/// Whether the inode is a directory, by its record.
pub fn is_directory(d: &Dinode) -> bool
    ensures value { result ≡ is_directory d.now.mode }
    ensures tree { (g : Geometry) (tree : Tree) (i : ℕ) → IsInodeOf g tree i (Some d.now) → result ≡ is_directory_in tree i }
{
    d.is_directory()
}

/// Whether the inode is a symbolic link, by its record.
pub fn is_link(d: &Dinode) -> bool
    ensures value { result ≡ is_link d.now.mode }
    ensures tree { (g : Geometry) (tree : Tree) (i : ℕ) → IsInodeOf g tree i (Some d.now) → result ≡ is_link_in tree i }
{
    d.is_link()
}

/// Whether the caller has these rights on the inode, by its record: 4 to read, 2 to write, 1 to search, or a sum of
/// them.
pub fn may(d: &Dinode, cred: &Cred, bit: u16) -> bool
    ensures value { result ≡ permits cred.now d.now.mode d.now.uid d.now.gid bit }
    ensures tree { (g : Geometry) (tree : Tree) (i : ℕ) → IsInodeOf g tree i (Some d.now) → result ≡ may tree cred.now i bit }
{
    let attr = Attr {
        mode: d.mode,
        uid: d.uid,
        gid: d.gid,
        mtime: d.mtime,
    };
    permits(cred, &attr, bit)
}
