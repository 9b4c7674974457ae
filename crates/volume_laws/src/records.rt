//! The laws of the records of groups and of inodes: a record and its bytes determine each other.
ghost use Rattle.std.specs.Prelude.{◌≡◌, ℕ, List, length, Option, Some, None};
ghost use Rattle.lufs_base.specs.Fields.{AreBytes};
ghost use Rattle.lufs_base.specs.Layout.{IsGeometry};
ghost use Rattle.lufs_base.specs.declared.geometry.Geometry.{Geometry};
ghost use Rattle.volume_model.specs.declared.inode.Dinode.{Dinode};
ghost use Rattle.volume_model.specs.Format.{GroupRecord, group_of, group_bytes, IsGroup, dinode_of, dinode_bytes, IsDinode};

/// The bytes of a group's record read as that record.
pub fn group_read_back()
    ensures { (g : Geometry) (n : ℕ) (r : GroupRecord) → IsGeometry g → IsGroup g n r → group_of g n (group_bytes r) ≡ Some r }
{}

/// A group's record has no other bytes than those that are written for what it reads as.
pub fn group_spelled_again()
    ensures { (g : Geometry) (n : ℕ) (bytes : List ℕ) (r : GroupRecord) → AreBytes bytes → length bytes ≡ 416
        → group_of g n bytes ≡ Some r → group_bytes r ≡ bytes }
{}

/// The bytes of an inode's record read as that inode, and those of a free record as free.
pub fn dinode_read_back()
    ensures inode { (version : ℕ) (d : Dinode) → IsDinode version d → dinode_of version (dinode_bytes (Some d)) ≡ Some (Some d) }
    ensures free { (version : ℕ) → dinode_of version (dinode_bytes None) ≡ Some None }
{}

/// An inode's record has no other bytes than those that are written for what it reads as.
pub fn dinode_spelled_again()
    ensures { (version : ℕ) (bytes : List ℕ) (d : Option Dinode) → AreBytes bytes → length bytes ≡ 128
        → dinode_of version bytes ≡ Some d → dinode_bytes d ≡ bytes }
{}
