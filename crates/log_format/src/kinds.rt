//! The types of the records of the log, and how many bytes each kind of delta logs.
ghost use Rattle.std.specs.Prelude.{◌≡◌};
ghost use Rattle.volume_model.specs.Log.{type_of, kind_of, logged_len};

use lufs_base::DeltaKind;

/// The bytes at the head of a record: its home, its length and its type.
pub const HEAD: usize = 16;

/// The type of a commit record.
pub const COMMIT: u32 = 8;

/// The type of a record of this kind.
pub fn type_of(kind: DeltaKind) -> u32
    ensures { result ≡ type_of kind }
{
    match kind {
        DeltaKind::Group => 1,
        DeltaKind::Inode => 2,
        DeltaKind::Chunk => 3,
        DeltaKind::Pointers => 4,
        DeltaKind::Zero => 5,
        DeltaKind::LinkText => 6,
        DeltaKind::Cancel => 7,
    }
}

/// The kind that a record's type names.
pub fn kind_of(record_type: u32) -> Option<DeltaKind>
    ensures { result ≡ kind_of record_type }
{
    match record_type {
        1 => Some(DeltaKind::Group),
        2 => Some(DeltaKind::Inode),
        3 => Some(DeltaKind::Chunk),
        4 => Some(DeltaKind::Pointers),
        5 => Some(DeltaKind::Zero),
        6 => Some(DeltaKind::LinkText),
        7 => Some(DeltaKind::Cancel),
        _ => None,
    }
}

/// How many bytes of a delta stand in the log.
pub fn logged_len(kind: DeltaKind, len: u32) -> u32
    ensures { result ≡ logged_len kind len }
{
    if kind.has_bytes() { len } else { 0 }
}
