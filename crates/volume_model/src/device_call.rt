//! The calls of a disk that change what a crash may leave.
use lufs_base::Bytes;

/// A call of a disk that changes what a crash may leave.
#[derive(Debug, Drop)]
pub enum DeviceCall {
    /// These bytes, whole sectors, were to be written from sector `first` on.
    Write { first: u64, bytes: Bytes },
    /// A crash is to keep all that was written before.
    Flush,
}
