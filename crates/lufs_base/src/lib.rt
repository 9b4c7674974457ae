//! What every other crate speaks of: the small number types, the geometry of a volume, big-endian
//! fields, and lists that contracts see as lists (`docs/FORMAT.md`).
#![tactic(auto)]

mod bytes;
mod delta;
mod errors;
mod fields;
mod geometry;
mod name;
mod numbers;

pub use bytes::Bytes;
pub use delta::{Delta, DeltaKind, DeltaList};
pub use errors::{DiskFault, Mem};
pub use fields::{
    are_zeros, clear, get_u16, get_u32, get_u64, its_bytes_alone, one_spelling, put_u16, put_u32,
    put_u64, read_back, spelled_again,
};
pub use geometry::{
    BLOCK, Geometry, PAYLOAD, Region, SECTOR, SUPERBLOCK_SECTOR, is_step, its_region, one_region,
};
pub use name::{Name, is_name};
pub use numbers::{BlockNo, Epoch, Ino, Tid};

#[cfg(test)]
mod tests;
