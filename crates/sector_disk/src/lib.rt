//! Disks of sectors: what each call of a disk may do, and disks in memory.
#![tactic(auto)]

mod continued;
mod crash;
mod disk;
mod image;
mod mem_disk;
mod sure_disk;

pub use continued::continued_records;
pub use crash::{CrashError, chosen_sectors};
pub use disk::Disk;
pub use lufs_base::DiskFault;
pub use mem_disk::{Fail, MemDisk};
pub use sure_disk::SureDisk;
pub use volume_model::DeviceCall;

#[cfg(test)]
mod tests;
