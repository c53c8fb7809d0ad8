//! A disk that may lose power at any write: what a read gives, and what a crash may leave.
#![tactic(auto)]

mod crash;
mod cut_disk;
mod disk;
mod disk_call;
mod fuse_disk;
mod halt;
mod history;
pub mod laws;
mod limits;
mod log_disk;
mod memory_disk;
mod octets_disk;
mod open_write;
mod overwriting;
mod past;
mod undoing;

pub use cut_disk::CutDisk;
pub use disk::{Disk, DiskFault};
pub use fuse_disk::FuseDisk;
pub use halt::Halt;
pub use limits::{MOST_OCTETS, ends_within};
pub use log_disk::LogDisk;
pub use memory_disk::MemoryDisk;
pub use octets_disk::OctetsDisk;
pub use overwriting::overwrite;
