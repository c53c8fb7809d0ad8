//! A disk over a device, as a real file is one: which calls of its device each call of the disk makes.

mod device;
mod device_disk;
mod file_device;
mod file_disk;
pub mod laws;
mod memory_device;
mod moves;

pub use device::{Device, DeviceCall, DeviceDown};
pub use device_disk::DeviceDisk;
pub use file_device::FileDevice;
pub use file_disk::FileDisk;
pub use memory_device::MemoryDevice;
