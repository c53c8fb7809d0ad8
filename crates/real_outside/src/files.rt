//! Files, as the disk and the shelf ask for them.

mod file_call;
mod file_system;
mod memory_files;
mod real_files;
mod steps;

pub use file_call::{FileCall, Found};
pub use file_system::FileSystem;
pub use memory_files::MemoryFiles;
pub use real_files::RealFiles;
pub(crate) use steps::{folder_of, open_locked, write_once};
