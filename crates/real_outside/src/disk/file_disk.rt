//! A real file as a disk.

ghost use Rattle.std.specs.Prelude.{◌≡◌, None, false};

use super::device_disk::DeviceDisk;
use super::file_device::FileDevice;
use crate::files::RealFiles;
use std::fs::File;
use std::rt::Files;

/// A file as a disk: the disk over it as a device. Its content can't be observed; it counts its faults. A call at which
/// the file can't be opened, or has another disk, fails. Takes no memory.
pub type FileDisk<'a, R> = DeviceDisk<FileDevice<'a, RealFiles<'a, R>>>;

impl<'a, R: Files<File = File>> DeviceDisk<FileDevice<'a, RealFiles<'a, R>>> {
    /// The file of this path, which isn't opened yet.
    pub fn new(files: &'a R, path: &'a str) -> FileDisk<'a, R>
        ensures path { result.device.path ≡ path.now }
        ensures file { result.device.file ≡ None }
        ensures entry { result.device.has_entry ≡ false }
        ensures broken { result.broken ≡ false }
        ensures read_faults { result.read_faults ≡ 0 }
        ensures write_faults { result.write_faults ≡ 0 }
    {
        DeviceDisk::over(FileDevice::new(RealFiles::new(files), path))
    }
}
