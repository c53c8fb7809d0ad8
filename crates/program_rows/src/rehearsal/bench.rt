//! The disks of a rehearsal, where they tell what their power cuts left.

use disk_model::laws::fresh_log_law;
use disk_model::{FuseDisk, LogDisk, MemoryDisk};
use pacsat_cli::DiskMaker;
use px_base::OutOfMemory;
use std::alloc::Global;

/// Makes disks that tell what their power cuts left.
#[derive(Clone, Copy)]
pub struct LogDisks;

impl DiskMaker<LogDisk> for LogDisks {
    fn fresh(&self, alloc: Global) -> Result<LogDisk, OutOfMemory> {
        let disk = FuseDisk::new(MemoryDisk::new(alloc, &[], &[])?, 0);
        let disk = LogDisk::new(alloc, disk);
        fresh_log_law(&disk, 0);
        Ok(disk)
    }
}
