//! Laws of disks that can be armed.

ghost use Rattle.std.specs.Prelude.{◌≡◌, []};
ghost use Rattle.disk_model.specs.Calls.{new_state};
ghost use Rattle.disk_model.specs.CutLaws.{ReadsStayLaw};
ghost use Rattle.disk_model.specs.Cuts.{IsFresh, cuts_by};
ghost use Rattle.disk_model.specs.Fuse as it;
ghost use Rattle.disk_model.specs.Fuse.{fuse, new_fuse};
ghost use Rattle.disk_model.specs.Log.{log};

use crate::{CutDisk, Disk, FuseDisk, LogDisk};

/// What the arming says of reads: where no write and no sync failed, none failed.
pub fn reads_law()
    ensures { ReadsStayLaw }
{}

/// A new disk without an octet, of which no call is listed to fail, is fresh, however it is armed. Takes no memory.
pub fn fresh_law(disk: &FuseDisk, calls: u64)
    requires { fuse disk.now ≡ new_fuse (new_state [] []) calls }
    ensures { IsFresh ⟦<FuseDisk as Disk>⟧ (cuts_by it.restarts it.arming it.plain it.is_starved) disk.now }
{}

/// And so is one that tells its restarts, and has none. Takes no memory.
pub fn fresh_log_law(disk: &LogDisk, calls: u64)
    requires { log disk.now ≡ record { disk = new_fuse (new_state [] []) calls; restarts = [] } }
    ensures { IsFresh ⟦<LogDisk as Disk>⟧ (cuts_by ⟦<LogDisk as CutDisk>⟧.restarts ⟦<LogDisk as CutDisk>⟧.arming
        ⟦<LogDisk as CutDisk>⟧.plain ⟦<LogDisk as CutDisk>⟧.is_starved) disk.now }
{}
