//! The cuts of power.

ghost use Rattle.std.specs.Prelude.{◌-◌, OnOk, Some};
ghost use Rattle.disk_model.specs.Cuts.{ArmsOnly, cuts_by};
ghost use Rattle.air_rehearsal.specs.ServerEvents.{CountsOn};
ghost use Rattle.air_rehearsal.specs.Strikes.{Strikes};

use disk_model::CutDisk;
use px_base::OutOfMemory;

/// A cut that comes in the next event of its station.
#[derive(Clone, Copy, Debug)]
pub(crate) struct Cut {
    /// At which write or sync of the event the disk stops: 1 or more.
    pub call: u64,
    /// Which octets the disk is left with.
    pub choice: u64,
}

impl Cut {
    /// Arms the station's disk for its event.
    pub(crate) fn arm<B: CutDisk>(&self, disk: &mut B)
        ensures { ArmsOnly B.Disk (cuts_by B.restarts B.arming B.plain B.is_starved)
            (Some (self.now.call - 1)) disk.old disk.new }
    {
        disk.arm(Some(self.call.saturating_sub(1)));
    }

    /// Cuts the power. It fails where the disk's memory was wanting.
    pub(crate) fn strike<B: CutDisk>(&self, disk: &mut B) -> Result<(), OutOfMemory>
        ensures strikes { OnOk result (Strikes B.Disk (cuts_by B.restarts B.arming B.plain B.is_starved)
            disk.old disk.new) }
        ensures faults { CountsOn B.Disk disk.old disk.new }
    {
        if disk.starved() {
            return Err(OutOfMemory);
        }
        disk.power_cut(self.choice);
        if disk.starved() {
            return Err(OutOfMemory);
        }
        Ok(())
    }
}
