//! A schedule is played.

ghost use Rattle.std.specs.Prelude.{◌≡◌, ◌∷◌, ℕ, Err, IfOk};
ghost use Rattle.disk_model.specs.Cuts.{AreFresh, cuts_by};
ghost use Rattle.air_rehearsal.specs.Rehearsed.{CanTell, IsUnlawful, Rehearsed};

use crate::report::Report;
use crate::stations::Stations;
use crate::stopped::{Breach, Stopped};
use air_schedule::Schedule;
use air_world::laws::{parts_law, schedule_law, sound_law, stores_law};
use disk_model::CutDisk;
use file_store_model::laws::follows_law;
use std::alloc::Global;
use thiserror::Error;

/// Why a schedule was not played to its end.
#[derive(Clone, Copy, Debug, PartialEq, Eq, Error)]
pub enum RehearseStop {
    /// An event may not come where it stands.
    #[error("the event of line {line} may not come there")]
    Unlawful {
        /// The number of its line, from 1 on.
        line: u64,
    },
    /// No memory was left, here or for a disk in memory.
    #[error("out of memory")]
    OutOfMemory,
    /// Something was found that never should be, as a store that isn't recovered.
    #[error("broken in the event of line {line}: {what}")]
    Broken {
        /// The number of the event's line, from 1 on; 0 while the stations start, the last line at the end. Of a
        /// schedule that is drawn it is the event's number.
        line: u64,
        /// What was found.
        what: Breach,
    },
}

/// Plays a schedule over nine disks: the server's, and those of the clients in their order. The others stay as they
/// are. Takes memory.
///
/// `Unlawful` comes if an event may not come, for the first such one: the disks hold what the events before it wrote.
/// `Broken` says that something was found which never should be, as a store that a recovery refuses. After it, and
/// after `OutOfMemory`, nothing is said of the disks. A clause holds if the count of the server's disk's failed writes
/// doesn't stand at its last number then.
pub fn rehearse<B: CutDisk>(
    alloc: Global,
    schedule: &Schedule,
    bench: &mut Vec<B>,
) -> Result<Report, RehearseStop>
    requires { AreFresh B.Disk (cuts_by B.restarts B.arming B.plain B.is_starved) bench.old.items }
    ensures rehearsed { IfOk result (λ report. CanTell B.Disk bench.new.items →
        Rehearsed B.Disk (cuts_by B.restarts B.arming B.plain B.is_starved) schedule.now bench.old.items
        bench.new.items report) }
    ensures unlawful { (line : ℕ) → result ≡ Err (RehearseStop.Unlawful line) → CanTell B.Disk bench.new.items →
        IsUnlawful B.Disk (cuts_by B.restarts B.arming B.plain B.is_starved) schedule.now bench.old.items
        bench.new.items line }
{
    let Some((disk, disks)) = bench.as_mut_slice().split_first_mut() else {
        return Err(RehearseStop::Broken {
            line: 0,
            what: Breach::NoClient,
        });
    };
    rehearse_over(alloc, schedule, disk, disks)
}

/// The same over the server's disk and those of the clients.
fn rehearse_over<B: CutDisk>(
    alloc: Global,
    schedule: &Schedule,
    disk: &mut B,
    disks: &mut [B],
) -> Result<Report, RehearseStop>
    requires { AreFresh B.Disk (cuts_by B.restarts B.arming B.plain B.is_starved) (disk.old ∷ disks.old) }
    ensures rehearsed { IfOk result (λ report. CanTell B.Disk (disk.new ∷ disks.new) →
        Rehearsed B.Disk (cuts_by B.restarts B.arming B.plain B.is_starved) schedule.now (disk.old ∷ disks.old)
        (disk.new ∷ disks.new) report) }
    ensures unlawful { (line : ℕ) → result ≡ Err (RehearseStop.Unlawful line) → CanTell B.Disk (disk.new ∷ disks.new) →
        IsUnlawful B.Disk (cuts_by B.restarts B.arming B.plain B.is_starved) schedule.now (disk.old ∷ disks.old)
        (disk.new ∷ disks.new) line }
{
    sound_law();
    parts_law();
    stores_law();
    schedule_law();
    follows_law();
    schedule.fits_law();
    let events = schedule.events();
    let mut stations = match Stations::open(alloc, disks, schedule.window(), schedule.clients()) {
        Ok(stations) => stations,
        Err(stopped) => return Err(ended(stopped, 0, disk, disks)),
    };
    let mut server = match stations.start(disk) {
        Ok(server) => server,
        Err(stopped) => return Err(ended(stopped, 0, disk, disks)),
    };
    let mut line = 2 + schedule.clients().len() as u64;
    for event in events {
        if !stations.allows(event) {
            server.close();
            return Err(RehearseStop::Unlawful { line });
        }
        server = match stations.play(server, disk, disks, event) {
            Ok(server) => server,
            Err(stopped) => return Err(ended(stopped, line, disk, disks)),
        };
        line = line.wrapping_add(1);
    }
    server.close();
    match stations.end(disk) {
        Ok(report) => Ok(report),
        Err(stopped) => Err(ended(stopped, line.wrapping_sub(1), disk, disks)),
    }
}

/// The end of a rehearsal that stopped so in the event of this line. A call of a disk in memory fails where it finds no
/// memory: it is out of memory then.
pub(crate) fn ended<B: CutDisk>(stopped: Stopped, line: u64, disk: &B, disks: &[B]) -> RehearseStop
    ensures { (number : ℕ) → ¬ (result ≡ RehearseStop.Unlawful number) }
{
    if disk.starved() || disks.iter().any(|other| other.starved()) {
        RehearseStop::OutOfMemory
    } else {
        stopped.at(line)
    }
}
