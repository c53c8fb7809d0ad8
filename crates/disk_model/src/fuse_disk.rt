//! A disk that stops after so many calls, as where power is lost or the device is gone.

ghost use Rattle.std.specs.Prelude.{◌≡◌, ◌↔◌, ◌+◌, ◌≤◌, length, IfSome, IsTrue, OnErr};
ghost use Rattle.px_base.specs.Outside.{Rose};
ghost use Rattle.disk_model.specs.Promised.{PromisesLen, PromisesRead, PromisesSync, PromisesWrite};

use crate::limits::ends_within;
use crate::memory_disk::MemoryDisk;
use crate::{CutDisk, Disk, DiskFault};
use px_base::FaultCount;

/// What a fuse does at the next call.
#[derive(Clone, Copy, Debug, PartialEq, Eq)]
enum FuseStage {
    /// So many calls of `write_at` and `sync` pass; the one after them fails.
    Passes(u64),
    /// Every call fails, and the first write leaves its range open.
    Blown,
    /// Every call fails and changes nothing.
    Down,
    /// No call fails by it.
    Unarmed,
}

/// A disk in memory that is armed from its making: it passes so many calls of `write_at` and `sync`. The next one
/// fails, and so does every call after it, also of `len` and `read`; those before that one pass. The first write that
/// fails so leaves its range open, and the disk is down from then on. Its content, images and moment are those of the
/// disk in it. It can be armed anew, disarmed, and lose power (`CutDisk`); what its power cuts left it doesn't tell.
#[derive(Drop)]
pub struct FuseDisk {
    disk: MemoryDisk,
    stage: FuseStage,
    read_faults: FaultCount,
    write_faults: FaultCount,
}

impl FuseDisk {
    ghost use Rattle.disk_model.specs.Calls.{IsFailingSync, content_of};
    ghost use Rattle.disk_model.specs.Fuse.{CountsFailure, HasBlown, IsCutShort, fuse, fuse_after_failed};
    ghost use Rattle.disk_model.specs.Fuse.{fuse_after_failed_reading, new_fuse, starved_fuse};
    ghost use Rattle.disk_model.specs.Fuse as it;
    ghost use Rattle.disk_model.specs.Memory.{state};

    /// A disk that passes this many calls of `write_at` and `sync`. Takes no memory.
    pub fn new(disk: MemoryDisk, calls: u64) -> FuseDisk
        ensures { fuse result ≡ new_fuse (state disk) calls }
    {
        FuseDisk {
            disk,
            stage: FuseStage::Passes(calls),
            read_faults: FaultCount::new(),
            write_faults: FaultCount::new(),
        }
    }

    /// The disk in it, with its content and images. Takes no memory.
    pub fn into_disk(self) -> MemoryDisk
        ensures { state result ≡ (fuse self).disk }
    {
        self.disk
    }

    /// The octets that a read gives.
    pub fn bytes(&self) -> &[u8]
        ensures { result.now ≡ content_of (fuse self.now).disk }
    {
        self.disk.bytes()
    }

    /// Says that no memory was found.
    pub(crate) fn starve(&mut self)
        ensures { fuse self.new ≡ starved_fuse (fuse self.old) }
    {
        self.disk.starve();
    }

    /// Whether it has failed a call.
    fn has_blown(&self) -> bool
        ensures { IsTrue result ↔ HasBlown (fuse self.now).stage }
    {
        matches!(self.stage, FuseStage::Blown | FuseStage::Down)
    }

    /// Counts a call of `len` or `read` that fails since the fuse has blown.
    fn fail_reading(&mut self) -> DiskFault
        ensures counted { fuse self.new ≡ fuse_after_failed_reading (fuse self.old) }
        ensures no_less { it.read_faults self.old ≤ it.read_faults self.new }
        ensures rose { Rose (it.read_faults self.old) (it.read_faults self.new) }
    {
        self.read_faults.count();
        DiskFault
    }

    /// Counts a call of `write_at` or `sync` that fails by the fuse, which is at this stage from then on.
    fn fail_writing(&mut self, stage: FuseStage) -> DiskFault
        ensures counted { fuse self.new ≡ fuse_after_failed (fuse self.old) stage }
        ensures no_less { it.write_faults self.old ≤ it.write_faults self.new }
        ensures rose { Rose (it.write_faults self.old) (it.write_faults self.new) }
    {
        self.stage = stage;
        self.write_faults.count();
        DiskFault
    }

    /// Counts a call of `write_at` that the fuse fails, and leaves its range open; one that would end past 2^63 changes
    /// nothing, and is want of memory.
    fn tear(&mut self, at: u64, bytes: &[u8]) -> DiskFault
        ensures cut_short { IsCutShort (fuse self.old) (fuse self.new) at (length bytes.now) }
        ensures counts { CountsFailure self.old self.new }
    {
        if !ends_within(at, bytes) {
            self.disk.starve();
            return self.fail_writing(FuseStage::Blown);
        }
        self.disk.tear(at, bytes.len() as u64);
        self.fail_writing(FuseStage::Down)
    }

    /// Counts a call of `sync` that the fuse fails, which is a moment of the disk.
    fn fail_sync(&mut self) -> DiskFault
        ensures fails { IsFailingSync (fuse self.old).disk (fuse self.new).disk }
        ensures counted { fuse self.new
            ≡ fuse_after_failed (record (fuse self.old) { disk = (fuse self.new).disk }) FuseStage.Blown }
        ensures counts { CountsFailure self.old self.new }
    {
        self.disk.fail_sync();
        self.fail_writing(FuseStage::Blown)
    }
}

impl Disk for FuseDisk {
    ghost use Rattle.disk_model.specs.Fuse as it;
    ghost use Rattle.disk_model.specs.Fuse.{IsFuseReading, IsFuseSyncing, IsFuseWriting, fuse};
    ghost use Rattle.disk_model.specs.FuseLaws as law;

    ghost content = { it.content };

    ghost images = { it.images };

    ghost moment = { it.moment };

    ghost images_since = { it.images_since };

    ghost read_faults = { it.read_faults };

    ghost write_faults = { it.write_faults };

    ghost is_down = { it.is_down };

    ghost lasts = { it.lasts };

    /// The number of octets. It fails where the disk does, and where the fuse has blown.
    fn len(&mut self) -> Result<u64, DiskFault>
        ensures promises { PromisesLen it.ghosts self.old self.new result }
        ensures reading { IsFuseReading (fuse self.old) (fuse self.new) result }
    {
        if self.has_blown() {
            return Err(self.fail_reading());
        }
        self.disk.len()
    }

    /// Fills the room from this place on. It fails where the disk does, and where the fuse has blown.
    fn read(&mut self, at: u64, room: &mut [u8]) -> Result<(), DiskFault>
        requires { IfSome (it.content self.old) (λ octets. at + length room.old ≤ length octets) }
        ensures promises { PromisesRead it.ghosts at room.old room.new self.old self.new result }
        ensures reading { IsFuseReading (fuse self.old) (fuse self.new) result }
        ensures failed { OnErr result (room.new ≡ room.old) }
    {
        if self.has_blown() {
            return Err(self.fail_reading());
        }
        self.disk.read(at, room)
    }

    /// Writes octets. It fails where the disk does, and by the fuse; the first write that fails by the fuse leaves its
    /// range open, unless it would end past 2^63, and the disk is down from then on.
    fn write_at(&mut self, at: u64, bytes: &[u8]) -> Result<(), DiskFault>
        ensures promises { PromisesWrite it.ghosts at bytes.now self.old self.new result }
        ensures writing { IsFuseWriting (fuse self.old) (fuse self.new) at bytes.now result }
    {
        match self.stage {
            FuseStage::Passes(left) if left > 0 => {
                self.stage = FuseStage::Passes(left - 1);
                self.disk.write_at(at, bytes)
            }
            FuseStage::Unarmed => self.disk.write_at(at, bytes),
            FuseStage::Down => Err(self.fail_writing(FuseStage::Down)),
            _ => Err(self.tear(at, bytes)),
        }
    }

    /// Syncs what was written. It fails where the disk does, and by the fuse; a sync that fails by the fuse before a
    /// write did is a moment of the disk.
    fn sync(&mut self) -> Result<(), DiskFault>
        ensures promises { PromisesSync it.ghosts self.old self.new result }
        ensures syncing { IsFuseSyncing (fuse self.old) (fuse self.new) result }
    {
        match self.stage {
            FuseStage::Passes(left) if left > 0 => {
                self.stage = FuseStage::Passes(left - 1);
                self.disk.sync()
            }
            FuseStage::Unarmed => self.disk.sync(),
            FuseStage::Down => Err(self.fail_writing(FuseStage::Down)),
            _ => Err(self.fail_sync()),
        }
    }

    ghost content_is_image = { law.content_is_image };

    ghost images_fit = { law.images_fit };

    ghost counts_now = { law.counts_now };

    ghost earlier = { law.earlier };

    ghost lasts_same = { law.lasts_same };

    ghost lasts_on = { law.lasts_on };
}

impl CutDisk for FuseDisk {
    ghost use Rattle.std.specs.Prelude.{refl};
    ghost use Rattle.disk_model.specs.Fuse as it;

    ghost restarts = { it.restarts };

    ghost arming = { it.arming };

    ghost plain = { it.plain };

    ghost is_starved = { it.is_starved };

    ghost surface = { it.standing };

    /// Arms it, or takes the arming away. It takes no memory.
    fn arm(&mut self, calls: Option<u64>) {
        self.stage = match calls {
            Some(calls) => FuseStage::Passes(calls),
            None => FuseStage::Unarmed,
        };
    }

    /// Cuts the power of the disk in it, which is up then, and not armed. It costs the octets written since the last
    /// sync.
    fn power_cut(&mut self, pick: u64) {
        self.disk.power_cut(pick);
        self.stage = FuseStage::Unarmed;
    }

    fn starved(&self) -> bool {
        self.disk.starved()
    }

    ghost shows = { λ disk. record { content = refl; images = λ image. (λ left. left, λ left. left) } };

    ghost lasts_so = { λ old new lasts. lasts };
}
