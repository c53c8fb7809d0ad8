//! A disk in memory: what it holds, and in proofs what it had at first and its calls since then.

ghost use Rattle.std.specs.Prelude.{◌≡◌, ◌+◌, ◌/◌, ◌%◌, ◌≤◌, ◌^◌, [], false, true, IsOk, length, Some};
ghost use Rattle.std.specs.Prelude.{IfOk, IfSome, OnErr, OnOk};
ghost use Rattle.px_base.specs.Counter.{HasCauses};
ghost use Rattle.px_base.specs.Outside.{HasCause};
ghost use Rattle.disk_model.specs.Disk.{IsQuiet};
ghost use Rattle.disk_model.specs.Promised.{PromisesLen, PromisesRead, PromisesSync, PromisesWrite};
ghost use Rattle.disk_model.specs.Calls.{GoesOn, IsFailingSync, IsPowerCut, IsReading, IsSyncing, IsTearing, IsWriting};
ghost use Rattle.disk_model.specs.Calls.{content_of, images_of, new_state, surface, with_starved, with_starved_fault};
ghost use Rattle.disk_model.specs.Calls.{with_write_fault};
ghost use Rattle.disk_model.specs.Crash.{IsFilled};

use crate::history::History;
use crate::{Disk, DiskFault};
use px_base::{CallCounter, FaultCount, OutOfMemory};
use std::alloc::Global;

/// A disk in memory. Its calls are numbered together from 1; one whose number is listed fails. A write that finds no
/// memory fails too: it leaves its range open, and the disk is down. A write that would end past 2^63 is want of memory
/// as well, and changes nothing.
#[derive(Drop)]
pub struct MemoryDisk {
    history: History,
    counter: CallCounter,
    read_faults: FaultCount,
    write_faults: FaultCount,
    ghost read_causes: { HasCauses counter read_faults },
    ghost write_causes: { HasCauses counter write_faults },
}

impl MemoryDisk {
    ghost use Rattle.disk_model.specs.Memory.{state};

    /// A quiet disk with these octets, whose calls of these numbers fail. Takes memory.
    pub fn new(alloc: Global, bytes: &[u8], failing: &[u64]) -> Result<MemoryDisk, OutOfMemory>
        ensures fresh { IfOk result (λ disk. state disk ≡ new_state bytes.now failing.now) }
        ensures quiet { IfOk result (λ disk. IsQuiet (Some (content_of (state disk))) (images_of (state disk))) }
    {
        Ok(MemoryDisk {
            history: History::new(alloc, bytes)?,
            counter: CallCounter::new(alloc, failing)?,
            read_faults: FaultCount::new(),
            write_faults: FaultCount::new(),
        })
    }

    /// The octets that a read gives.
    pub fn bytes(&self) -> &[u8]
        ensures { result.now ≡ content_of (state self.now) }
    {
        self.history.present()
    }

    /// Whether a call found no memory. While it is false, and no call is listed to fail, no fault is counted.
    pub fn starved(&self) -> bool
        ensures value { result ≡ (state self.now).counter.starved }
        ensures read { HasCauses (state self.now).counter (state self.now).read_faults }
        ensures write { HasCauses (state self.now).counter (state self.now).write_faults }
    {
        self.counter.starved()
    }

    /// What a crash leaves of the disk, as a number picks it: a quiet disk, of which no call is listed to fail, and no
    /// fault is counted. Takes memory.
    ///
    /// The number's remainder by 4 picks what becomes of the writes since the last sync: 0, none of them reached the
    /// disk; 1, those that answered Ok did, and a crash leaves what a read gives; 2, each of their octets, and each
    /// past the end at that sync, is the octet `pick / 4 % 256`, and the length is the greatest since then; 3, each is
    /// the one before it was written, the one that was written, or any other, and the length is any that may be left,
    /// as numbers that are drawn from `pick` choose.
    pub fn crash(self, pick: u64) -> Result<MemoryDisk, OutOfMemory>
        ensures image { IfOk result (λ disk. images_of (state self) (content_of (state disk))) }
        ensures fresh { IfOk result (λ disk. state disk ≡ new_state (content_of (state disk)) []) }
        ensures quiet { IfOk result (λ disk. IsQuiet (Some (content_of (state disk))) (images_of (state disk))) }
        ensures synced { pick % 4 ≡ 0 → IfOk result (λ disk. content_of (state disk) ≡ (surface (state self)).synced) }
        ensures written { pick % 4 ≡ 1 → IfOk result (λ disk. content_of (state disk) ≡ content_of (state self)) }
        ensures filled { pick % 4 ≡ 2
            → IfOk result (λ disk. IsFilled (surface (state self)) (pick / 4 % 256) (content_of (state disk))) }
    {
        let mut history = self.history;
        history.lose_power(pick)?;
        MemoryDisk::new(history.alloc(), history.present(), &[])
    }

    /// Counts a call of `len` or `read`, which fails where it is listed.
    fn count_reading(&mut self) -> Result<(), DiskFault>
        ensures reading { IsReading (state self.old) (state self.new) result }
        ensures cause { HasCause (state self.old).read_faults (state self.new).read_faults result }
        ensures lasts { GoesOn (state self.old) (state self.new) }
    {
        if self.counter.count() {
            self.read_faults.count();
            return Err(DiskFault);
        }
        Ok(())
    }

    /// Counts a fault where a call of `write_at` or `sync` is listed, or was not recorded for want of memory.
    fn settle(&mut self, listed: bool, recorded: Result<(), OutOfMemory>) -> Result<(), DiskFault>
        requires { (state self.old).counter.failing ≡ [] → listed ≡ false }
        ensures ok { OnOk result ((listed ≡ false) × IsOk recorded × (state self.new ≡ state self.old)) }
        ensures listed { OnErr result (OnOk recorded
            ((listed ≡ true) × (state self.new ≡ with_write_fault (state self.old)))) }
        ensures starved { OnErr result (OnErr recorded (state self.new ≡ with_starved_fault (state self.old))) }
        ensures cause { HasCause (state self.old).write_faults (state self.new).write_faults result }
    {
        if recorded.is_err() {
            self.counter.starve();
        }
        if listed || recorded.is_err() {
            self.write_faults.count();
            return Err(DiskFault);
        }
        Ok(())
    }

    /// Records a call of `write_at`, and counts it.
    fn record_write(&mut self, at: u64, bytes: &[u8]) -> Result<(), DiskFault>
        ensures writing { IsWriting (state self.old) (state self.new) at bytes.now result }
        ensures cause { HasCause (state self.old).write_faults (state self.new).write_faults result }
    {
        let listed = self.counter.count();
        let recorded = self.history.write_at(at, bytes, listed);
        self.settle(listed, recorded)
    }

    /// Leaves the range of a write that a fuse cuts short open; a disk that is down is starved. It counts no call.
    pub(crate) fn tear(&mut self, at: u64, count: u64)
        requires { at + count ≤ 2 ^ 63 }
        ensures { IsTearing (state self.old) (state self.new) at count }
    {
        if self.history.is_down() || self.history.tear(at, count).is_err() {
            self.counter.starve();
        }
    }

    /// Records a sync that a fuse lets fail; a disk that is down is starved. It counts no call.
    pub(crate) fn fail_sync(&mut self)
        ensures { IsFailingSync (state self.old) (state self.new) }
    {
        if self.history.sync(true).is_err() {
            self.counter.starve();
        }
    }

    /// Loses power: what is left is picked by this number, as `crash` does, and stands on the disk then, which is up.
    /// It isn't a call that is numbered. It costs the octets in the open ranges, and those behind what was synced.
    /// Where it finds no memory, a read gives what it gave.
    pub fn power_cut(&mut self, pick: u64)
        ensures { IsPowerCut (state self.old) (state self.new) pick }
    {
        if self.history.lose_power(pick).is_err() {
            self.counter.starve();
        }
    }

    /// Says that no memory was found.
    pub(crate) fn starve(&mut self)
        ensures { state self.new ≡ with_starved (state self.old) }
    {
        self.counter.starve();
    }

    /// Records a call of `sync`, and counts it.
    fn record_sync(&mut self) -> Result<(), DiskFault>
        ensures syncing { IsSyncing (state self.old) (state self.new) result }
        ensures cause { HasCause (state self.old).write_faults (state self.new).write_faults result }
    {
        let listed = self.counter.count();
        let recorded = self.history.sync(listed);
        self.settle(listed, recorded)
    }
}

impl Disk for MemoryDisk {
    ghost use Rattle.disk_model.specs.Memory as it;
    ghost use Rattle.disk_model.specs.Memory.{state};
    ghost use Rattle.disk_model.specs.MemoryLaws as law;

    ghost content = { it.content };

    ghost images = { it.images };

    ghost moment = { it.moment };

    ghost images_since = { it.images_since };

    ghost read_faults = { it.read_faults };

    ghost write_faults = { it.write_faults };

    ghost is_down = { it.is_down };

    ghost lasts = { it.lasts };

    /// The number of octets; a call that is listed fails.
    fn len(&mut self) -> Result<u64, DiskFault>
        ensures promises { PromisesLen it.ghosts self.old self.new result }
        ensures reading { IsReading (state self.old) (state self.new) result }
    {
        self.count_reading()?;
        Ok(self.history.present().len() as u64)
    }

    /// Fills the room from this place on; a call that is listed fails, and leaves the room as it is.
    fn read(&mut self, at: u64, room: &mut [u8]) -> Result<(), DiskFault>
        requires { IfSome (it.content self.old) (λ octets. at + length room.old ≤ length octets) }
        ensures promises { PromisesRead it.ghosts at room.old room.new self.old self.new result }
        ensures reading { IsReading (state self.old) (state self.new) result }
        ensures failed { OnErr result (room.new ≡ room.old) }
    {
        self.count_reading()?;
        let at = at as usize;
        room.copy_from_slice(&self.history.present()[at..at + room.len()]);
        Ok(())
    }

    /// Writes octets; a gap before them is filled with zeros. A call that is listed fails, and leaves its range open;
    /// so does one that finds no memory, and the disk is down from then on. One that would end past 2^63, or comes
    /// when the disk is down, fails and changes nothing. It costs the octets written, and those that they find.
    fn write_at(&mut self, at: u64, bytes: &[u8]) -> Result<(), DiskFault>
        ensures promises { PromisesWrite it.ghosts at bytes.now self.old self.new result }
        ensures writing { IsWriting (state self.old) (state self.new) at bytes.now result }
    {
        self.record_write(at, bytes)
    }

    /// Syncs what was written; a call that is listed or comes when the disk is down fails and changes nothing. It
    /// copies no octet.
    fn sync(&mut self) -> Result<(), DiskFault>
        ensures promises { PromisesSync it.ghosts self.old self.new result }
        ensures syncing { IsSyncing (state self.old) (state self.new) result }
    {
        self.record_sync()
    }

    ghost content_is_image = { law.content_is_image };

    ghost images_fit = { law.images_fit };

    ghost counts_now = { law.counts_now };

    ghost earlier = { law.earlier };

    ghost lasts_same = { law.lasts_same };

    ghost lasts_on = { law.lasts_on };
}
