//! A disk over a device. Its content can't be observed; it counts its faults.

ghost use Rattle.std.specs.Prelude.{◌≡◌, ◌⊎◌, ◌↔◌, ◌+◌, ◌≤◌, ◌^◌, true, false, length, IfOk, IsErr, IsTrue};
ghost use Rattle.real_outside.specs.Counts.{CountsFirst};
ghost use Rattle.real_outside.specs.Disk.Devices.{AsksLength, AsksUnless, AsksUnlessBroken, FillsFrom, PutsAt, RefusesRange, SyncsOnce};
ghost use Rattle.real_outside.specs.Disk.Untold.{no_content, no_images, no_moment, no_past};

use super::device::Device;
use super::moves::{length_of, read_all, sync_once, write_all};
use disk_model::{Disk, DiskFault};
use px_base::FaultCount;
use std::marker::Model;

/// A disk over a device, which it reads and writes in place. Short reads and writes are continued. Once a write or a
/// sync of the device failed, the disk is broken: each further call fails and reaches no device, since a sync that
/// follows may answer Ok for octets that never came to the device. Takes no memory.
#[derive(Drop)]
pub struct DeviceDisk<V> {
    device: V,
    broken: bool,
    read_faults: FaultCount,
    write_faults: FaultCount,
}

impl<V> Model for DeviceDisk<V> {
    ghost use Rattle.real_outside.specs.Disk.Devices.{DeviceDiskState};

    ghost Value = { DeviceDiskState V };

    ghost view = { λ a. record {
      device = a.device;
      broken = a.broken;
      read_faults = a.read_faults;
      write_faults = a.write_faults;
    } };
}

impl<V: Device> DeviceDisk<V> {
    /// A disk over this device, which no call has reached yet. Takes no memory.
    pub fn over(device: V) -> DeviceDisk<V>
        ensures { result ≡ record { device = device; broken = false; read_faults = 0; write_faults = 0 } }
    {
        DeviceDisk {
            device,
            broken: false,
            read_faults: FaultCount::new(),
            write_faults: FaultCount::new(),
        }
    }

    /// The device.
    pub fn device(&self) -> &V
        ensures { result.now ≡ self.now.device }
    {
        &self.device
    }
}

impl<V: Device> Disk for DeviceDisk<V> {
    ghost content = { λ _. no_content };

    ghost images = { λ _. no_images };

    ghost moment = { λ _. no_moment };

    ghost images_since = { λ _. no_past };

    ghost read_faults = { λ d. d.read_faults };

    ghost write_faults = { λ d. d.write_faults };

    ghost is_down = { λ _. ⊥ };

    ghost lasts = { λ _ _. Unit {0} };

    /// The length of the device; one above 2^63 is a fault.
    fn len(&mut self) -> Result<u64, DiskFault>
        ensures most { IfOk result (λ n. n ≤ 2 ^ 63) }
        ensures faults { CountsFirst self.old.read_faults self.new.read_faults self.old.write_faults
            self.new.write_faults result }
        ensures asks { AsksUnlessBroken V.calls self.old self.new result (AsksLength result) }
        ensures broken { self.new.broken ≡ self.old.broken }
    {
        let length = length_of(&mut self.device, self.broken);
        self.read_faults.count_err(length)
    }

    /// Fills the room with the octets of the device from this place on. If a read of the device gives none before the
    /// room is full, as at its end, it is a fault; a range that would end past 2^63 is one that reaches no device.
    fn read(&mut self, at: u64, room: &mut [u8]) -> Result<(), DiskFault>
        ensures faults { CountsFirst self.old.read_faults self.new.read_faults self.old.write_faults
            self.new.write_faults result }
        ensures asks { AsksUnless V.calls (RefusesRange self.old.broken at (length room.old))
            self.old.device self.new.device result (FillsFrom at room.new result) }
        ensures broken { self.new.broken ≡ self.old.broken }
    {
        let read = read_all(&mut self.device, self.broken, at, room);
        self.read_faults.count_err(read)
    }

    /// Writes octets in place. If a write of the device fails, or writes none of those left, it is a fault, and the
    /// disk is broken; a range that would end past 2^63 is one that reaches no device, and breaks nothing.
    fn write_at(&mut self, at: u64, bytes: &[u8]) -> Result<(), DiskFault>
        ensures faults { CountsFirst self.old.write_faults self.new.write_faults self.old.read_faults
            self.new.read_faults result }
        ensures asks { AsksUnless V.calls (RefusesRange self.old.broken at (length bytes.now))
            self.old.device self.new.device result (PutsAt at bytes.now result) }
        ensures broken { IsTrue self.new.broken
            ↔ ((self.old.broken ≡ true) ⊎ (IsErr result × (at + length bytes.now ≤ 2 ^ 63))) }
    {
        let written = write_all(&mut self.device, &mut self.broken, at, bytes);
        self.write_faults.count_err(written)
    }

    /// Syncs the device once. If that fails, the disk is broken.
    fn sync(&mut self) -> Result<(), DiskFault>
        ensures faults { CountsFirst self.old.write_faults self.new.write_faults self.old.read_faults
            self.new.read_faults result }
        ensures asks { AsksUnlessBroken V.calls self.old self.new result (SyncsOnce result) }
        ensures broken { IsTrue self.new.broken ↔ IsErr result }
    {
        let synced = sync_once(&mut self.device, &mut self.broken);
        self.write_faults.count_err(synced)
    }

    ghost content_is_image = { λ _. tt };

    ghost images_fit = { λ _ _ none. absurd none };

    ghost counts_now = { λ _ _ _ _ none. absurd none };

    ghost earlier = { λ _ _ _ _ _ none. none };

    ghost lasts_same = { λ _. tt };

    ghost lasts_on = { λ _ _ _ _ _. tt };
}
