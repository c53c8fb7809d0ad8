//! What a disk over a device asks of the device, unless the disk is broken.

ghost use Rattle.std.specs.Prelude.{◌≡◌, ◌⊎◌, ◌↔◌, ◌+◌, ◌≤◌, ◌^◌, true, length, IfOk, IsErr, IsTrue};
ghost use Rattle.px_base.specs.CallRecords.{Asks};
ghost use Rattle.real_outside.specs.Disk.Devices.{AsksLength, AsksUnless, FillsFrom, IsLength, IsMoved, IsReadInto, IsSynced, IsWriteOf, MovesOnce, PutsAt, RefusesRange, SyncsOnce};

use super::device::{Device, DeviceDown};
use disk_model::{DiskFault, MOST_OCTETS, ends_within};

/// The length of the device, unless the disk is broken.
pub(crate) fn length_of<V: Device>(device: &mut V, broken: bool) -> Result<u64, DiskFault>
    ensures most { IfOk result (λ n. n ≤ 2 ^ 63) }
    ensures asks { AsksUnless V.calls (broken ≡ true) device.old device.new result (AsksLength result) }
{
    if broken {
        return Err(DiskFault);
    }
    length_answer(device.len())
}

/// The length of a disk whose device answers so.
fn length_answer(length: Result<u64, DeviceDown>) -> Result<u64, DiskFault>
    ensures most { IfOk result (λ n. n ≤ 2 ^ 63) }
    ensures length { IsLength length result }
{
    match length {
        Ok(length) if length <= MOST_OCTETS => Ok(length),
        _ => Err(DiskFault),
    }
}

/// Fills the room with the octets of the device from this place on, unless the disk is broken, or they would end too
/// far.
pub(crate) fn read_all<V: Device>(
    device: &mut V,
    broken: bool,
    at: u64,
    room: &mut [u8],
) -> Result<(), DiskFault>
    ensures { AsksUnless V.calls (RefusesRange broken at (length room.old))
        device.old device.new result (FillsFrom at room.new result) }
{
    if broken || !ends_within(at, room) {
        return Err(DiskFault);
    }
    fill(device, at, room)
}

/// Fills the room with the octets of the device from this place on, read by read.
fn fill<V: Device>(device: &mut V, at: u64, room: &mut [u8]) -> Result<(), DiskFault>
    requires { at + length room.old ≤ 2 ^ 63 }
    ensures { Asks (V.calls device.old) (V.calls device.new) (FillsFrom at room.new result) }
{
    let mut filled = 0;
    while filled < room.len() {
        filled += read_some(device, at + filled as u64, &mut room[filled..])?;
    }
    Ok(())
}

/// Reads at least one octet from this place on to the beginning of `room`, and says how many.
fn read_some<V: Device>(device: &mut V, at: u64, room: &mut [u8]) -> Result<usize, DiskFault>
    ensures count { IfOk result (λ count. count ≤ length room.old) }
    ensures call { MovesOnce (V.calls device.old) (V.calls device.new) result (IsReadInto at room.new result) }
{
    moved_answer(device.read(at, room))
}

/// Writes octets to the device, unless the disk is broken, or they would end too far; if that fails, the disk is
/// broken.
pub(crate) fn write_all<V: Device>(
    device: &mut V,
    broken: &mut bool,
    at: u64,
    bytes: &[u8],
) -> Result<(), DiskFault>
    ensures asks { AsksUnless V.calls (RefusesRange broken.old at (length bytes.now))
        device.old device.new result (PutsAt at bytes.now result) }
    ensures broken { IsTrue broken.new ↔ ((broken.old ≡ true) ⊎ (IsErr result × (at + length bytes.now ≤ 2 ^ 63))) }
{
    if *broken || !ends_within(at, bytes) {
        return Err(DiskFault);
    }
    let written = put(device, at, bytes);
    *broken = written.is_err();
    written
}

/// Writes octets to the device, write by write.
fn put<V: Device>(device: &mut V, at: u64, bytes: &[u8]) -> Result<(), DiskFault>
    requires { at + length bytes.now ≤ 2 ^ 63 }
    ensures { Asks (V.calls device.old) (V.calls device.new) (PutsAt at bytes.now result) }
{
    let mut written = 0;
    while written < bytes.len() {
        written += write_some(device, at + written as u64, &bytes[written..])?;
    }
    Ok(())
}

/// Writes at least the first one of these octets, and says how many.
fn write_some<V: Device>(device: &mut V, at: u64, bytes: &[u8]) -> Result<usize, DiskFault>
    ensures count { IfOk result (λ count. count ≤ length bytes.now) }
    ensures call { MovesOnce (V.calls device.old) (V.calls device.new) result (IsWriteOf at bytes.now) }
{
    moved_answer(device.write(at, bytes))
}

/// How many octets a disk moved whose device answers so: none, if some are left, is a fault.
fn moved_answer(moved: Result<usize, DeviceDown>) -> Result<usize, DiskFault>
    ensures { IsMoved moved result }
{
    match moved {
        Ok(0) | Err(_) => Err(DiskFault),
        Ok(count) => Ok(count),
    }
}

/// Syncs the device once, unless the disk is broken; if that fails, the disk is broken.
pub(crate) fn sync_once<V: Device>(device: &mut V, broken: &mut bool) -> Result<(), DiskFault>
    ensures asks { AsksUnless V.calls (broken.old ≡ true) device.old device.new result (SyncsOnce result) }
    ensures broken { IsTrue broken.new ↔ IsErr result }
{
    if *broken {
        return Err(DiskFault);
    }
    let synced = sync(device);
    *broken = synced.is_err();
    synced
}

/// Syncs the device.
fn sync<V: Device>(device: &mut V) -> Result<(), DiskFault>
    ensures { Asks (V.calls device.old) (V.calls device.new) (SyncsOnce result) }
{
    synced_answer(device.sync())
}

/// A disk is synced exactly if its device answers so.
fn synced_answer(synced: Result<(), DeviceDown>) -> Result<(), DiskFault>
    ensures { IsSynced synced result }
{
    synced.map_err(|_| DiskFault)
}
