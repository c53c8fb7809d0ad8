//! A write that is synced.

ghost use Rattle.std.specs.Prelude.{◌≡◌, ◌+◌, ◌^◌, ◌≤◌, length, IfSome, OnOk};
ghost use Rattle.disk_model.specs.Disk.{Writes};
ghost use Rattle.file_journal.specs.Appending.{IsTornFrom};
ghost use Rattle.disk_model.specs.Runs.{Makes};

use disk_model::{Disk, DiskFault};

/// Writes octets at this place and syncs them. After `Ok` a crash leaves them; until then, and after a fault, any octets
/// in their range.
pub(crate) fn write_synced<D: Disk>(disk: &mut D, at: u64, octets: &[u8]) -> Result<(), DiskFault>
    ensures makes { Makes D.Disk result disk.old disk.new
        (Writes at octets.now) (λ _. IsTornFrom (D.images disk.old) at (length octets.now)) }
    ensures fits { OnOk result (at + length octets.now ≤ 2 ^ 63) }
    ensures two { OnOk result (IfSome (D.content disk.old) (λ _. D.moment disk.new ≡ D.moment disk.old + 2)) }
    ensures at_most { D.moment disk.new ≤ D.moment disk.old + 2 }
{
    disk.write_at(at, octets)?;
    // A crash before this sync leaves any octets in the range. Where it fails, it isn't tried again: another one may
    // pass though the octets never came to the device.
    disk.sync()
}
