//! Laws of what a disk over a device asks of it, each the contract of a function that does nothing.

ghost use Rattle.real_outside.specs.Disk.DeviceLaws.{IsOneRead, IsOneWrite, IsTornWrite};

/// Writes of a device that are done, however short, leave what one write of all the octets leaves.
pub fn short_writes_law()
    ensures { IsOneWrite }
{}

/// Writes of a device that end with a fault leave no more than a crash may leave of one write of all the octets.
pub fn cut_writes_law()
    ensures { IsTornWrite }
{}

/// Reads of a device that are done, however short, give the octets that are there.
pub fn short_reads_law()
    ensures { IsOneRead }
{}
