//! Formatting: the header, and the first two gates.

ghost use Rattle.std.specs.Prelude.{◌≡◌, ◌+◌, ◌^◌, ◌<◌, ◌≤◌, length, IfSome};
ghost use Rattle.disk_model.specs.Runs.{IsQuietNow, Makes};
ghost use Rattle.file_journal.specs.Formatting.{IsFinishing, IsMakingEven, IsMakingGates, MakesEven, MakesGates};
ghost use Rattle.file_journal.specs.Header.{AreBlocks, HasSelector};
ghost use Rattle.file_journal.specs.Journal.{IsAfterFinishing, IsAfterRecovery, header_text};
ghost use Rattle.file_journal.specs.Recovery.{IsRecovering};

use crate::Layout;
use crate::layout::HEADER;
use crate::write::write_synced;
use arrayvec::ArrayVec;
use byteorder::{ByteOrder, LittleEndian};
use disk_model::{Disk, DiskFault};

/// The place of the selector.
pub(crate) const SELECTOR: u64 = 15;

/// Formats a disk of at most 16 octets.
pub(crate) fn format_new<D: Disk>(
    disk: &mut D,
    magic: [u8; 8],
    blocks: u32,
    layout: Layout,
) -> Result<(), DiskFault>
    requires quiet { IsQuietNow D.Disk disk.old }
    requires short { IfSome (D.content disk.old) (λ octets. length octets ≤ 16) }
    requires blocks { AreBlocks blocks }
    ensures makes { Makes D.Disk result disk.old disk.new
        (IsAfterRecovery magic layout blocks) (IsRecovering magic layout blocks) }
    ensures calls { D.moment disk.new ≤ D.moment disk.old + 6 }
{
    // A crash before this is synced leaves at most 16 octets, whatever they are: the formatting begins anew.
    write_synced(disk, 0, encode_header(magic, blocks).as_slice())?;
    format_gates(disk, layout.first_gate(blocks))
}

/// Formats a disk of more than 16 octets to its end, whose formatting was interrupted: no octet stands behind its first
/// gate, whose place this is.
pub(crate) fn finish_format<D: Disk>(disk: &mut D, gate: u64, selector: u8) -> Result<(), DiskFault>
    requires quiet { IsQuietNow D.Disk disk.old }
    requires long { IfSome (D.content disk.old) (λ octets. 16 < length octets) }
    requires short { IfSome (D.content disk.old) (λ octets. length octets < gate + 2) }
    requires selector { HasSelector (D.content disk.old) selector }
    requires behind { 16 ≤ gate }
    requires fits { gate < 2 ^ 26 }
    ensures makes { Makes D.Disk result disk.old disk.new (IsAfterFinishing gate) (IsFinishing gate) }
    ensures calls { D.moment disk.new ≤ D.moment disk.old + 6 }
{
    make_selector_even(disk, selector)?;
    format_gates(disk, gate)
}

/// The octets of a header.
fn encode_header(magic: [u8; 8], blocks: u32) -> ArrayVec<u8, 16>
    ensures { result.items ≡ header_text magic blocks }
{
    let mut number = [0; 4];
    LittleEndian::write_u32(&mut number, blocks);
    let mut octets = ArrayVec::new();
    octets.try_extend_from_slice(&magic).unwrap();
    octets.try_extend_from_slice(&number).unwrap();
    octets.try_extend_from_slice(&[0; 4]).unwrap();
    octets
}

/// Makes the selector even, where it is odd, and syncs it.
fn make_selector_even<D: Disk>(disk: &mut D, selector: u8) -> Result<(), DiskFault>
    requires quiet { IsQuietNow D.Disk disk.old }
    requires long { IfSome (D.content disk.old) (λ octets. 16 ≤ length octets) }
    requires selector { HasSelector (D.content disk.old) selector }
    ensures makes { Makes D.Disk result disk.old disk.new MakesEven IsMakingEven }
    ensures calls { D.moment disk.new ≤ D.moment disk.old + 2 }
{
    if selector % 2 == 0 {
        return Ok(());
    }
    // An odd selector chooses the second half of the records, where there are two: so it is made even before there is
    // an octet behind the first gate. A crash before this is synced leaves none there, and no record is read, whatever
    // octet 15 is.
    write_synced(disk, SELECTOR, &[0])
}

/// Writes the first gate, closed, at this place, and one more octet 00 behind it, each synced, on a disk of 16 octets
/// or more, but none behind that gate.
fn format_gates<D: Disk>(disk: &mut D, gate: u64) -> Result<(), DiskFault>
    requires quiet { IsQuietNow D.Disk disk.old }
    requires long { IfSome (D.content disk.old) (λ octets. 16 ≤ length octets) }
    requires short { IfSome (D.content disk.old) (λ octets. length octets ≤ gate + 1) }
    requires behind { 16 ≤ gate }
    requires fits { gate < 2 ^ 26 }
    ensures makes { Makes D.Disk result disk.old disk.new (MakesGates gate) (IsMakingGates gate) }
    ensures calls { D.moment disk.new ≤ D.moment disk.old + 4 }
{
    // A crash before this is synced leaves no octet behind the gate, and no record is read, whatever is before it.
    write_synced(disk, gate, &[0])?;
    // The first gate is synced by now, and closed. A crash before this is synced leaves no octet behind it, or one,
    // which is any: no record is read behind a closed gate.
    write_synced(disk, gate + 1, &[0])
}
