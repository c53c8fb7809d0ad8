//! What a store reads of its files from the blocks of its disk.

ghost use Rattle.std.specs.Prelude.{ℕ, ◌+◌, ◌≤◌, length, vec_capacity, IsErr, IsErrOf, IsSome, IsSomeAnd, IsTrue};
ghost use Rattle.std.specs.Prelude.{IfOk, IfSome, OnOk, ◌↔◌};
ghost use Rattle.file_store_blocks.specs.Checking.{ChecksFile, HasFault, IsFaultCode};
ghost use Rattle.file_store_blocks.specs.Placed.{placed_of};
ghost use Rattle.file_store_blocks.specs.PlacedFiles.{store_of};
ghost use Rattle.disk_model.specs.Disk.{FillsRoom};
ghost use Rattle.file_store_model.specs.Headers.{IsHeaderOf, IsWholeHeader};
ghost use Rattle.file_store_model.specs.Store.{entry_of, octets_at};
ghost use Rattle.disk_model.specs.Runs.{Reads};
ghost use Rattle.file_store.specs.Reads.{MayRead};
ghost use Rattle.file_store.specs.State.{IsKnown, IsReady, state_from, store_in, store_on};

use crate::HeaderFault;
use crate::header::is_header;
use disk_model::{Disk, DiskFault};
use file_journal::Kept;
use file_store_blocks::{CheckFault, CheckedHeader, Entries};
use px_base::{FileNumber, Moment};

/// Checks a file of which all octets are held by its header: the sum that the header has with the stamp of this moment,
/// and its length. It reads each octet once. Takes no memory.
pub(crate) fn check_file<D: Disk>(
    kept: &Kept<Entries>,
    disk: &mut D,
    number: FileNumber,
    moment: Moment,
) -> Result<CheckedHeader, CheckFault>
    requires ready { IsReady D.Disk (state_from kept.now.ledger.files kept.now.journal) disk.old }
    requires there { IsSome (placed_of (store_of kept.now.ledger.files) number) }
    ensures header { IfOk result
        (ChecksFile (D.content disk.old) (placed_of (store_of kept.now.ledger.files) number) moment) }
    ensures inside { IfOk result (λ header.
        IfSome (placed_of (store_of kept.now.ledger.files) number) (λ f. header.len ≤ f.held)) }
    ensures fault { (code : ℕ) → IsErrOf result (CheckFault.Header code)
        → HasFault (D.content disk.old) (placed_of (store_of kept.now.ledger.files) number) code }
    ensures code { (code : ℕ) → IsErrOf result (CheckFault.Header code) → IsFaultCode code }
    ensures reads { Reads D.Disk (IsErrOf result CheckFault.Disk) disk.old disk.new }
    ensures ready { IsReady D.Disk (state_from kept.now.ledger.files kept.now.journal) disk.new }
{
    kept.ledger.check(kept, disk, number, moment)
}

/// Fills the room with the octets from this place on of a complete file; they have to be there. Takes no memory.
pub(crate) fn read_file<D: Disk>(
    kept: &Kept<Entries>,
    disk: &mut D,
    number: FileNumber,
    offset: u32,
    room: &mut [u8],
) -> Result<(), DiskFault>
    requires may { MayRead D.Disk (state_from kept.now.ledger.files kept.now.journal) disk.old number }
    requires there { let store = state_from kept.now.ledger.files kept.now.journal in
        offset + length room.old ≤ length (octets_at (entry_of (store_in store) number)) }
    ensures room { OnOk result (IsKnown D.Disk disk.old →
        let store = state_from kept.now.ledger.files kept.now.journal in
        FillsRoom (octets_at (entry_of (store_on D.Disk store disk.old) number)) offset (length room.old) room.new) }
    ensures reads { Reads D.Disk (IsErr result) disk.old disk.new }
    ensures ready { IsReady D.Disk (state_from kept.now.ledger.files kept.now.journal) disk.new }
{
    kept.ledger.read_sealed(kept, disk, number, offset, room)
}

/// Puts the header of a complete file into `header`, which has room for the longest one. Takes no memory.
pub(crate) fn read_header<D: Disk>(
    kept: &Kept<Entries>,
    disk: &mut D,
    number: FileNumber,
    header: &mut Vec<u8>,
) -> Result<(), HeaderFault>
    requires may { MayRead D.Disk (state_from kept.now.ledger.files kept.now.journal) disk.old number }
    requires room { 65535 ≤ vec_capacity header.old }
    ensures room { 65535 ≤ vec_capacity header.new }
    ensures header { OnOk result (IsKnown D.Disk disk.old →
        let store = state_from kept.now.ledger.files kept.now.journal in
        IsHeaderOf (octets_at (entry_of (store_on D.Disk store disk.old) number)) header.new.items) }
    ensures whole { OnOk result (IsWholeHeader header.new.items) }
    ensures inside { OnOk result (let store = state_from kept.now.ledger.files kept.now.journal in
        length header.new.items ≤ length (octets_at (entry_of (store_in store) number))) }
    ensures short { OnOk result (length header.new.items ≤ 65535) }
    ensures there { IsErrOf result HeaderFault.NoHeader → ¬ IsKnown D.Disk disk.old }
    ensures reads { Reads D.Disk (IsErrOf result HeaderFault.Disk) disk.old disk.new }
    ensures ready { IsReady D.Disk (state_from kept.now.ledger.files kept.now.journal) disk.new }
{
    match kept.ledger.read_header(kept, disk, number, header) {
        Ok(()) if fits_file(kept, number, header.len()) && is_header(header) => Ok(()),
        Ok(()) => Err(HeaderFault::NoHeader),
        Err(DiskFault) => Err(HeaderFault::Disk),
    }
}

/// Whether a header of this length is no longer than the file of this number.
fn fits_file(kept: &Kept<Entries>, number: FileNumber, len: usize) -> bool
    ensures { IsTrue result ↔ IsSomeAnd (placed_of (store_of kept.now.ledger.files) number) (λ f. len ≤ f.held) }
{
    match kept.ledger.info(number) {
        Some(info) => len <= info.held as usize,
        None => false,
    }
}
