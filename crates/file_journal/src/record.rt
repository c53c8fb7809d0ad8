//! One record: its text, putting it, and reading it.
//!
//! What a journal that was read to its end does to its disk, call by call, where p is the place of its next gate,
//! which isn't open (the names of the states are those of this picture alone; `recover` also formats):
//!
//! ```text
//!                                recover: sync, then reads
//!                                           |
//!                                           v
//!   +-----------------------------------> QUIET <-----------------------------------------+
//!   |                 a block             | | |          a record                         |
//!   |         +---------------------------+ | +-----------------------+                   |
//!   |         | write_at the block          | no room: write_at       | write_at p + 1    |
//!   |         v                             v the other half          v                   |
//!   |       BLOCK                         ANEW                     RECORD                 |
//!   |         | sync                        | sync                    | sync              |
//!   +---------+                             v                         v                   |
//!   |                                    STAGED                     WHOLE                 |
//!   |                                       | write_at 15             | write_at p        |
//!   |                                       v                         v                   |
//!   |                                   SELECTOR                    GATE                  |
//!   |                                       | sync                    | sync              |
//!   +---------------------------------------+                         +-------------------+
//!
//!   QUIET    -> BLOCK     Journal::put_block: the write of write_synced
//!   BLOCK    -> QUIET     .. and its sync
//!   QUIET    -> RECORD    put_record: the write of the first write_synced
//!   RECORD   -> WHOLE     .. and its sync
//!   WHOLE    -> GATE      put_record: the write of the second write_synced
//!   GATE     -> QUIET     .. and its sync; p is the gate after the record from then on
//!   QUIET    -> ANEW      stage_records: a write for each record, and one for the closed gate
//!   ANEW     -> STAGED    .. and its sync
//!   STAGED   -> SELECTOR  write_half: the write of write_synced
//!   SELECTOR -> QUIET     .. and its sync; p is the gate after the records of the other half
//! ```
//!
//! A call that fails leads nowhere: the journal has failed, nothing more is written, and only a recovery leads on. Up
//! to WHOLE, p isn't 01, and a crash leaves the records before p. In GATE it leaves any octet at p, before a whole
//! record and a closed gate: with 01 this record counts, with any other it doesn't. From there on it counts. In ANEW
//! and STAGED a crash leaves the records before p; in SELECTOR any octet at 15, which says the half of these or the
//! other half, and both stand for the same state.

ghost use Rattle.std.specs.Prelude.{◌≡◌, ◌+◌, ◌^◌, ◌<◌, ◌≤◌, [], length, take, IfOk, IfSome, OnOk, IsErrOf, None};
ghost use Rattle.file_journal.specs.Appending.{IsPutting, OpensGate};
ghost use Rattle.disk_model.specs.Runs.{Makes, Reads};
ghost use Rattle.file_journal.specs.Finding.{IsFound};
ghost use Rattle.file_journal.specs.Next.{FindsRecord, HasOctets, RefusesAt};
ghost use Rattle.file_journal.specs.Records.{reading_at, record_of, whole};

use crate::RecoverFault;
use crate::write::write_synced;
use disk_model::{Disk, DiskFault};
use px_base::le16;
use std::marker::Model;

/// An open gate.
const OPEN: u8 = 1;

/// The most octets that the content of a record has.
const MAX_CONTENT: usize = 600;

/// The most octets from one gate to the next, both among them.
const MOST_READ: usize = 605;

/// Puts octets behind the closed gate at this place, syncs them, and then opens the gate and syncs it.
pub(crate) fn put_record<D: Disk>(disk: &mut D, place: u64, octets: &[u8]) -> Result<(), DiskFault>
    requires far { place < 2 ^ 63 }
    requires gate { IfSome (D.content disk.old) (λ before. place < length before) }
    ensures makes { Makes D.Disk result disk.old disk.new
        (OpensGate place octets.now) (IsPutting place octets.now (D.images disk.old)) }
    ensures fits { OnOk result (place + 1 + length octets.now ≤ 2 ^ 63) }
    ensures four { OnOk result (IfSome (D.content disk.old) (λ _. D.moment disk.new ≡ D.moment disk.old + 4)) }
    ensures at_most { D.moment disk.new ≤ D.moment disk.old + 4 }
{
    // A crash before these octets are synced leaves any octets behind the gate. It stands closed, so none of them is read.
    write_synced(disk, place + 1, octets)?;
    // The whole record is synced by now, and a closed gate behind it. A crash before this gate is synced leaves any
    // octet in its place: where it is 01, the record counts and is whole; where it is another, it doesn't count.
    write_synced(disk, place, &[OPEN])
}

/// What stands from a gate on.
#[derive(Clone, Copy)]
enum Found {
    /// A gate that isn't open.
    Closed,
    /// An open gate, and no whole record with a gate behind it.
    Damaged,
    /// An open gate, and a record with a gate behind it.
    Record {
        kind: u8,
        /// The length of the content in octets, at most 600.
        len: usize,
    },
}

/// What the octets from a gate on begin with.
fn found_in(octets: &[u8]) -> Found
    requires { 0 < length octets.now }
    ensures { IsFound octets.now result }
{
    if octets[0] != OPEN {
        return Found::Closed;
    }
    if octets.len() <= 4 {
        return Found::Damaged;
    }
    let len = usize::from(le16(octets, 2));
    if len > MAX_CONTENT || octets.len() - 4 <= len {
        return Found::Damaged;
    }
    Found::Record {
        kind: octets[1],
        len,
    }
}

/// Where records are read. Contracts see it as the content of the last one.
#[derive(Drop)]
pub(crate) struct RecordRoom {
    /// What was read last, from a gate on.
    octets: [u8; MOST_READ],
    /// The length of the content in octets.
    len: usize,
}

impl Model for RecordRoom {
    ghost use Rattle.std.specs.Prelude.{List, ℕ, ◌≤◌, take, drop};

    ghost Value = { List ℕ };

    ghost view = { λ a. take a.len (drop 4 a.octets) };

    ghost invariant = { λ a. a.len ≤ 600 };
}

impl RecordRoom {
    /// No octets.
    pub(crate) fn new() -> RecordRoom
        ensures { result ≡ [] }
    {
        RecordRoom {
            octets: [0; MOST_READ],
            len: 0,
        }
    }

    /// The content.
    pub(crate) fn content(&self) -> &[u8]
        ensures octets { result.now ≡ self.now }
        ensures most { length result.now ≤ 600 }
    {
        &self.octets[4..4 + self.len]
    }
}

/// Reads the record behind the gate at this place: its kind, with its content in `room`; `None` exactly where the gate
/// isn't open. The disk has `end` octets at least, and none behind them is read. It reads once, into the room.
pub(crate) fn read_record<D: Disk>(
    disk: &mut D,
    end: u64,
    place: u64,
    room: &mut RecordRoom,
) -> Result<Option<u8>, RecoverFault>
    requires end { HasOctets D.Disk disk.old end }
    requires far { place < 2 ^ 63 }
    ensures found { IfOk result (FindsRecord place end room.new (D.content disk.old)) }
    ensures fits { IfOk result (λ next. IfSome next (λ kind. place + 4 + length room.new < end)) }
    ensures none { result ≡ Ok None → IfSome (D.content disk.old) (λ octets.
        reading_at place (take end octets) ≡ whole []) }
    ensures refuses { RefusesAt place end (D.content disk.old) result }
    ensures reads { Reads D.Disk (IsErrOf result RecoverFault.Disk) disk.old disk.new }
{
    if place >= end {
        return Err(RecoverFault::Damaged { at: place });
    }
    let count = (end - place).min(MOST_READ as u64) as usize;
    let front = &mut room.octets[..count];
    disk.read(place, front)?;
    match found_in(front) {
        Found::Closed => Ok(None),
        Found::Damaged => Err(RecoverFault::Damaged { at: place }),
        Found::Record { kind, len } => {
            room.len = len;
            Ok(Some(kind))
        }
    }
}
