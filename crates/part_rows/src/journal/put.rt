//! A journal that is read to its end, and what is put there: a record, and before it octets in a block, if there are
//! blocks, and two records instead of all, if there is no room for it.

ghost use Rattle.std.specs.Prelude.{◌≡◌, ◌≤◌, false, true, None, IfOk, OnOk};
ghost use Rattle.file_journal.specs.Position.{HasRoom, StandsOn};
ghost use Rattle.file_journal.specs.declared.layout.Layout.TheVariants as Layout;

use crate::journal::anew::Anew;
use crate::journal::labelled::Labelled;
use arrayvec::ArrayVec;
use disk_model::{Disk, FuseDisk};
use file_journal::{Journal, JournalFault, Layout, RecordContent, RecoverFault};

/// The first octets of a store.
const MAGIC: [u8; 8] = *b"PXSTORE0";

/// The block number of a new store: 8, or 1 if there are blocks, whose octets are printed.
fn blocks_of(layout: Layout) -> u32
    ensures { (1 ≤ result) × (result ≤ 65536) }
{
    match layout {
        Layout::Growing => 8,
        Layout::Blocks | Layout::Halves => 1,
    }
}

/// The kind and the content of each record, one after another.
pub type Seen = ArrayVec<u8, 700>;

/// How a recovery and a put ended.
#[derive(Clone, Copy, Debug)]
pub enum Ended {
    /// The journal wasn't recovered, or not read to its end.
    Refused(RecoverFault),
    /// The octets or the record weren't put, and then neither was a further record.
    Failed(JournalFault, Result<(), JournalFault>),
    /// The octets are in the block, and weren't read there.
    Unread,
    /// The record is in the journal, and there is room for this number of octets after it.
    Done(u64),
}

/// Recovers the journal and reads it to its end, or up to its damage, and appends what it sees to `seen`.
fn read_to_end<D: Disk>(
    disk: &mut D,
    layout: Layout,
    seen: &mut Seen,
) -> Result<Journal, RecoverFault>
    ensures stands_on { IfOk result (λ journal. StandsOn D.Disk journal disk.new) }
    ensures ended { IfOk result (λ journal. journal.ended ≡ true) }
    ensures layout { IfOk result (λ journal. journal.layout ≡ layout) }
    ensures healthy { IfOk result (λ journal. journal.failed ≡ false) }
    ensures lasts { D.lasts disk.old disk.new }
{
    let mut journal = Journal::recover(disk, MAGIC, blocks_of(layout), layout)?;
    let mut room = ArrayVec::new();
    while let Some(kind) = journal.next(disk, &mut room)? {
        let _room_for_kind = seen.try_push(kind);
        let _room_for_content = seen.try_extend_from_slice(room.as_slice());
    }
    Ok(journal)
}

/// Makes a store of this layout on the disk, or recovers it, and puts a record, and before it octets in block 0, if
/// there are blocks, and other records instead of all, if there is no room for it.
fn put_one<D: Disk>(disk: &mut D, layout: Layout, seen: &mut Seen) -> Ended
    ensures { D.lasts disk.old disk.new }
{
    let mut journal = match read_to_end(disk, layout, seen) {
        Ok(journal) => journal,
        Err(refusal) => return Ended::Refused(refusal),
    };
    if let Some(ended) = put_before(disk, &mut journal, layout, seen) {
        return ended;
    }
    put_record(disk, &mut journal)
}

/// Puts what is put before a record, for which there is room then; how that ended, if it failed.
fn put_before<D: Disk>(
    disk: &mut D,
    journal: &mut Journal,
    layout: Layout,
    seen: &mut Seen,
) -> Option<Ended>
    requires stands_on { StandsOn D.Disk journal.old disk.old }
    requires ended { journal.old.ended ≡ true }
    requires layout { journal.old.layout ≡ layout }
    requires healthy { journal.old.failed ≡ false }
    ensures stands_on { StandsOn D.Disk journal.new disk.new }
    ensures ended { journal.new.ended ≡ true }
    ensures room { result ≡ None → HasRoom journal.new 8 }
    ensures lasts { D.lasts disk.old disk.new }
{
    match layout {
        Layout::Growing => None,
        Layout::Blocks => put_in_block(disk, journal, seen),
        Layout::Halves => put_in_half(disk, journal),
    }
}

/// Puts octets in block 0, and makes room for a record; how that ended, if it failed.
fn put_in_half<D: Disk>(disk: &mut D, journal: &mut Journal) -> Option<Ended>
    requires stands_on { StandsOn D.Disk journal.old disk.old }
    requires ended { journal.old.ended ≡ true }
    requires layout { journal.old.layout ≡ Layout.Halves }
    ensures stands_on { StandsOn D.Disk journal.new disk.new }
    ensures ended { journal.new.ended ≡ true }
    ensures room { result ≡ None → HasRoom journal.new 8 }
    ensures lasts { D.lasts disk.old disk.new }
{
    let Err(fault) = make_room(disk, journal) else {
        return None;
    };
    let _one_at_least = journal.blocks();
    Some(Ended::Failed(fault, journal.write_block(disk, 0, &[])))
}

/// Puts octets in block 0, and then two records instead of all, if there is no room for a record of 8 octets.
fn make_room<D: Disk>(disk: &mut D, journal: &mut Journal) -> Result<(), JournalFault>
    requires stands_on { StandsOn D.Disk journal.old disk.old }
    requires ended { journal.old.ended ≡ true }
    requires layout { journal.old.layout ≡ Layout.Halves }
    ensures stands_on { StandsOn D.Disk journal.new disk.new }
    ensures ended { journal.new.ended ≡ true }
    ensures layout { journal.new.layout ≡ Layout.Halves }
    ensures room { OnOk result (HasRoom journal.new 8) }
    ensures lasts { D.lasts disk.old disk.new }
{
    let _one_at_least = journal.blocks();
    journal.write_block(disk, 0, b"block")?;
    if journal.room() >= 8 {
        return Ok(());
    }
    journal.rewrite(disk, &mut Anew { done: 0 }, &mut RecordContent::new())
}

/// Puts a record.
fn put_record<D: Disk>(disk: &mut D, journal: &mut Journal) -> Ended
    requires stands_on { StandsOn D.Disk journal.old disk.old }
    requires ended { journal.old.ended ≡ true }
    requires room { HasRoom journal.old 8 }
    ensures { D.lasts disk.old disk.new }
{
    match journal.append(disk, 4, &[1, 0, 0, 0]) {
        Ok(()) => Ended::Done(journal.room()),
        Err(fault) => Ended::Failed(fault, journal.append(disk, 4, &[])),
    }
}

/// Puts octets in block 0, and appends seven octets of it from place 1 on to `seen`; how that ended, if it failed.
fn put_in_block<D: Disk>(disk: &mut D, journal: &mut Journal, seen: &mut Seen) -> Option<Ended>
    requires stands_on { StandsOn D.Disk journal.old disk.old }
    requires ended { journal.old.ended ≡ true }
    requires layout { journal.old.layout ≡ Layout.Blocks }
    requires healthy { journal.old.failed ≡ false }
    ensures stands_on { StandsOn D.Disk journal.new disk.new }
    ensures ended { journal.new.ended ≡ true }
    ensures room { HasRoom journal.new 8 }
    ensures lasts { D.lasts disk.old disk.new }
{
    let _one_at_least = journal.blocks();
    if let Err(fault) = journal.write_block(disk, 0, b"block") {
        return Some(Ended::Failed(fault, journal.append(disk, 4, &[])));
    }
    let mut front = [0; 7];
    if journal.read_block(disk, 0, 1, &mut front).is_err() {
        return Some(Ended::Unread);
    }
    let _room_for_front = seen.try_extend_from_slice(&front);
    None
}

/// The same on a labelled disk; its label lasts.
pub fn put_under_label(disk: &mut Labelled<FuseDisk>, layout: Layout, seen: &mut Seen) -> Ended
    ensures { disk.new.label ≡ disk.old.label }
{
    put_one(disk, layout, seen)
}
