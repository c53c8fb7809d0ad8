//! Octets of complete files that are still to be sent.

ghost use Rattle.std.specs.Prelude.{◌≡◌, ◌+◌, ◌-◌, ◌<◌, ◌≤◌, ◌++◌, [], length, map, min, take, IfOk, IsErr, OnErr};
ghost use Rattle.std.specs.Prelude.{OnOk};
ghost use Rattle.file_store.specs.Reads.{OnlyReads};
ghost use Rattle.file_store.specs.State.{IsKnown, IsReady, store_in, store_on};
ghost use Rattle.ftl0_session.specs.Downloads.Needs.{AreStored, LiesIn};
ghost use Rattle.ftl0_session.specs.Downloads.Sending.{after_octets, due_len, due_octets, joined, most_data, moved};
ghost use Rattle.ftl0_session.specs.Downloads.Spans.{due_of};

use arrayvec::ArrayVec;
use disk_model::{Disk, DiskFault};
use file_store::FileStore;
use px_base::FileNumber;

/// How many octets a DATA has at most.
pub(crate) const MOST_DATA: usize = 254;

/// How many files a directory command lists at most.
pub(crate) const MOST_LISTED: usize = 10;

/// The octets of a DATA.
pub(crate) type Part = ArrayVec<u8, MOST_DATA>;

/// What is due of the files that are listed.
pub(crate) type Spans = ArrayVec<Span, MOST_LISTED>;

/// The octets of the complete file of this number from one place up to another.
#[derive(Clone, Copy)]
pub(crate) struct Span {
    pub(crate) number: FileNumber,
    pub(crate) place: u32,
    pub(crate) last: u32,
}

impl Default for Span {
    fn default() -> Span {
        Span {
            number: FileNumber::new(0),
            place: 0,
            last: 0,
        }
    }
}

impl Span {
    /// Reads its first octets after those that are there, up to 254 in all, and moves on past them. The fault comes
    /// only if a read of the disk failed. Takes no memory.
    pub(crate) fn read<D: Disk>(
        &mut self,
        disk: &mut D,
        store: &mut FileStore,
        part: &mut Part,
    ) -> Result<(), DiskFault>
        requires ready { IsReady D.Disk store.old disk.old }
        requires within { LiesIn (store_in store.old) self.old.number self.old.place self.old.last }
        ensures octets { OnOk result (IsKnown D.Disk disk.old → part.new.items ≡ part.old.items
            ++ take (most_data - length part.old.items)
            (due_octets (store_on D.Disk store.old disk.old) (due_of self.old))) }
        ensures count { OnOk result (length part.new.items ≡ length part.old.items
            + min (most_data - length part.old.items) (due_len (due_of self.old))) }
        ensures moved { OnOk result (due_of self.new
            ≡ moved (min (most_data - length part.old.items) (due_len (due_of self.old))) (due_of self.old)) }
        ensures some { OnErr result (0 < due_len (due_of self.old)) }
        ensures reads { OnlyReads D.Disk (IsErr result) store.old store.new disk.old disk.new }
    {
        let count = (MOST_DATA - part.len()).min((self.last - self.place) as usize);
        if count == 0 {
            return Ok(());
        }
        let mut room = [0; MOST_DATA];
        store.read_at(disk, self.number, self.place, &mut room[..count])?;
        part.try_extend_from_slice(&room[..count]).unwrap();
        self.place += count as u32;
        Ok(())
    }
}

/// Reads the first octets of these spans, one after another, up to 254 in all, and gives what is due after them. The
/// fault comes only if a read of the disk failed. Takes no memory.
pub(crate) fn read_spans<D: Disk>(
    disk: &mut D,
    store: &mut FileStore,
    spans: &[Span],
    part: &mut Part,
) -> Result<Spans, DiskFault>
    requires ready { IsReady D.Disk store.old disk.old }
    requires few { length spans.now ≤ 10 }
    requires within { AreStored (store_in store.old) (map due_of spans.now) }
    requires empty { part.old.items ≡ [] }
    ensures octets { OnOk result (IsKnown D.Disk disk.old → part.new.items
        ≡ take most_data (joined (store_on D.Disk store.old disk.old) (map due_of spans.now))) }
    ensures count { OnOk result
        (length part.new.items ≡ min most_data (length (joined (store_in store.old) (map due_of spans.now)))) }
    ensures left { IfOk result (λ left. map due_of left.items ≡ after_octets most_data (map due_of spans.now)) }
    ensures some { OnErr result (0 < length (joined (store_in store.old) (map due_of spans.now))) }
    ensures reads { OnlyReads D.Disk (IsErr result) store.old store.new disk.old disk.new }
{
    let mut left = ArrayVec::new();
    for span in spans {
        let mut span = *span;
        span.read(disk, store, part)?;
        left.push(span);
    }
    Ok(left)
}
