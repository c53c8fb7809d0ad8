//! Rewriting: the records of a journal are written anew, into its other half.

ghost use Rattle.std.specs.Prelude.{List, ◌≡◌, ◌↔◌, ◌+◌, ◌^◌, ◌≤◌, [], ◌∷◌, length, false, true, None, IfOk};
ghost use Rattle.std.specs.Prelude.{IfSome, IsErr, IsErrOf};
ghost use Rattle.file_journal.specs.Appending.{IsTornFrom, TakesCalls};
ghost use Rattle.disk_model.specs.Runs.{IsQuietNow, Makes, Puts};
ghost use Rattle.file_journal.specs.Layout.{selector_of};
ghost use Rattle.file_journal.specs.Position.{StandsOn};
ghost use Rattle.file_journal.specs.Records.{Record, record_of, records_text};
ghost use Rattle.file_journal.specs.Rewriting.{Chooses, Covers, IsChoosing, Lays, MayRewrite, WritesAnew, anew_text};

use crate::content::{CLOSED, close_text};
use crate::format::SELECTOR;
use crate::write::write_synced;
use crate::{Half, Journal, JournalFault, RecordContent};
use disk_model::{Disk, DiskFault};

/// Records, one after another.
pub trait Records {
    /// Those that are left.
    ghost left: { Self → List Record };

    /// Writes the next record: its kind, with the content in place of what `content` holds; `None` behind the last
    /// one. Takes no memory.
    fn next(&mut self, content: &mut RecordContent) -> Option<u8>
        ensures some { IfSome result (λ kind. left self.old ≡ record_of kind content.new ∷ left self.new) }
        ensures none { result ≡ None → left self.old ≡ [] };
}

impl Journal {
    /// Puts these records in place of all that the journal has: writes them into its other half, syncs them, and then
    /// chooses that half. The layout is `Halves`, `next` has to have answered `None`, and the records have room in a
    /// half, with a closed gate. After `Ok` a crash leaves these records, until then these or the ones from before; the
    /// blocks hold what they held. It makes a write for each record and one more, a sync, a write and a sync, and reads
    /// nothing. What `content` holds is lost. Takes no memory.
    ///
    /// `Disk`: the old records may stand or the new ones, and the journal answers `Failed` from then on, where nothing
    /// is touched; a new recovery is needed. No write and no sync follows a call of the disk that failed.
    pub fn rewrite<D: Disk, R: Records>(
        &mut self,
        disk: &mut D,
        records: &mut R,
        content: &mut RecordContent,
    ) -> Result<(), JournalFault>
        requires stands_on { StandsOn D.Disk self.old disk.old }
        requires quiet { self.old.failed ≡ false → IsQuietNow D.Disk disk.old }
        requires may { MayRewrite self.old (R.left records.old) }
        ensures anew { WritesAnew D.Disk (R.left records.old) self.old self.new disk.old disk.new result }

        // `Failed` comes exactly after an earlier `Disk`, and touches nothing.
        ensures failed { IsErrOf result JournalFault.Failed ↔ (self.old.failed ≡ true) }
        ensures untouched { IsErrOf result JournalFault.Failed → (self.new ≡ self.old) × (disk.new ≡ disk.old) }
        ensures puts { Puts D.Disk (IsErrOf result JournalFault.Disk) disk.old disk.new }
    {
        if self.failed() {
            return Err(JournalFault::Failed);
        }
        self.put_records(disk, records, content)?;
        Ok(())
    }

    /// Puts these records in place of all that the journal has, as [`rewrite`](Journal::rewrite) does, of a journal of
    /// which nothing failed before. Takes no memory.
    pub(crate) fn put_records<D: Disk, R: Records>(
        &mut self,
        disk: &mut D,
        records: &mut R,
        content: &mut RecordContent,
    ) -> Result<(), DiskFault>
        requires stands_on { StandsOn D.Disk self.old disk.old }
        requires quiet { IsQuietNow D.Disk disk.old }
        requires healthy { self.old.failed ≡ false }
        requires may { MayRewrite self.old (R.left records.old) }
        ensures anew { WritesAnew D.Disk (R.left records.old) self.old self.new disk.old disk.new result }
        ensures puts { Puts D.Disk (IsErr result) disk.old disk.new }
    {
        let (half, gate) = self.other_half();
        match write_half(disk, gate, half, records, content) {
            Ok(end) => {
                self.choose(half, end);
                Ok(())
            }
            Err(fault) => {
                self.fail();
                Err(fault)
            }
        }
    }
}

/// Stages these records in a half whose first gate is at this place, and chooses that half: the place of the gate
/// behind them.
fn write_half<D: Disk, R: Records>(
    disk: &mut D,
    gate: u64,
    half: Half,
    records: &mut R,
    content: &mut RecordContent,
) -> Result<u64, DiskFault>
    requires quiet { IsQuietNow D.Disk disk.old }
    requires fits { gate + length (records_text (R.left records.old)) + 1 ≤ 2 ^ 63 }
    ensures end { IfOk result (λ end. end ≡ gate + length (records_text (R.left records.old))) }
    ensures makes { Makes D.Disk result disk.old disk.new
        (Chooses gate (anew_text (R.left records.old)) (selector_of half))
        (IsChoosing gate (anew_text (R.left records.old))) }
    ensures calls { TakesCalls D.Disk (length (R.left records.old) + 4) disk.old disk.new result }
{
    let end = stage_records(disk, gate, records, content)?;
    // Both halves are whole by now. A crash before the selector is synced leaves any octet in its place: the records
    // from before are read, or these.
    write_synced(disk, SELECTOR, &[half.selector()])?;
    Ok(end)
}

/// Writes these records and a closed gate from this place on, and syncs them: the place of that gate.
fn stage_records<D: Disk, R: Records>(
    disk: &mut D,
    gate: u64,
    records: &mut R,
    content: &mut RecordContent,
) -> Result<u64, DiskFault>
    requires fits { gate + length (records_text (R.left records.old)) + 1 ≤ 2 ^ 63 }
    ensures end { IfOk result (λ end. end ≡ gate + length (records_text (R.left records.old))) }
    ensures makes { Makes D.Disk result disk.old disk.new (Lays gate (anew_text (R.left records.old)))
        (λ _. IsTornFrom (D.images disk.old) gate (length (anew_text (R.left records.old)))) }
    ensures calls { TakesCalls D.Disk (length (R.left records.old) + 2) disk.old disk.new result }
{
    let end = write_records(disk, gate, records, content)?;
    disk.write_at(end, &[CLOSED])?;
    // A crash before this sync leaves any octets in the half that isn't read. Where it fails, it isn't tried again.
    disk.sync()?;
    Ok(end)
}

/// Writes these records, each behind an open gate, from this place on: the place behind the last one.
fn write_records<D: Disk, R: Records>(
    disk: &mut D,
    gate: u64,
    records: &mut R,
    content: &mut RecordContent,
) -> Result<u64, DiskFault>
    requires fits { gate + length (records_text (R.left records.old)) + 1 ≤ 2 ^ 63 }
    ensures end { IfOk result (λ end. end ≡ gate + length (records_text (R.left records.old))) }
    ensures covers { Covers D.Disk (length (R.left records.old)) gate (records_text (R.left records.old))
        disk.old disk.new result }
{
    let mut place = gate;
    while let Some(kind) = records.next(content) {
        close_text(&mut content.text, kind, content.len);
        let text = &content.text[..4 + content.len];
        disk.write_at(place, text)?;
        place += text.len() as u64;
    }
    Ok(place)
}
