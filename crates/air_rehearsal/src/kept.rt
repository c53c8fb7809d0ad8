//! What the server's store keeps at the end.

ghost use Rattle.std.specs.Prelude.{◌≡◌, ℕ, ◌≤◌, [], ◌∷◌, List, IfOk, None, OnOk, Some, true};
ghost use Rattle.std.specs.Option.{option_map};
ghost use Rattle.pfh_items.specs.Faults.{fault_code};
ghost use Rattle.pfh_items.specs.Layout.{FileText, ItemValue};
ghost use Rattle.file_store_model.specs.Info.{info_of};
ghost use Rattle.file_store_model.specs.Store.{entry_of, octets_at};
ghost use Rattle.file_store.specs.State.{IsKnown, IsReady, store_in, store_on};
ghost use Rattle.air_world.specs.Attempts.Party.{Party as PlayedParty, file_of_task};
ghost use Rattle.air_world.specs.Files.Kept.{HoldsAck, IsKept};
ghost use Rattle.air_world.specs.Sound.{Sound};
ghost use Rattle.air_world.specs.World.{World, store_blocks};
ghost use Rattle.air_rehearsal.specs.Counting.{EndsSo};
ghost use Rattle.air_rehearsal.specs.Ending.{CountsAcked, IsAtEnd, IsStampedFor, IsUpload, LooksOnly, moment_in};
ghost use Rattle.air_rehearsal.specs.Report.{all_tasks, tasks_of};
ghost use Rattle.air_rehearsal.specs.Standing.{StandsNow};
ghost use Rattle.air_rehearsal.specs.Stations.{the_server};
ghost use Rattle.air_rehearsal.specs.TakingPart.{Seat};
ghost use Rattle.air_rehearsal.specs.Worlds.{PlaysParty, PlaysStations};

use crate::asking::file_of;
use crate::party::Party;
use crate::report::Report;
use crate::stations::{LIMITS, Stations};
use crate::stopped::{Breach, Stopped};
use air_world::laws::parts_law;
use client_notes::{Noted, TaskNumber};
use disk_model::Disk;
use file_store::laws::{state_law, told_law};
use file_store::{FileStore, Info};
use pfh_items::UPLOAD_TIME;
use pfh_reader::check;
use pfh_writer::stamp;
use px_base::{Call, FileBytes, FileNumber, Moment, le32};
use std::alloc::Global;

impl Stations {
    /// What came of the rehearsal, in whose world the server is closed: its store is recovered from its disk. Takes
    /// memory.
    pub(crate) fn end<D: Disk>(&self, disk: &mut D) -> Result<Report, Stopped>
        ensures ends { IfOk result (λ report. (world : World) → Sound world → PlaysStations self.now world
            → world.server.store.blocks ≡ store_blocks → StandsNow D.Disk the_server world disk.old
            → EndsSo D.Disk world self.now.report disk.old disk.new report) }
        ensures lasts { D.lasts disk.old disk.new }
    {
        let mut report = self.report;
        let mut store = match FileStore::recover(self.alloc, disk, LIMITS) {
            Ok(store) => store,
            Err(fault) => return Err(Stopped::of_store(fault)),
        };
        state_law(&store);
        self.count_all(&mut store, disk, &mut report)?;
        Ok(report)
    }

    /// Counts the tasks of all clients that were acknowledged. Takes memory.
    fn count_all<D: Disk>(
        &self,
        store: &mut FileStore,
        disk: &mut D,
        report: &mut Report,
    ) -> Result<(), Stopped>
        requires { IsReady D.Disk store.old disk.old }
        ensures looks { LooksOnly D.Disk store.old store.new disk.old disk.new }
        ensures counts { OnOk result ((world : World) → Sound world → PlaysStations self.now world
            → IsKnown D.Disk disk.old → store_on D.Disk store.old disk.old ≡ world.server.store
            → CountsAcked (all_tasks world) report.old report.new) }
    {
        for party in &self.parties {
            self.count_tasks(store, disk, report, party)?;
        }
        Ok(())
    }

    /// Counts the tasks of a client that were acknowledged. Takes memory.
    fn count_tasks<D: Disk>(
        &self,
        store: &mut FileStore,
        disk: &mut D,
        report: &mut Report,
        party: &Party,
    ) -> Result<(), Stopped>
        requires { IsReady D.Disk store.old disk.old }
        ensures looks { LooksOnly D.Disk store.old store.new disk.old disk.new }
        ensures counts { OnOk result ((seat : Seat) → IsAtEnd D.Disk self.now party.now store.old disk.old seat
            → CountsAcked (tasks_of seat.party) report.old report.new) }
    {
        for before in 0..party.client.notes().tasks() {
            self.count_task(store, disk, report, party, TaskNumber::new(before + 1))?;
        }
        Ok(())
    }

    /// Counts the task of this number of a client, where it was acknowledged. Takes memory.
    fn count_task<D: Disk>(
        &self,
        store: &mut FileStore,
        disk: &mut D,
        report: &mut Report,
        party: &Party,
        task: TaskNumber,
    ) -> Result<(), Stopped>
        requires ready { IsReady D.Disk store.old disk.old }
        requires some { 1 ≤ task }
        ensures looks { LooksOnly D.Disk store.old store.new disk.old disk.new }
        ensures counts { OnOk result ((seat : Seat) → IsAtEnd D.Disk self.now party.now store.old disk.old seat
            → CountsAcked (record { party = seat.party; task = task } ∷ []) report.old report.new) }
    {
        let Some(noted) = party.client.notes().noted_task(task) else {
            return Ok(());
        };
        let Noted::Acked { number, .. } = noted else {
            return Ok(());
        };
        let is_kept = self.is_kept(store, disk, party, task, number)?;
        report.count_acked(is_kept);
        Ok(())
    }

    /// Whether the store has the file of the task of this number of a client, which was acknowledged with that number.
    /// Takes memory.
    fn is_kept<D: Disk>(
        &self,
        store: &mut FileStore,
        disk: &mut D,
        party: &Party,
        task: TaskNumber,
        number: FileNumber,
    ) -> Result<bool, Stopped>
        requires ready { IsReady D.Disk store.old disk.old }
        requires some { 1 ≤ task }
        ensures looks { LooksOnly D.Disk store.old store.new disk.old disk.new }
        ensures kept { IfOk result (λ is_kept. (seat : Seat)
            → IsAtEnd D.Disk self.now party.now store.old disk.old seat
            → HoldsAck seat.party task number → is_kept ≡ true) }
    {
        parts_law();
        let Some(file) = self.file_at(party, task)? else {
            return Ok(false);
        };
        let caller = party.client.me();
        let kept = octets_of(self.alloc, store, disk, number, caller)?;
        Ok(is_stamped(file, kept.as_slice(), number, caller))
    }

    /// The file of the task of this number of a client. Takes memory.
    pub(crate) fn file_at(
        &self,
        party: &Party,
        task: TaskNumber,
    ) -> Result<Option<FileBytes>, Stopped>
        requires { 1 ≤ task }
        ensures { IfOk result (λ file. (world : World) (played : PlayedParty) → PlaysStations self.now world
            → PlaysParty party.now played → file_of_task world.files played task ≡ file) }
    {
        let number = task.get();
        let Some(upload) = party.uploads.get(number as usize - 1) else {
            return Ok(None);
        };
        match self.uploads.get(*upload as usize) {
            Some(asked) => Ok(Some(file_of(self.alloc, *upload, asked.octets)?)),
            None => Ok(None),
        }
    }
}

/// The octets of the complete file of this number, of this caller; none where there is no such one. What they are is
/// promised where it is known what the store's files hold. Takes memory.
fn octets_of<D: Disk>(
    alloc: Global,
    store: &mut FileStore,
    disk: &mut D,
    number: FileNumber,
    caller: Call,
) -> Result<Vec<u8>, Stopped>
    requires { IsReady D.Disk store.old disk.old }
    ensures looks { LooksOnly D.Disk store.old store.new disk.old disk.new }
    ensures octets { IfOk result (λ octets. IsKnown D.Disk disk.old → (file : List ℕ)
        → IsKept (store_on D.Disk store.old disk.old) number file caller
        → IsStampedFor file number caller octets.items) }
{
    told_law(store, disk);
    match store.info(number) {
        Some(info) if info.complete && info.caller == caller => {
            read_all(alloc, store, disk, number, info)
        }
        _ => Ok(Vec::new(alloc)),
    }
}

/// The octets of the complete file of this number, as its disk has them. Takes memory.
fn read_all<D: Disk>(
    alloc: Global,
    store: &mut FileStore,
    disk: &mut D,
    number: FileNumber,
    info: Info,
) -> Result<Vec<u8>, Stopped>
    requires ready { IsReady D.Disk store.old disk.old }
    requires there { option_map info_of (entry_of (store_in store.old) number) ≡ Some info }
    requires complete { info.complete ≡ true }
    ensures looks { LooksOnly D.Disk store.old store.new disk.old disk.new }
    ensures octets { IfOk result (λ octets. IsKnown D.Disk disk.old
        → octets.items ≡ octets_at (entry_of (store_on D.Disk store.old disk.old) number)) }
{
    told_law(store, disk);
    let mut octets = Vec::new(alloc);
    octets.resize(info.held as usize, 0)?;
    match store.read_at(disk, number, 0, octets.as_mut_slice()) {
        Ok(()) => Ok(octets),
        Err(_) => Err(Stopped::Broken(Breach::FileUnread)),
    }
}

/// Whether these octets are the file, stamped for this number and caller and the moment that they say themselves.
fn is_stamped(file: FileBytes, octets: &[u8], number: FileNumber, caller: Call) -> bool
    ensures { IsUpload file → IsStampedFor file number caller octets.now → result ≡ true }
{
    let Some(moment) = upload_time(octets) else {
        return false;
    };
    let mut file = file.into_vec();
    if check(file.as_slice()).is_err() {
        return false;
    }
    stamp(file.as_mut_slice(), number, caller, moment);
    file.as_slice() == octets
}

/// The moment that a file without fault says it was stamped at, if it does.
fn upload_time(file: &[u8]) -> Option<Moment>
    ensures { (items : List ItemValue) (body : List ℕ) → FileText items body file.now
        → fault_code file.now ≡ None → result ≡ moment_in items }
{
    let Ok(header) = check(file) else {
        return None;
    };
    let moment = header.field(UPLOAD_TIME)?;
    if moment.len() != 4 {
        return None;
    }
    Some(Moment::new(le32(moment, 0)))
}
