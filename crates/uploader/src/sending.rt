//! A file is sent.

ghost use Rattle.std.specs.Prelude.{◌≡◌, ◌≤◌, length};
ghost use Rattle.ftl0_client.specs.Window.{IsGoodK};
ghost use Rattle.turn_loop.specs.Lent.{lent, seen};
ghost use Rattle.turn_loop.specs.Turns.{lent_party};
ghost use Rattle.uploader.specs.Causes.{HasCauses};
ghost use Rattle.uploader.specs.Loading.{HasShelfCause, IsPastFile, RefusesFile};
ghost use Rattle.uploader.specs.OnDisk.{RefusesNotes};
ghost use Rattle.uploader.specs.Sending.{SendEnds};
ghost use Rattle.ftl0_client.specs.Client.{Client as ClientValue};
ghost use Rattle.ftl0_client.specs.ClientState.{IsClient};
ghost use Rattle.uploader.specs.Turns.Carried.{MayBeAsked, MayCarryOut};
ghost use Rattle.uploader.specs.Ready.{IsUpload, UploadsJob};
ghost use Rattle.uploader.specs.Stops.{stop_of_start};

use crate::loading::load_file;
use crate::recovering::{let_go, recover_client};
use crate::sum::sum_of_file;
use crate::turns::carry_out;
use crate::{ClientTerms, FileSum, SendStop, Sent};
use client_notes::{Begun, NotesRefusal};
use disk_model::Disk;
use ftl0_client::{Client, Job, Outcome};
use px_base::{Air, Clock, FileNumber, Shelf};
use std::alloc::Global;

/// Sends the file that the shelf has under this name, 1 to 64 octets, to the server. The file, of at most 4,194,304
/// octets, is loaded and checked first (PFH 1990); where it isn't there, is too long or has a fault, nothing else is
/// touched. Then the notes are recovered from the disk, and the task of this server, caller and name is started, or the
/// last one is gone on with. A file that was acknowledged before is sent already: nothing is said, and the clock isn't
/// asked. Else its upload is asked and carried out (FTL0 1990, uploads), from the place on that the server names. What
/// is noted is on the disk before any frame of that event is put. Takes memory for the file, and for the notes.
///
/// It is sent exactly where the server acknowledged it, now or before, and that is noted on the disk. Each
/// [`SendStop`] but `Out` may come; `Changed` leaves the notes as they were.
pub fn send<D: Disk, A: Air, S: Shelf, C: Clock>(
    alloc: Global,
    disk: &mut D,
    air: &mut A,
    shelf: &mut S,
    clock: &mut C,
    terms: &ClientTerms,
    name: &str,
) -> Result<Sent, SendStop>
    requires window { IsGoodK terms.now.k }
    requires some { 1 ≤ length name.now }
    requires most { length name.now ≤ 64 }

    // But for faults and want of memory, each stop by the file or by the notes' disk comes exactly where its cause is
    // told.
    ensures file { RefusesFile (S.held shelf.old) name.now result }
    ensures notes { IsPastFile result → RefusesNotes (D.content disk.old) result }

    // How it ended: what was touched and said, and what stands on the disk at each moment.
    ensures ends { SendEnds (seen D.Disk A.Air C.given) (lent disk.old air.old clock.old)
        (lent disk.new air.new clock.new) (S.held shelf.old) terms.now name.now result }
    ensures held { S.held shelf.new ≡ S.held shelf.old }

    // Each cause rose in a count.
    ensures shelf { HasShelfCause (S.faults shelf.old) (S.faults shelf.new) result }
    ensures causes { HasCauses (seen D.Disk A.Air C.given) (lent disk.old air.old clock.old)
        (lent disk.new air.new clock.new) result }
{
    let file = load_file(alloc, shelf, name)?;
    let sum = sum_of_file(file.as_slice());
    let mut client = recover_client(alloc, disk, terms)?;
    match client.start_task(disk, name, sum.length, sum.digest) {
        Ok(begun) => match begun {
            Begun::Already { number } => {
                let_go(client);
                Ok(Sent { number })
            }
            Begun::Fresh { task } => {
                let job = Job::upload(task, FileNumber::new(0), file);
                let (client, sent) = upload(alloc, client, job, disk, air, clock, terms.polls);
                let_go(client);
                sent
            }
            Begun::Going { task, number } => {
                let job = Job::upload(task, number, file);
                let (client, sent) = upload(alloc, client, job, disk, air, clock, terms.polls);
                let_go(client);
                sent
            }
        },
        Err(refusal) => {
            let_go(client);
            Err(stop_of_refusal(refusal, sum))
        }
    }
}

/// Asks the client for an upload, and carries it out: its file's number, where it was acknowledged.
/// Gives the client back. Takes memory.
fn upload<D: Disk, A: Air, C: Clock>(
    alloc: Global,
    client: Client,
    job: Job,
    disk: &mut D,
    air: &mut A,
    clock: &mut C,
    polls: u64,
) -> (Client, Result<Sent, SendStop>)
    requires may { MayCarryOut D.Disk client disk.old }
    requires asked { MayBeAsked client job }
    requires upload { IsUpload job.work }
    ensures uploaded { (base : ClientValue) → IsClient client base →
        UploadsJob (seen D.Disk A.Air C.given) (lent_party client disk.old air.old clock.old)
        (lent_party result.0 disk.new air.new clock.new) job polls base result.1 }
{
    // The client stands for some client of the definitions.
    client.some_law();
    let (client, came) = carry_out(alloc, client, job, disk, air, clock, polls);
    match came {
        Ok(outcome) => match outcome {
            Outcome::Acked { number } => (client, Ok(Sent { number })),
            _ => unreachable!(),
        },
        Err(stop) => (client, Err(stop)),
    }
}

/// How a task that isn't started for a file of this sum stops its sending.
fn stop_of_refusal(refusal: NotesRefusal, given: FileSum) -> SendStop
    ensures { result ≡ stop_of_start given refusal }
{
    match refusal {
        NotesRefusal::Changed { length, digest } => {
            let kept = FileSum { length, digest };
            SendStop::Changed { kept, given }
        }
        NotesRefusal::Full => SendStop::NotesFull,
        NotesRefusal::Disk | NotesRefusal::Failed => SendStop::Disk,
        NotesRefusal::OutOfMemory => SendStop::OutOfMemory,
    }
}
