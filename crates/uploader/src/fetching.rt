//! A file is fetched.

ghost use Rattle.std.specs.Prelude.{◌≡◌, ◌≤◌, IsErrOf, MatchResult};
ghost use Rattle.px_base.specs.Shelves.{Keeps, KeepsOthers};
ghost use Rattle.ftl0_client.specs.Window.{IsGoodK};
ghost use Rattle.disk_model.specs.Runs.{CountsFault};
ghost use Rattle.turn_loop.specs.Lent.{lent, seen};
ghost use Rattle.uploader.specs.Causes.{HasCauses};
ghost use Rattle.uploader.specs.Fetching.{FetchEnds, file_asked};
ghost use Rattle.uploader.specs.OnDisk.{RefusesNotes};

use crate::recovering::{let_go, recover_client};
use crate::turns::carry_out;
use crate::{ClientTerms, SendStop};
use disk_model::Disk;
use ftl0_client::Job;
use px_base::{Air, Clock, FileNumber, Shelf};
use std::alloc::Global;

/// Fetches the file of this number, which isn't 0, from the server, and keeps it on the shelf under this name. The
/// notes are recovered from the disk first. Then its download is asked and carried out (FTL0 1990, downloads), behind
/// the octets that the notes have of it. The whole file is kept once the server knows that it came without fault; the
/// got octets stay in the notes. What is noted is on the disk before any frame of that event is put. Takes memory for
/// the notes, and for the octets that come.
///
/// `BadFile` where the file that came has a fault: nothing is kept, and the notes give up what they had of it. `Shelf`
/// where it couldn't be kept, and then the shelf may have anything under the name. Each [`SendStop`] but `NoSuch`,
/// `Changed`, `Out`, `NotesFull` and `TooLong` may come.
pub fn fetch<D: Disk, A: Air, S: Shelf, C: Clock>(
    alloc: Global,
    disk: &mut D,
    air: &mut A,
    shelf: &mut S,
    clock: &mut C,
    terms: &ClientTerms,
    number: FileNumber,
    name: &str,
) -> Result<(), SendStop>
    requires window { IsGoodK terms.now.k }
    requires number { 1 ≤ number }

    // But for a fault of the disk and want of memory, each stop by the notes' disk comes exactly where its cause is
    // told.
    ensures notes { RefusesNotes (D.content disk.old) result }

    // How it ended: what was touched, said and kept, and what stands on the disk at each moment.
    ensures ends { FetchEnds (seen D.Disk A.Air C.given) S.held (lent disk.old air.old clock.old)
        (lent disk.new air.new clock.new) shelf.old shelf.new (file_asked terms.now number name.now) result }

    // Each cause rose in a count.
    ensures shelf { CountsFault (S.faults shelf.old) (S.faults shelf.new) (IsErrOf result SendStop.Shelf) }
    ensures causes { HasCauses (seen D.Disk A.Air C.given) (lent disk.old air.old clock.old)
        (lent disk.new air.new clock.new) result }
{
    let client = recover_client(alloc, disk, terms)?;
    // What is got of a file is no longer than a file may be.
    let _held = client.notes().got_len(terms.server, number);
    let job = Job::download(terms.server, number);
    let (client, came) = carry_out(alloc, client, job, disk, air, clock, terms.polls);
    match came {
        Ok(_fetched) => {
            let kept = keep_file(shelf, name, client.notes().got_octets(terms.server, number));
            let_go(client);
            kept
        }
        Err(stop) => {
            let_go(client);
            Err(stop)
        }
    }
}

/// Keeps a file on the shelf under this name. Takes no memory.
fn keep_file<S: Shelf>(shelf: &mut S, name: &str, octets: &[u8]) -> Result<(), SendStop>
    ensures keeps { MatchResult result (λ _. Keeps (S.held shelf.old) (S.held shelf.new) name.now octets.now)
        (λ why. (why ≡ SendStop.Shelf) × KeepsOthers (S.held shelf.old) (S.held shelf.new) name.now) }
    ensures shelf { CountsFault (S.faults shelf.old) (S.faults shelf.new) (IsErrOf result SendStop.Shelf) }
{
    match shelf.keep(name, octets) {
        Ok(()) => Ok(()),
        Err(_down) => Err(SendStop::Shelf),
    }
}
