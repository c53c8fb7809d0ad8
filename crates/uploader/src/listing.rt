//! The files of a selection are listed.

ghost use Rattle.std.specs.Prelude.{◌≡◌, ◌≤◌, length, IsErrOf, MatchResult, OnErr, OnOk};
ghost use Rattle.px_base.specs.Outside.{Gains, GainsPrefix, HasCause};
ghost use Rattle.ftl0_client.specs.Window.{IsGoodK};
ghost use Rattle.disk_model.specs.Runs.{CountsFault};
ghost use Rattle.turn_loop.specs.Lent.{lent, seen};
ghost use Rattle.uploader.specs.Causes.{HasCauses};
ghost use Rattle.uploader.specs.Lines.{listing_lines};
ghost use Rattle.uploader.specs.Listing.{ListEnds, files_asked};
ghost use Rattle.uploader.specs.OnDisk.{RefusesNotes};

use crate::line::{SHORT_LEN, line_of_header};
use crate::recovering::{let_go, recover_client};
use crate::turns::carry_out;
use crate::{ClientTerms, SendStop};
use disk_model::Disk;
use ftl0_client::Job;
use px_base::{Air, Clock, FileBytes, Out, OutDown};
use std::alloc::Global;

/// Lists the files that the selection of these tokens, at most 2,047 octets, holds of on the server. The notes are
/// recovered from the disk first. Then the list is asked and carried out (FTL0 1990, directories and selections).
/// Once it came whole a line is shown for each of its short headers, each by one put: `file N size S name HEX`, with
/// its line feed: file_number and file_size in decimal, and the eleven octets of file_name and file_ext in lower-case
/// hexadecimal digits (PFH 1990, mandatory header). Takes memory for the notes, the tokens and the list.
///
/// `Out` where a put of a line failed, and then a front of the lines is shown. Each [`SendStop`] but `BadFile`,
/// `NoSuch`, `Changed`, `Shelf`, `NotesFull` and `TooLong` may come.
pub fn list<D: Disk, A: Air, O: Out, C: Clock>(
    alloc: Global,
    disk: &mut D,
    air: &mut A,
    out: &mut O,
    clock: &mut C,
    terms: &ClientTerms,
    tokens: &[u8],
) -> Result<(), SendStop>
    requires window { IsGoodK terms.now.k }
    requires tokens { length tokens.now ≤ 2047 }

    // But for a fault of the disk and want of memory, each stop by the notes' disk comes exactly where its cause is
    // told.
    ensures notes { RefusesNotes (D.content disk.old) result }

    // How it ended: what was touched, said and shown, and what stands on the disk at each moment.
    ensures ends { ListEnds (seen D.Disk A.Air C.given) O.shown (lent disk.old air.old clock.old)
        (lent disk.new air.new clock.new) out.old out.new (files_asked terms.now tokens.now) result }

    // Each cause rose in a count.
    ensures out { CountsFault (O.faults out.old) (O.faults out.new) (IsErrOf result SendStop.Out) }
    ensures causes { HasCauses (seen D.Disk A.Air C.given) (lent disk.old air.old clock.old)
        (lent disk.new air.new clock.new) result }
{
    let client = recover_client(alloc, disk, terms)?;
    let Ok(tokens) = FileBytes::copy_of(alloc, tokens) else {
        let_go(client);
        return Err(SendStop::OutOfMemory);
    };
    let job = Job::list(alloc, tokens);
    let (client, came) = carry_out(alloc, client, job, disk, air, clock, terms.polls);
    match came {
        Ok(_listed) => {
            let shown = show_listing(client.listing(), out);
            let_go(client);
            shown
        }
        Err(stop) => {
            let_go(client);
            Err(stop)
        }
    }
}

/// Shows a line for each short header of a list. Takes no memory.
fn show_listing<O: Out>(listing: &[u8], out: &mut O) -> Result<(), SendStop>
    ensures shows { MatchResult result (λ _. Gains (O.shown out.old) (O.shown out.new) (listing_lines listing.now))
        (λ why. (why ≡ SendStop.Out) × GainsPrefix (O.shown out.old) (O.shown out.new) (listing_lines listing.now)) }
    ensures out { CountsFault (O.faults out.old) (O.faults out.new) (IsErrOf result SendStop.Out) }
{
    match show_lines(listing, out) {
        Ok(()) => Ok(()),
        Err(_down) => Err(SendStop::Out),
    }
}

/// Shows a line for each short header of a list, each by one put; what is behind the last whole one is passed over.
/// Nothing is put after a put that failed. Takes no memory.
fn show_lines<O: Out>(listing: &[u8], out: &mut O) -> Result<(), OutDown>
    ensures ok { OnOk result (Gains (O.shown out.old) (O.shown out.new) (listing_lines listing.now)) }
    ensures err { OnErr result (GainsPrefix (O.shown out.old) (O.shown out.new) (listing_lines listing.now)) }
    ensures cause { HasCause (O.faults out.old) (O.faults out.new) result }
{
    let mut left = listing;
    for _ in 0..listing.len() / SHORT_LEN {
        let line = line_of_header(&left[..SHORT_LEN]);
        out.put(line.as_str().as_bytes())?;
        left = &left[SHORT_LEN..];
    }
    Ok(())
}
