//! The command that plays a rehearsal, `rehearse`: a schedule that the shelf has, or one that is drawn by a number.

ghost use Rattle.std.specs.Prelude.{◌≡◌, ◌≤◌, length};
ghost use Rattle.disk_model.specs.Cuts.{AreFresh, cuts_by};
ghost use Rattle.pacsat_cli.specs.Rehearsing.{ContentEnd, DrawnEnd, FromFresh, PlayEnd, RehearsalEnd, ReportShown};
ghost use Rattle.pacsat_cli.specs.Rehearsing.{ShowsReport, most_text};
ghost use Rattle.pacsat_cli.specs.Run.{HasStatusCause, Stays};

use crate::Status;
use crate::bench::{Bench, DiskMaker};
use crate::status::status_of_load;
use air_rehearsal::{RehearseStop, Report, drive, rehearse};
use air_schedule::{Schedule, ScheduleFault};
use command_words::RehearseRequest;
use disk_model::CutDisk;
use px_base::{Out, Shelf};
use std::alloc::Global;

/// The most octets of a schedule's text on the shelf.
const MOST_TEXT: usize = 1_048_576;

/// Makes the disks of the bench, plays the rehearsal that is asked for over them, and shows the line of its report.
/// Where there is no memory for the disks, nothing else is touched. Takes memory.
pub(crate) fn run_rehearsal<B: CutDisk + Drop, M: DiskMaker<B> + Drop, S: Shelf, O: Out>(
    alloc: Global,
    request: &RehearseRequest<'_>,
    bench: &mut Bench<B, M>,
    shelf: &mut S,
    out: &mut O,
) -> Status
    ensures shown { ReportShown O.Out (FromFresh B.Disk (cuts_by B.restarts B.arming B.plain B.is_starved)
        (λ old. PlayEnd B.Disk (cuts_by B.restarts B.arming B.plain B.is_starved) (S.held shelf.old) request.now old
        bench.new.disks.items)) out.old out.new result }
    ensures shelf { Stays S.held shelf.old shelf.new
        × HasStatusCause Status.Shelf (S.faults shelf.old) (S.faults shelf.new) result }
{
    match bench.renew(alloc) {
        Ok(()) => play(alloc, request, &mut bench.disks, shelf, out),
        Err(_refused) => Status::OutOfMemory,
    }
}

/// Plays it over these disks.
fn play<B: CutDisk, S: Shelf, O: Out>(
    alloc: Global,
    request: &RehearseRequest<'_>,
    bench: &mut Vec<B>,
    shelf: &mut S,
    out: &mut O,
) -> Status
    requires { AreFresh B.Disk (cuts_by B.restarts B.arming B.plain B.is_starved) bench.old.items }
    ensures shown { ReportShown O.Out (PlayEnd B.Disk (cuts_by B.restarts B.arming B.plain B.is_starved)
        (S.held shelf.old) request.now bench.old.items bench.new.items) out.old out.new result }
    ensures shelf { Stays S.held shelf.old shelf.new
        × HasStatusCause Status.Shelf (S.faults shelf.old) (S.faults shelf.new) result }
{
    match request {
        RehearseRequest::Schedule { name } => play_named(alloc, name, bench, shelf, out),
        RehearseRequest::Drawn { seed, count } => play_drawn(alloc, *seed, *count, bench, out),
    }
}

/// Plays the schedule that the shelf has under this name. Takes memory.
fn play_named<B: CutDisk, S: Shelf, O: Out>(
    alloc: Global,
    name: &str,
    bench: &mut Vec<B>,
    shelf: &mut S,
    out: &mut O,
) -> Status
    requires { AreFresh B.Disk (cuts_by B.restarts B.arming B.plain B.is_starved) bench.old.items }
    ensures shown { ReportShown O.Out (RehearsalEnd B.Disk (cuts_by B.restarts B.arming B.plain B.is_starved)
        (S.held shelf.old) name.now bench.old.items bench.new.items) out.old out.new result }
    ensures shelf { Stays S.held shelf.old shelf.new
        × HasStatusCause Status.Shelf (S.faults shelf.old) (S.faults shelf.new) result }
{
    match shelf.load(alloc, name, MOST_TEXT) {
        Ok(text) => play_text(alloc, text.as_slice(), bench, out),
        Err(refusal) => status_of_load(refusal),
    }
}

/// Plays the schedule of this text. Takes memory.
fn play_text<B: CutDisk, O: Out>(
    alloc: Global,
    text: &[u8],
    bench: &mut Vec<B>,
    out: &mut O,
) -> Status
    requires fresh { AreFresh B.Disk (cuts_by B.restarts B.arming B.plain B.is_starved) bench.old.items }
    requires most { length text.now ≤ most_text }
    ensures { ReportShown O.Out (ContentEnd B.Disk (cuts_by B.restarts B.arming B.plain B.is_starved)
        text.now bench.old.items bench.new.items) out.old out.new result }
{
    let schedule = match Schedule::read(alloc, text) {
        Ok(schedule) => schedule,
        Err(ScheduleFault::BadLine { line }) => return Status::BadSchedule { line },
        Err(ScheduleFault::OutOfMemory) => return Status::OutOfMemory,
    };
    match rehearse(alloc, &schedule, bench) {
        Ok(report) => show_report(alloc, &report, out),
        Err(RehearseStop::Unlawful { line }) => Status::BadSchedule { line },
        Err(RehearseStop::OutOfMemory) => Status::OutOfMemory,
        Err(RehearseStop::Broken { line, what }) => Status::Broken { line, what },
    }
}

/// Plays what is drawn by this number, in so many rounds. Takes memory.
fn play_drawn<B: CutDisk, O: Out>(
    alloc: Global,
    seed: u64,
    count: u32,
    bench: &mut Vec<B>,
    out: &mut O,
) -> Status
    requires { AreFresh B.Disk (cuts_by B.restarts B.arming B.plain B.is_starved) bench.old.items }
    ensures { ReportShown O.Out (DrawnEnd B.Disk (cuts_by B.restarts B.arming B.plain B.is_starved)
        seed count bench.old.items bench.new.items) out.old out.new result }
{
    match drive(alloc, seed, count, bench) {
        Ok(report) => show_report(alloc, &report, out),
        Err(RehearseStop::OutOfMemory) => Status::OutOfMemory,
        Err(RehearseStop::Broken { line, what }) => Status::Broken { line, what },
        Err(RehearseStop::Unlawful { .. }) => unreachable!(),
    }
}

/// Shows the line of a report. Takes memory for it.
fn show_report<O: Out>(alloc: Global, report: &Report, out: &mut O) -> Status
    ensures { ReportShown O.Out (ShowsReport (λ told. told ≡ report.now)) out.old out.new result }
{
    let Ok(line) = format!(in alloc; "{report}\n") else {
        return Status::OutOfMemory;
    };
    match out.put(line.as_bytes()) {
        Ok(()) => Status::Done,
        Err(_down) => Status::Out,
    }
}
