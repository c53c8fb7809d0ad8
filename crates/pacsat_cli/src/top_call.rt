//! The top call.

ghost use Rattle.std.specs.Prelude.{◌≡◌, ◌≤◌, [], ◌∷◌};
ghost use Rattle.disk_model.specs.Cuts.{cuts_by};
ghost use Rattle.command_words.specs.Words.{IsUsage, NamesCommand};
ghost use Rattle.px_base.specs.Outside.{Rose};
ghost use Rattle.turn_loop.specs.Lent.{lent, seen};
ghost use Rattle.pacsat_cli.specs.Acknowledged.{ServiceStands, SessionStands};
ghost use Rattle.pacsat_cli.specs.Clients.{RunsFetch, RunsList, RunsSend, outside};
ghost use Rattle.pacsat_cli.specs.Exactly.{FetchEndsExactly, ListEndsExactly, SendEndsExactly, SendRefuses};
ghost use Rattle.pacsat_cli.specs.Exactly.{SendStarts};
ghost use Rattle.pacsat_cli.specs.Files.{IsNoSuchBy, IsShownBy, IsTooLongBy};
ghost use Rattle.pacsat_cli.specs.Rehearsing.{Rehearses, seen_setting};
ghost use Rattle.pacsat_cli.specs.Run.{HasStatusCause, IsUnless, Shows, Stays};
ghost use Rattle.pacsat_cli.specs.Servers.{RunsServe, WhereServed};
ghost use Rattle.pacsat_cli.specs.Sessions.{AsksNode, AsksStore, HasDiskCause, HasReadCause};
ghost use Rattle.pacsat_cli.specs.Sessions.{HasStoreCause, HasWriteCause};
ghost use Rattle.pacsat_cli.specs.Sessions.{IsDoneAtEnd, IsDoneBy, IsSpentBy, RunsSession, WhereHeard};
ghost use Rattle.pacsat_cli.specs.Status.{line_of};
ghost use Rattle.pacsat_cli.specs.Stops.{status_of_refusal};
ghost use Rattle.pacsat_cli.specs.Tasks.{AsksShown, RunsBody, RunsFile, RunsMake, WhereHeld};
ghost use Rattle.pacsat_cli.specs.Touching.{Touches, lendings};

use crate::bench::{Bench, DiskMaker};
use crate::clients::run_client;
use crate::files::run_file;
use crate::making::run_making;
use crate::rehearsing::run_rehearsal;
use crate::serving::{run_serve, run_session};
use crate::{ReadWords, Status};
use air_schedule::laws::one_schedule;
use command_words::laws::one_meaning;
use command_words::{Refusal, Request};
use disk_model::{CutDisk, Disk};
use ftl0_client::laws::{one_step_law, stays_law};
use px_base::{Air, Clock, Out, Shelf};
use server_node::acknowledged::{server_acknowledges_law, session_acknowledges_law};
use std::alloc::Global;
use turn_loop::laws::one_run_law;

/// Does what the words ask for, over this disk, air, shelf, output, clock and bench, and shows the status's line on the
/// output. The words were read before; nothing reads them again.
///
/// The commands are `serve`, the server of up to eight sessions on the air, with a store on the disk; `session`, one
/// session over FTL0 octets without a link, with a store on the disk, or, where DISK is `none`, on a fresh one in
/// memory; `send`, `fetch` and `list`, the commands of a client of a server on the air, with its notes on the disk;
/// `frames`, `pfh-show` and `pfh-check`, which show a text of a file on the shelf; `pfh-make` and `pfh-body`, which
/// make a file of one on the shelf, with a header or without it, and keep it there; and `rehearse`, which plays a
/// schedule of the shelf, or one that is drawn, over nine disks that the bench makes then, the server's and those of
/// eight clients. Takes memory.
pub fn run<D: Disk, A: Air, S: Shelf, O: Out, C: Clock, B: CutDisk + Drop, M: DiskMaker<B> + Drop>(
    alloc: Global,
    words: &ReadWords<'_>,
    disk: &mut D,
    air: &mut A,
    shelf: &mut S,
    out: &mut O,
    clock: &mut C,
    bench: &mut Bench<B, M>,
) -> Status
    // No command touches more than its row of the table in specs/Touching.antt has: of disk, air, clock, shelf, what
    // the shelf holds, and the disks of the bench. So none but a rehearsal makes or touches a disk of the bench. If the
    // words ask for nothing, or there was no memory to read them, nothing is touched. `laws::touches_law` says what
    // that comes to, command by command.
    ensures touches { Touches S.held (lendings (lent disk.old air.old clock.old) shelf.old bench.old.disks.items)
        (lendings (lent disk.new air.new clock.new) shelf.new bench.new.disks.items) words.now }

    // Usage comes exactly by the words, but out of memory to read those of a command.
    ensures usage { result ≡ Status.Usage → IsUsage words.now }
    ensures usage_told { IsUsage words.now → IsUnless result Status.Usage (Status.OutOfMemory ∷ []) }
    ensures unread { IsUsage words.now → result ≡ Status.OutOfMemory → NamesCommand words.now }

    // A session says LOGIN_RESP, and for each packet of the octets heard the replies of its table and all that is due
    // right behind them, from the store for which its disk's content stands, and ends with a status that has its cause.
    // A read of the disk that failed is told by code 3. At every moment since the first sync of the recovery each image
    // stands for that store after the first of the session's commands, none skipped. The disk gets no longer than its
    // store may be, or than it was. Or there was no memory to read the words.
    ensures session { RunsSession words.now (seen D.Disk A.Air C.given) (lent disk.old air.old clock.old)
        (lent disk.new air.new clock.new) result }

    // A server says the KISS text of the frames that its definition gives for the frames and ticks of the turns of the
    // air, from the store for which its disk's content stands, and ends with a status that has its cause. At every
    // moment since the first sync of the recovery each image stands for that store after the first of the server's
    // commands, none skipped. The disk gets no longer than its store may be, or than it was. Or there was no memory to
    // read the words.
    ensures serve { RunsServe words.now (seen D.Disk A.Air C.given) (lent disk.old air.old clock.old)
        (lent disk.new air.new clock.new) result }

    // A client says the KISS text of the frames that its definition gives for what is asked and for the frames and
    // ticks of the turns of the air, from the notes for which its disk's content stands, and ends as its job does, or
    // with another status that has its cause. At every moment since the first sync of the recovery each image stands
    // for those notes after the first of the client's commands, none skipped. A file that is acknowledged is so in each
    // image; one that is fetched is kept whole on the shelf. Or there was no memory to read the words.
    ensures send { RunsSend words.now (seen D.Disk A.Air C.given) S.Shelf O.Out
        (outside (lent disk.old air.old clock.old) shelf.old out.old)
        (outside (lent disk.new air.new clock.new) shelf.new out.new) result }
    ensures fetch { RunsFetch words.now (seen D.Disk A.Air C.given) S.Shelf O.Out
        (outside (lent disk.old air.old clock.old) shelf.old out.old)
        (outside (lent disk.new air.new clock.new) shelf.new out.new) result }
    ensures list { RunsList words.now (seen D.Disk A.Air C.given) O.Out
        (outside (lent disk.old air.old clock.old) shelf.old out.old)
        (outside (lent disk.new air.new clock.new) shelf.new out.new) result }

    // Where it is told what shelf and disk had, and what air and clock gave, each status of a client's command but
    // those of a put that failed, of a fault of disk, output or shelf, and of want of memory comes exactly where its
    // cause is: by the file under the name, by the last task of the name, and by what the definition makes of the job
    // over all that was heard. So a command is done exactly where that leads to what it asks for, or where the file was
    // acknowledged before.
    ensures send_refuses { SendRefuses words.now S.Shelf shelf.old result }
    ensures send_starts { SendStarts words.now D.Disk S.Shelf (lent disk.old air.old clock.old) shelf.old result }
    ensures send_exactly { SendEndsExactly words.now (seen D.Disk A.Air C.given) S.Shelf
        (lent disk.old air.old clock.old) (lent disk.new air.new clock.new) shelf.old result }
    ensures fetch_exactly { FetchEndsExactly words.now (seen D.Disk A.Air C.given) (lent disk.old air.old clock.old)
        (lent disk.new air.new clock.new) result }
    ensures list_exactly { ListEndsExactly words.now (seen D.Disk A.Air C.given) (lent disk.old air.old clock.old)
        (lent disk.new air.new clock.new) result }

    // So what was acknowledged stands. For each UL_ACK_RESP that a session said, and each packet to which a service
    // replied one, the file's entry is complete, with exactly the octets that came, stamped, in every image that a
    // crash leaves since the last call of the disk for the commands of that reply's row, which came before the reply,
    // and whatever comes behind.
    ensures session_acknowledged { SessionStands words.now (seen D.Disk A.Air C.given) (lent disk.old air.old clock.old)
        (lent disk.new air.new clock.new) }
    ensures serve_acknowledged { ServiceStands words.now (seen D.Disk A.Air C.given) (lent disk.old air.old clock.old)
        (lent disk.new air.new clock.new) }

    // A service, or a session over the disk that DISK names, ends out of memory only before its first poll: nothing was
    // heard or said, and the clock wasn't asked.
    ensures memory { AsksStore words.now → result ≡ Status.OutOfMemory → (air.new ≡ air.old) × (clock.new ≡ clock.old) }

    // Where the end of the air was heard, the run is done. Where all polls were made, and none was the end or failed,
    // only a fault of saying or one of the disk comes before; over one in memory that is want of memory.
    ensures complete { WhereHeard words.now A.heard air.old air.new (IsDoneBy result) }
    ensures spent { WhereHeard words.now A.heard air.old air.new (IsSpentBy result) }
    ensures serve_complete { WhereServed words.now A.heard air.old air.new (IsDoneBy result) }
    ensures serve_spent { WhereServed words.now A.heard air.old air.new (IsSpentBy result) }

    // `frames`, `pfh-show` and `pfh-check` show the command's text of what the shelf has under the name, then the
    // status's line, and end with a status that has its cause.
    ensures files { RunsFile words.now S.held O.shown O.faults shelf.old out.old out.new result }

    // No content of the name, content that is too long, and content that may be shown, each by its status. A file with
    // a fault is refused, and one without isn't.
    ensures no_such { WhereHeld words.now (S.held shelf.old) (IsNoSuchBy result) }
    ensures too_long { WhereHeld words.now (S.held shelf.old) (IsTooLongBy result) }
    ensures files_done { WhereHeld words.now (S.held shelf.old) (IsShownBy result) }

    // `pfh-make` keeps the file that is made of BODY's content and the words, `pfh-body` the body of NAME's content.
    // Each leaves all else on the shelf as it was, or ends with a status that has its cause.
    ensures made { RunsMake words.now S.held shelf.old shelf.new result }
    ensures body { RunsBody words.now S.held shelf.old shelf.new result }

    // `rehearse` makes nine disks without an octet, plays the schedule that the shelf has under the name, or one that
    // is drawn, over them, and shows the line of its report: each event could come in its turn, what is promised of
    // uploads and downloads holds after each, and in all that a crash leaves of the server's disk. The bench has these
    // disks then. Or it ends with a status that has its cause, by the content of the name exactly; out of memory, also
    // for the disks.
    ensures rehearsal { Rehearses words.now
        (seen_setting B.Disk (cuts_by B.restarts B.arming B.plain B.is_starved) S.Shelf O.Out)
        shelf.old out.old out.new bench.new.disks.items result }

    // A fault is answered only where its count rose; and where it isn't answered, its count stayed, but for the
    // status's line, for a reply that was to be said after a fault of the disk, for a read of the disk that was told by
    // code 3, and for an air that failed when a client's command had its outcome.
    ensures air_read { HasReadCause words.now (A.read_faults air.old) (A.read_faults air.new) result }
    ensures air_write { HasWriteCause words.now (A.write_faults air.old) (A.write_faults air.new) result }
    ensures disk { HasDiskCause words.now D.read_faults D.write_faults disk.old disk.new air.old air.new result }
    ensures shelf { HasStatusCause Status.Shelf (S.faults shelf.old) (S.faults shelf.new) result }
    ensures out { result ≡ Status.Out → Rose (O.faults out.old) (O.faults out.new) }

    // The content of a session's or a server's disk is refused exactly where it stands for no store, that of a client's
    // where it stands for no notes.
    ensures bad_store { HasStoreCause words.now (D.content disk.old) result }

    // Done says that no count rose, but that of failed reads of the disk in a session or a server, and those of the air
    // in a client's command, once it had its outcome; and of a session or a server on an air that tells, that its end
    // was read.
    ensures node_done { AsksNode words.now → result ≡ Status.Done
        → IsDoneAtEnd A.Air D.read_faults D.write_faults air.old air.new disk.old disk.new }
    ensures done { result ≡ Status.Done → Stays S.faults shelf.old shelf.new × Stays O.faults out.old out.new }

    // But for the text of a file, a client's command and a rehearsal the status's line alone is shown, or the output's
    // count of faults rose.
    ensures unshown { result ≡ Status.Done → (AsksShown words.now → ⊥) → out.new ≡ out.old }
    ensures shown { (AsksShown words.now → ⊥) → Shows O.shown O.faults out.old out.new (line_of result) }
{
    // The words ask for one thing, what is acknowledged stands, a client has one run over what is heard, in which what
    // became of its job stays, and a text is the text of one schedule.
    one_meaning();
    session_acknowledges_law::<D, A, C>();
    server_acknowledges_law::<D, A, C>();
    one_run_law();
    one_step_law();
    stays_law();
    one_schedule();
    let request = match words.asked() {
        Ok(request) => request,
        Err(refusal) => {
            let status = status_of_refused(*refusal);
            show_line(status, out);
            return status;
        }
    };
    match request {
        Request::Session(asked) => {
            let status = run_session(alloc, asked, disk, air, clock);
            show_line(status, out);
            status
        }
        Request::Serve(asked) => {
            let status = run_serve(alloc, asked, disk, air, clock);
            show_line(status, out);
            status
        }
        Request::File { command, name } => {
            let status = run_file(alloc, *command, name, shelf, out);
            show_line(status, out);
            status
        }
        Request::Making(asked) => {
            let status = run_making(alloc, asked, shelf);
            show_line(status, out);
            status
        }
        Request::Client(asked) => {
            let status = run_client(alloc, asked, disk, air, shelf, out, clock);
            show_line(status, out);
            status
        }
        Request::Rehearse(asked) => {
            let status = run_rehearsal(alloc, asked, bench, shelf, out);
            show_line(status, out);
            status
        }
    }
}

/// Ends a run with this status: shows its line, if it has one. Where that line can't be shown the status stays.
pub fn end_with<O: Out>(status: Status, out: &mut O) -> Status
    ensures status { result ≡ status }
    ensures no_line { line_of status ≡ [] → out.new ≡ out.old }
    ensures shown { Shows O.shown O.faults out.old out.new (line_of status) }
{
    show_line(status, out);
    status
}

/// Shows the status's line, if it has one, or passes over that it can't be shown.
fn show_line<O: Out>(status: Status, out: &mut O)
    ensures no_line { line_of status ≡ [] → out.new ≡ out.old }
    ensures shown { Shows O.shown O.faults out.old out.new (line_of status) }
    ensures no_fewer_faults { O.faults out.old ≤ O.faults out.new }
{
    let line = status.line();
    if !line.is_empty() {
        let _ = out.put(line.as_slice());
    }
}

/// The status of words that were refused.
fn status_of_refused(refusal: Refusal) -> Status
    ensures { result ≡ status_of_refusal refusal }
{
    match refusal {
        Refusal::Usage => Status::Usage,
        Refusal::OutOfMemory => Status::OutOfMemory,
    }
}
