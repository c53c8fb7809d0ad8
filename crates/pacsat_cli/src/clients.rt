//! The commands `send`, `fetch` and `list`.

ghost use Rattle.std.specs.Prelude.{◌≡◌, ◌≤◌, length};
ghost use Rattle.turn_loop.specs.Lent.{lent, seen};
ghost use Rattle.pacsat_cli.specs.Clients.{ClientRan, IsFetched, IsListed, IsSent, MayFetch, MayList, MayRun, MaySend};
ghost use Rattle.pacsat_cli.specs.Clients.{PutsLine, client_terms, outside};
ghost use Rattle.pacsat_cli.specs.Status.{numbered_line};
ghost use Rattle.pacsat_cli.specs.Stops.{status_of_stop as stop_status};

use crate::status::numbered;
use crate::{BadStore, RefusedBy, Status};
use command_words::{
    ClientRequest, ClientTerms as AskedTerms, FetchRequest, ListRequest, SendRequest,
};
use disk_model::Disk;
use px_base::{Air, Clock, FileNumber, Out, Shelf};
use std::alloc::Global;
use uploader::{ClientTerms, SendStop, fetch, list, send};

/// Carries out a client's command. Takes memory.
pub(crate) fn run_client<D: Disk, A: Air, S: Shelf, O: Out, C: Clock>(
    alloc: Global,
    request: &ClientRequest<'_>,
    disk: &mut D,
    air: &mut A,
    shelf: &mut S,
    out: &mut O,
    clock: &mut C,
) -> Status
    requires { MayRun request.now }
    ensures { ClientRan (seen D.Disk A.Air C.given) S.Shelf O.Out
        (outside (lent disk.old air.old clock.old) shelf.old out.old)
        (outside (lent disk.new air.new clock.new) shelf.new out.new) request.now result }
{
    match request {
        ClientRequest::Send(send) => run_send(alloc, send, disk, air, shelf, out, clock),
        ClientRequest::Fetch(fetch) => run_fetch(alloc, fetch, disk, air, shelf, out, clock),
        ClientRequest::List(list) => run_list(alloc, list, disk, air, out, clock),
    }
}

/// Sends the file of the shelf that is asked for, and shows its number on the server. Takes memory.
fn run_send<D: Disk, A: Air, S: Shelf, O: Out, C: Clock>(
    alloc: Global,
    request: &SendRequest<'_>,
    disk: &mut D,
    air: &mut A,
    shelf: &mut S,
    out: &mut O,
    clock: &mut C,
) -> Status
    requires { MaySend request.now }
    ensures ran { IsSent (seen D.Disk A.Air C.given) S.Shelf O.Out
        (outside (lent disk.old air.old clock.old) shelf.old out.old)
        (outside (lent disk.new air.new clock.new) shelf.new out.new) request.now result }
{
    let terms = terms_of(&request.terms);
    match send(alloc, disk, air, shelf, clock, &terms, request.name) {
        Ok(sent) => show_numbered("acked ", sent.number, out),
        Err(why) => status_of_stop(why),
    }
}

/// Fetches the file that is asked for, keeps it on the shelf, and shows its number. Takes memory.
fn run_fetch<D: Disk, A: Air, S: Shelf, O: Out, C: Clock>(
    alloc: Global,
    request: &FetchRequest<'_>,
    disk: &mut D,
    air: &mut A,
    shelf: &mut S,
    out: &mut O,
    clock: &mut C,
) -> Status
    requires { MayFetch request.now }
    ensures ran { IsFetched (seen D.Disk A.Air C.given) S.Shelf O.Out
        (outside (lent disk.old air.old clock.old) shelf.old out.old)
        (outside (lent disk.new air.new clock.new) shelf.new out.new) request.now result }
{
    let terms = terms_of(&request.terms);
    let number = FileNumber::new(request.number);
    match fetch(alloc, disk, air, shelf, clock, &terms, number, request.name) {
        Ok(()) => show_numbered("fetched ", number, out),
        Err(why) => status_of_stop(why),
    }
}

/// Lists the files that are asked for. Where there is no memory for the tokens, nothing is touched. Takes memory.
fn run_list<D: Disk, A: Air, O: Out, C: Clock>(
    alloc: Global,
    request: &ListRequest<'_>,
    disk: &mut D,
    air: &mut A,
    out: &mut O,
    clock: &mut C,
) -> Status
    requires { MayList request.now }
    ensures ran { IsListed (seen D.Disk A.Air C.given) O.Out (lent disk.old air.old clock.old)
        (lent disk.new air.new clock.new) out.old out.new request.now result }
{
    let Ok(tokens) = request.tokens(alloc) else {
        return Status::OutOfMemory;
    };
    let terms = terms_of(&request.terms);
    match list(alloc, disk, air, out, clock, &terms, tokens.as_slice()) {
        Ok(()) => Status::Done,
        Err(why) => status_of_stop(why),
    }
}

/// With what a client's command is carried out.
fn terms_of(asked: &AskedTerms) -> ClientTerms
    ensures { result ≡ client_terms asked.now }
{
    ClientTerms {
        server: asked.server,
        me: asked.me,
        k: asked.k,
        polls: asked.polls,
    }
}

/// Shows the line of these words and a file's number, by one put; the status that a command has which is done with
/// that.
fn show_numbered<O: Out>(words: &str, number: FileNumber, out: &mut O) -> Status
    requires { length words.now ≤ 20 }
    ensures { PutsLine O.Out (numbered_line words.now number) out.old out.new result }
{
    match out.put(numbered(words, u64::from(number.get())).as_slice()) {
        Ok(()) => Status::Done,
        Err(_down) => Status::Out,
    }
}

/// The status of a client's command that was stopped so.
fn status_of_stop(why: SendStop) -> Status
    ensures { result ≡ stop_status why }
{
    match why {
        SendStop::Refused { code } => Status::Refused(RefusedBy::Server { code }),
        SendStop::BadFile { code } => Status::Refused(RefusedBy::Fault { code }),
        SendStop::AirRead => Status::AirRead,
        SendStop::AirWrite => Status::AirWrite,
        SendStop::Disk => Status::Disk,
        SendStop::NoSuch => Status::NoSuch,
        SendStop::Changed { kept, given } => Status::FileChanged { kept, given },
        SendStop::NotAStore { found } => Status::BadStore(BadStore::NotAStore { found }),
        SendStop::Damaged { at } => Status::BadStore(BadStore::Damaged { at }),
        SendStop::OutOfMemory => Status::OutOfMemory,
        SendStop::Spent => Status::Spent,
        SendStop::Out => Status::Out,
        SendStop::Shelf => Status::Shelf,
        SendStop::LinkDown => Status::LinkDown,
        SendStop::Strange { kind } => Status::Strange { kind },
        SendStop::NotesFull => Status::NotesFull,
        SendStop::TooLong => Status::TooLong,
    }
}
