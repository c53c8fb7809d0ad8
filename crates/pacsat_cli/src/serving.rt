//! The commands `session` and `serve`.

ghost use Rattle.std.specs.Prelude.{◌≡◌, ◌≤◌, IsSome};
ghost use Rattle.command_words.specs.Words.{AreInRange};
ghost use Rattle.turn_loop.specs.Lent.{lent, seen};
ghost use Rattle.pacsat_cli.specs.Servers.{IsServedOver, serve_terms};
ghost use Rattle.pacsat_cli.specs.Sessions.{OverMemory, OverNamed, run_terms};
ghost use Rattle.pacsat_cli.specs.Stops.{status_in_memory, status_of as status_of_session};

use crate::{BadStore, Status};
use command_words::{DiskWord, ServeRequest, SessionRequest};
use disk_model::{Disk, MemoryDisk};
use file_store::Limits;
use px_base::{Air, Clock, Moment};
use server_node::{Served, ServerTerms, SessionTerms, serve, session};
use std::alloc::Global;
use turn_loop::NodeStop;

/// Serves the session that is asked for, over this disk, or over a fresh one in memory, which leaves this one alone. Takes
/// memory.
pub(crate) fn run_session<D: Disk, A: Air, C: Clock>(
    alloc: Global,
    request: &SessionRequest,
    disk: &mut D,
    air: &mut A,
    clock: &mut C,
) -> Status
    requires some { 1 ≤ request.now.blocks }
    requires most { request.now.blocks ≤ 65536 }
    ensures over { OverNamed request.now.disk (seen D.Disk A.Air C.given) (lent disk.old air.old clock.old)
        (lent disk.new air.new clock.new) (run_terms request.now) result }
    ensures clock { IsSome request.now.moment → clock.new ≡ clock.old }
{
    let terms = terms_of(request);
    match request.disk {
        DiskWord::Named => status_of_ended(session(alloc, disk, air, clock, &terms)),
        DiskWord::Fresh => run_in_memory(alloc, &terms, air, clock),
    }
}

/// Serves sessions on the air, over this disk. Takes memory.
pub(crate) fn run_serve<D: Disk, A: Air, C: Clock>(
    alloc: Global,
    request: &ServeRequest,
    disk: &mut D,
    air: &mut A,
    clock: &mut C,
) -> Status
    requires ranges { AreInRange request.now.k request.now.blocks request.now.polls }
    ensures over { IsServedOver (seen D.Disk A.Air C.given) (lent disk.old air.old clock.old)
        (lent disk.new air.new clock.new) (serve_terms request.now) result }
{
    let terms = ServerTerms {
        me: request.me,
        k: request.k,
        limits: Limits {
            blocks: request.blocks,
        },
        polls: request.polls,
    };
    status_of_ended(serve(alloc, disk, air, clock, &terms))
}

/// Serves a session over a fresh disk in memory. A write or a sync of such a disk that fails is want of memory.
fn run_in_memory<A: Air, C: Clock>(
    alloc: Global,
    terms: &SessionTerms,
    air: &mut A,
    clock: &mut C,
) -> Status
    requires { (1 ≤ terms.now.limits.blocks) × (terms.now.limits.blocks ≤ 65536) }
    ensures over { OverMemory A.Air C.given air.old air.new clock.old clock.new terms.now result }
    ensures clock { IsSome terms.now.moment → clock.new ≡ clock.old }
{
    let Ok(mut disk) = MemoryDisk::new(alloc, &[], &[]) else {
        return Status::OutOfMemory;
    };
    in_memory(status_of_ended(session(alloc, &mut disk, air, clock, terms)))
}

/// What a session is served with.
fn terms_of(request: &SessionRequest) -> SessionTerms
    ensures { result ≡ run_terms request.now }
{
    SessionTerms {
        caller: request.caller,
        moment: request.moment.map(Moment::new),
        limits: Limits {
            blocks: request.blocks,
        },
        polls: request.polls,
    }
}

/// The status of a session over a disk in memory that ended with this one over a disk.
fn in_memory(status: Status) -> Status
    ensures { result ≡ status_in_memory status }
{
    match status {
        Status::Disk => Status::OutOfMemory,
        other => other,
    }
}

/// The status of a session or a service that ended so.
fn status_of_ended(ended: Result<Served, NodeStop>) -> Status
    ensures { result ≡ status_of_session ended }
{
    match ended {
        Ok(_) => Status::Done,
        Err(NodeStop::AirRead) => Status::AirRead,
        Err(NodeStop::AirWrite) => Status::AirWrite,
        Err(NodeStop::Disk) => Status::Disk,
        Err(NodeStop::NotAStore { found }) => Status::BadStore(BadStore::NotAStore { found }),
        Err(NodeStop::Damaged { at }) => Status::BadStore(BadStore::Damaged { at }),
        Err(NodeStop::Spent) => Status::Spent,
        Err(NodeStop::OutOfMemory) => Status::OutOfMemory,
    }
}
