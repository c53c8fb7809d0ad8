//! One job of a client is carried out.

ghost use Rattle.std.specs.Prelude.{◌≡◌};
ghost use Rattle.turn_loop.specs.Lent.{seen};
ghost use Rattle.turn_loop.specs.Turns.{lent_party};
ghost use Rattle.ftl0_client.specs.Client.{Client as ClientValue};
ghost use Rattle.ftl0_client.specs.ClientState.{IsClient};
ghost use Rattle.uploader.specs.Stops.{answer_of, stop_of_turns};
ghost use Rattle.uploader.specs.Turns.Carried.{CarriesOut, MayBeAsked, MayCarryOut};

use super::station::{ClientStation, sends_nothing};
use crate::SendStop;
use disk_model::Disk;
use ftl0_client::laws::{goes_law, one_step_law};
use ftl0_client::{Client, Job, Outcome};
use px_base::{Air, Clock};
use std::alloc::Global;
use turn_loop::laws::one_run_law;
use turn_loop::{Finished, NodeStop, TurnTerms, drive};

/// Asks the client for a job, as [`Client::ask`] does, and takes turns, as [`turn_loop::drive`] does, until the client is
/// closed, or as many polls were made as may be; gives the client back. Its SABM is put before the first turn. What a
/// frame notes is on the disk before any of its frames is put. Takes memory.
///
/// The answer is what became of the job, as soon as anything did: a poll or a put that fails then, the end of the air
/// and the last poll end the turns as the closing does. What a command doesn't ask for is a stop. `AirRead` comes only
/// before there is an outcome, where a poll failed and the air's count of those rose, `AirWrite` where a put failed and
/// its count rose, and `Spent` where as many polls were made as may be; the end of the air before is `LinkDown`. `Disk`
/// comes where a write or a sync of the disk failed, and `OutOfMemory` where there was no memory; no frame of that
/// event is put, and the commands that it noted before stay. Whatever the answer is, the notes stand on the disk; after
/// `Disk` only `outcome`, `listing` and `notes` of the client are called.
pub(crate) fn carry_out<D: Disk, A: Air, C: Clock>(
    alloc: Global,
    client: Client,
    job: Job,
    disk: &mut D,
    air: &mut A,
    clock: &mut C,
    polls: u64,
) -> (Client, Result<Outcome, SendStop>)
    requires may { MayCarryOut D.Disk client disk.old }
    requires asked { MayBeAsked client job }

    // What was heard, given, said and noted, why the turns ended, and what the answer is.
    ensures carried { (base : ClientValue) → IsClient client base →
        CarriesOut (seen D.Disk A.Air C.given) (lent_party client disk.old air.old clock.old)
        (lent_party result.0 disk.new air.new clock.new) job polls base result.1 }
{
    // What the client stands for, and what it comes to, event by event.
    client.some_law();
    one_run_law();
    one_step_law();
    goes_law();
    let mut client = client;
    sends_nothing(&mut client);
    match client.ask(alloc, job) {
        Ok(()) => {}
        Err(_refused) => return (client, Err(SendStop::OutOfMemory)),
    }
    let me = client.me();
    let station = ClientStation {
        client,
        halted: false,
    };
    let terms = TurnTerms {
        polls,
        given: None,
        first: None,
    };
    let (station, ended) = drive(me, station, disk, air, clock, &terms);
    let ClientStation { client, halted: _ } = station;
    let reached = client.outcome();
    (client, answer_by(ended, reached))
}

/// What a command makes of its turns: what became of the job, where it is what a command asks for; else the stop that
/// it is, or why the turns ended before anything did.
fn answer_by(
    ended: Result<Finished, NodeStop>,
    reached: Option<Outcome>,
) -> Result<Outcome, SendStop>
    ensures { result ≡ answer_of ended reached }
{
    let Some(reached) = reached else {
        return Err(stop_by(ended));
    };
    match reached {
        Outcome::Refused { code } => Err(SendStop::Refused { code }),
        Outcome::BadFile { code } => Err(SendStop::BadFile { code }),
        Outcome::LinkDown(_) => Err(SendStop::LinkDown),
        Outcome::Strange { kind } => Err(SendStop::Strange { kind }),
        wanted => Ok(wanted),
    }
}

/// How turns stop a command that ended before anything became of its job.
fn stop_by(ended: Result<Finished, NodeStop>) -> SendStop
    ensures { result ≡ stop_of_turns ended }
{
    match ended {
        Ok(_finished) => SendStop::LinkDown,
        Err(stop) => SendStop::from(stop),
    }
}
