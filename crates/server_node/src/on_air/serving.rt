//! The server, from the recovery of its store to its end.

ghost use Rattle.std.specs.Prelude.{◌≤◌, IsErrOf};
ghost use Rattle.ftl0_server.specs.Window.{IsGoodK};
ghost use Rattle.turn_loop.specs.Lent.{lent, seen};
ghost use Rattle.server_node.specs.OnAir.Served.{ServerEnds};
ghost use Rattle.server_node.specs.OnDisk.{NodeRuns};
ghost use Rattle.server_node.specs.Served.{IsBeforeTurns};
ghost use Rattle.server_node.specs.Stops.{HasAirCause, RefusesSession};

use crate::ended::answer_of;
use crate::on_air::station::ServerStation;
use crate::{NodeStop, Served, ServerTerms};
use disk_model::Disk;
use ftl0_server::Server;
use px_base::{Air, Clock};
use std::alloc::Global;
use turn_loop::{TurnTerms, drive};

/// Serves up to eight sessions on the air. The store is recovered from the disk first, and the lists are made; where
/// either is refused nothing is heard or said, and the clock isn't asked. Then come turns, up to the end of the air or
/// as many polls as may be made. A turn takes the clock's moment, then one poll. Each frame that its octets finish,
/// that reads, in which no repeater is named and that is for this station, is heard, and the frames that it gives are
/// put, each by one put, before the next octet is looked at; every other part is passed over. Then, where the moment
/// isn't the one of the turn before, there is one tick, and its frames are put. The commands of a frame's packets are
/// on the disk before any of its frames is put. A read of the disk that fails is told by code 3, and the server goes
/// on. After a fault of the disk at a write or a sync the frames of that event are put, code 3 among them, and the
/// server is over. However it ends, all uploads are parked, and the disk got no longer than its store may be, or than
/// it was. Takes all its memory before the first poll.
pub fn serve<D: Disk, A: Air, C: Clock>(
    alloc: Global,
    disk: &mut D,
    air: &mut A,
    clock: &mut C,
    terms: &ServerTerms,
) -> Result<Served, NodeStop>
    requires window { IsGoodK terms.now.k }
    requires some { 1 ≤ terms.now.limits.blocks }
    requires most { terms.now.limits.blocks ≤ 65536 }

    // But for a fault of the disk and want of memory, a refusal of the recovery comes exactly where the content stands
    // for it.
    ensures refuses { RefusesSession terms.now.limits.blocks (D.content disk.old) result }

    // It was refused, or the server served: what was heard, at which moments, what was said, and how long the disk may
    // have become; and, where it is known what octets the store's files have, that this is said to that, and what
    // stands on the disk at each moment.
    ensures ends { ServerEnds (seen D.Disk A.Air C.given) (lent disk.old air.old clock.old)
        (lent disk.new air.new clock.new) terms.now result }

    // Memory is wanted only before the first poll: nothing was heard or said, and the clock wasn't asked.
    ensures memory { IsErrOf result NodeStop.OutOfMemory → IsBeforeTurns air.old air.new clock.old clock.new }

    // Each cause rose in a count.
    ensures counts { HasAirCause A.read_faults A.write_faults air.old air.new result }
    ensures runs { NodeRuns D.Disk (IsErrOf result NodeStop.Disk) disk.old disk.new }
{
    let server = Server::start(alloc, disk, terms.limits, terms.me, terms.k)?;
    let station = ServerStation::new(server);
    let turns = TurnTerms {
        polls: terms.polls,
        given: None,
        first: None,
    };
    let (station, ended) = drive(terms.me, station, disk, air, clock, &turns);
    station.close();
    answer_of(ended)
}
