//! The session of one caller, from the recovery of its store to its end.

ghost use Rattle.std.specs.Prelude.{◌≡◌, ◌≤◌, [], ◌∷◌, IsErrOf, IsSome};
ghost use Rattle.turn_loop.specs.Lent.{lent, seen};
ghost use Rattle.px_base.specs.Moments.{MomentsOf};
ghost use Rattle.server_node.specs.OnDisk.{NodeRuns};
ghost use Rattle.server_node.specs.Served.{IsBeforeTurns};
ghost use Rattle.server_node.specs.Sessions.SessionRan.{SessionEnds};
ghost use Rattle.server_node.specs.Stops.{HasAirCause, RefusesSession};

use crate::ended::answer_of;
use crate::sessions::server::SessionServer;
use crate::{NodeStop, Served, SessionTerms};
use disk_model::Disk;
use file_store::FileStore;
use file_store::laws::state_law;
use ftl0_session::lists::Lists;
use px_base::{Air, Clock, Moment};
use std::alloc::Global;
use turn_loop::{TurnTerms, take_turns};

/// Serves one session over FTL0 octets without a link. The store is recovered from the disk first, and the lists are
/// made; where either is refused nothing is heard or said, and the clock isn't asked. Then LOGIN_RESP is said, and
/// for each packet the replies to it and all that is due right behind them, up to the end of the air or as many polls
/// as may be made. Each turn has the moment that is given, or takes one of the clock before its poll; the first
/// turn's is taken before LOGIN_RESP, which has it. What a packet's row does to the store is on the disk before the
/// replies are said. A read of the disk that fails is told by code 3, and the session goes on. After a fault of the
/// disk at a write or a sync the reply with code 3 is said, and the session is over. However it ends, its upload is
/// parked, and nothing was written behind what its store may take. Takes all its memory before the first poll.
pub fn session<D: Disk, A: Air, C: Clock>(
    alloc: Global,
    disk: &mut D,
    air: &mut A,
    clock: &mut C,
    terms: &SessionTerms,
) -> Result<Served, NodeStop>
    requires some { 1 ≤ terms.now.limits.blocks }
    requires most { terms.now.limits.blocks ≤ 65536 }

    // But for a fault of the disk and want of memory, a refusal of the recovery comes exactly where the content stands
    // for it.
    ensures refuses { RefusesSession terms.now.limits.blocks (D.content disk.old) result }

    // It was refused, or the session was served: what was heard, at which moments, what was said behind LOGIN_RESP, and
    // how long the disk may have become; and, where it is known what octets the store's files have, that this is said
    // to that, and what stands on the disk at each moment.
    ensures ends { SessionEnds (seen D.Disk A.Air C.given) (lent disk.old air.old clock.old)
        (lent disk.new air.new clock.new) terms.now result }
    ensures clock { IsSome terms.now.moment → clock.new ≡ clock.old }

    // Memory is wanted only before the first poll: nothing was heard or said, and the clock wasn't asked.
    ensures memory { IsErrOf result NodeStop.OutOfMemory → IsBeforeTurns air.old air.new clock.old clock.new }

    // Each cause rose in a count.
    ensures counts { HasAirCause A.read_faults A.write_faults air.old air.new result }
    ensures runs { NodeRuns D.Disk (IsErrOf result NodeStop.Disk) disk.old disk.new }
{
    let store = FileStore::recover(alloc, disk, terms.limits)?;
    let Ok(lists) = Lists::new(alloc) else {
        return Err(NodeStop::OutOfMemory);
    };
    state_law(&store);
    let first = moment_of(terms.moment, clock);
    let mut server = SessionServer::new(terms.caller, first, store, lists);
    let terms = TurnTerms {
        polls: terms.polls,
        given: terms.moment,
        first: Some(first),
    };
    let ended = take_turns(&mut server, disk, air, clock, &terms);
    server.end();
    answer_of(ended)
}

/// The first moment: the one that is given, or the clock's.
fn moment_of<C: Clock>(given: Option<Moment>, clock: &mut C) -> Moment
    ensures moment { MomentsOf given (C.given clock.old) (C.given clock.new) (result ∷ []) }
    ensures clock { IsSome given → clock.new ≡ clock.old }
{
    match given {
        Some(moment) => moment,
        None => clock.now(),
    }
}
