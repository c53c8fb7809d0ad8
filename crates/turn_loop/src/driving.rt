//! What drives a station over an air.

ghost use Rattle.std.specs.Prelude.{◌≡◌, [], None};
ghost use Rattle.disk_model.specs.AtDisk.{at};
ghost use Rattle.turn_loop.specs.Events.{NodeEvents};
ghost use Rattle.turn_loop.specs.Turns.{TookTurns, lent_party};

use crate::on_air::OnAir;
use crate::{Finished, NodeStop, Station, TurnTerms, take_turns};
use disk_model::Disk;
use px_base::{Air, Call, Clock};

/// Drives the station with this call over an air: says what it has to give, and takes turns as
/// [`take_turns`](crate::take_turns) does. Each frame that the octets finish, that reads, in which no repeater is
/// named and that is for the station, is heard, and the frames that it gives are said, each by one put, before the
/// next octet is looked at; every other part is passed over. Gives the station back.
pub fn drive<D: Disk, S: Station<D>, A: Air, C: Clock>(
    me: Call,
    station: S,
    disk: &mut D,
    air: &mut A,
    clock: &mut C,
    terms: &TurnTerms,
) -> (S, Result<Finished, NodeStop>)
    requires me { S.me station ≡ me }
    requires owes { S.course.owes (at station disk.old) [] None [] (at station disk.old) }
    ensures turns { TookTurns (NodeEvents me) S.course A.Air C.given (lent_party station disk.old air.old clock.old)
        (lent_party result.0 disk.new air.new clock.new) terms.now result.1 }
{
    let mut node = OnAir::new(me, station);
    let ended = take_turns(&mut node, disk, air, clock, terms);
    let OnAir { reader: _, station } = node;
    (station, ended)
}
