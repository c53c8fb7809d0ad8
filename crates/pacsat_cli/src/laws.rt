//! A law of the definitions, the contract of a function that does nothing.

ghost use Rattle.turn_loop.specs.Lent.{seen};
ghost use Rattle.pacsat_cli.specs.Touching.{TouchesLaw};

use command_words::laws::one_meaning;
use disk_model::Disk;
use px_base::{Air, Clock, Shelf};

/// What `touches` of [`run`](crate::run) comes to, command by command: words that aren't in the command set touch
/// nothing; a session, a service and a list leave the shelf; a session with a moment leaves the clock; a text of a file,
/// a file that is made and a rehearsal leave air and clock; none but a session or a service over the disk that DISK
/// names, or a client's command, touches the disk; what the shelf holds stays, but for a file that is made or fetched;
/// and none but a rehearsal makes or touches a disk of the bench.
pub fn touches_law<D: Disk, A: Air, C: Clock, S: Shelf, B: Disk>()
    ensures { TouchesLaw (seen D.Disk A.Air C.given) S.held B.Disk }
{
    one_meaning();
}
