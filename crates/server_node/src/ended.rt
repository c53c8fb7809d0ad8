//! How the serving ends, by how the turns of its node do.

ghost use Rattle.std.specs.Prelude.{◌≡◌};
ghost use Rattle.server_node.specs.Stops.{IsNotOver, served_by};

use crate::{NodeStop, Served};
use turn_loop::Finished;

/// How the serving ended, by how the turns of its node did. It was never over before them.
pub(crate) fn answer_of(ended: Result<Finished, NodeStop>) -> Result<Served, NodeStop>
    requires { IsNotOver ended }
    ensures { result ≡ served_by ended }
{
    match ended {
        Ok(Finished::Closed(turns)) => Ok(Served { turns }),
        Ok(Finished::Over(_turns)) => unreachable!(),
        Err(why) => Err(why),
    }
}
