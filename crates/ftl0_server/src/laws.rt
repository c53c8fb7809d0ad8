//! Laws of a server.

ghost use Rattle.std.specs.Prelude.{List};
ghost use Rattle.ax25_frames.specs.FrameText.{FrameValue};
ghost use Rattle.ftl0_server.specs.Server.{Server as ServerValue};
ghost use Rattle.ftl0_server.specs.ServerState.{SendsFor};
ghost use Rattle.ftl0_server.specs.ServerStep.{Empties};

use crate::Server;

/// A server has nothing left to send after some list of frames, whatever was pushed and heard. Takes no memory.
pub fn empties_law(server: &Server)
    ensures { (value : ServerValue) → SendsFor server.now value →
        (frames : List FrameValue) × (last : ServerValue) × Empties value frames last }
{
    server.fits_law();
}
