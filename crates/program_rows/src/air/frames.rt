//! The frames that the stations hear.

ghost use Rattle.std.specs.Prelude.{IfSome};
ghost use Rattle.ax25_frames.specs.Kinds.{FitsControl};
ghost use Rattle.ax25_frames.specs.Values.{value_of};
ghost use Rattle.turn_loop.specs.Events.{IsFor};

use ax25_frames::{Frame, read_frame};
use px_base::Call;

/// The call of the server.
pub const SERVER: &str = "PACSAT";

/// The frame for this station that has these octets, if one does.
pub fn frame_for(me: Call, octets: &[u8]) -> Option<Frame<'_>>
    ensures own { IfSome result (λ frame. IsFor me (value_of frame)) }
    ensures numbers { IfSome result (λ frame. FitsControl (value_of frame).kind.control) }
{
    match read_frame(octets) {
        Ok(frame) if frame.dest == me && frame.via == 0 => Some(frame),
        _ => None,
    }
}
