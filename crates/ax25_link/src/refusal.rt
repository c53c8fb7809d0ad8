//! The answer to a station with which there is no link.

ghost use Rattle.std.specs.Prelude.{◌≡◌};
ghost use Rattle.ax25_frames.specs.FrameText.{FrameText, canonical};
ghost use Rattle.ax25_frames.specs.Values.{value_of};
ghost use Rattle.ax25_link.specs.Refusals.{is_answered as is_answered_frame, refusal_frame};
ghost use Rattle.ax25_link.specs.Rows.{is_call as is_call_of};

use arrayvec::ArrayVec;
use ax25_frames::{Frame, Kind, write_frame};
use px_base::Call;

/// The DM to a station with which there is no link, which is still to be given out (AX.25 2.0, 2.4.3.4).
#[derive(Clone, Copy, Debug, PartialEq, Eq)]
pub struct Refusal {
    /// To whom.
    pub to: Call,
    /// Its F bit.
    pub poll: bool,
}

impl Refusal {
    /// Writes the DM from this station in place of what `out` holds. Takes no memory.
    pub fn write(self, me: Call, out: &mut ArrayVec<u8, 400>)
        ensures octets { out.new.items ≡ canonical (refusal_frame me self) }
        ensures text { FrameText (refusal_frame me self) out.new.items }
    {
        let frame = Frame {
            dest: self.to,
            src: me,
            via: 0,
            kind: Kind::Dm,
            poll: self.poll,
            command: false,
        };
        write_frame(&frame, out);
    }
}

/// Whether a frame calls: SABM (AX.25 2.0, 2.4.3.1).
pub fn is_call(frame: &Frame<'_>) -> bool
    ensures { result ≡ is_call_of (value_of frame.now).kind.control }
{
    matches!(frame.kind, Kind::Sabm)
}

/// Whether an end without a link answers a frame: SABM, or another command with P = 1 (AX.25 2.0, 2.4.3.4).
pub fn is_answered(frame: &Frame<'_>) -> bool
    ensures { result ≡ is_answered_frame (value_of frame.now) }
{
    is_call(frame) || frame.command && frame.poll
}
