//! Laws of the text of recorded KISS text, each the contract of a function that does nothing.

ghost use Rattle.header_tool.specs.Frames.Laws.{HasText, IsOneText};

use ax25_frames::laws::{frame_or_fault, no_frame_at_a_fault, one_fault, one_frame};
use kiss::laws::frames_have_octets;

/// Recorded octets have exactly one text.
pub fn one_text()
    ensures at_most { IsOneText }
    ensures some { HasText }
{
    frames_have_octets();
    frame_or_fault();
    one_frame();
    one_fault();
    no_frame_at_a_fault();
}
