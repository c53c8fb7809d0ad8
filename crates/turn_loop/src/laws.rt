//! Laws of a node's events, each the contract of a function that does nothing.

ghost use Rattle.turn_loop.specs.Laws.{FramesLaw, OneRunLaw, SomeFramesLaw};

use ax25_frames::laws::{frame_or_fault, no_frame_at_a_fault, one_frame};
use kiss::laws::{frames_have_octets, parts_go_on};

/// Turns at moments bring one list of events, and no other.
pub fn one_run_law()
    ensures { OneRunLaw }
{
    one_frame();
}

/// The frames among a node's events are those for the station in all octets heard, joined, in order.
pub fn frames_law()
    ensures { FramesLaw }
{}

/// Whatever octets came before, further ones finish some frames for the station, maybe none.
pub fn some_frames_law()
    ensures { SomeFramesLaw }
{
    one_frame();
    frame_or_fault();
    no_frame_at_a_fault();
    frames_have_octets();
    parts_go_on();
}
