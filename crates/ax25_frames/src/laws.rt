//! Laws of frames and their octets, each the contract of a function that does nothing.

ghost use Rattle.ax25_frames.specs.Laws.{IsCanonical, IsFrameOrFault, IsNoFrame, IsOneFault, IsOneFrame};

/// No octets are those of two frames, so what was read is the frame that was sent.
pub fn one_frame()
    ensures { IsOneFrame }
{}

/// The canonical text of a frame without repeaters is a text of that frame.
pub fn canonical_text()
    ensures { IsCanonical }
{}

/// No frame has octets that have a fault.
pub fn no_frame_at_a_fault()
    ensures { IsNoFrame }
{}

/// Octets have one fault at most.
pub fn one_fault()
    ensures { IsOneFault }
{}

/// Some frame has the octets, or they have a fault.
pub fn frame_or_fault()
    ensures { IsFrameOrFault }
{}
