//! Laws of KISS text. Each function's contract is a law, and its body is empty.

ghost use Rattle.kiss.specs.Laws.{ReadsBack, AllReadBack, AllFramesReadBack, EscapesOneWay, FramesHaveOctets, PartsGoOn, FramesGoOn};

/// What [`write_frame`](crate::write_frame) writes for a frame of at most 400 octets has exactly
/// one part, that frame, whatever octets stand before its first FEND.
pub fn frame_reads_back()
    ensures { ReadsBack }
{}

/// What is written for frames of at most 400 octets, one after another, has exactly these frames
/// as its parts, whatever octets stand before the first FEND.
pub fn frames_read_back()
    ensures parts { AllReadBack }
    ensures frames { AllFramesReadBack }
{}

/// A piece without FEND is read as the octets that are escaped so, and as no others: escaped text
/// has one form ("Transparency").
pub fn escapes_one_way()
    ensures { EscapesOneWay }
{}

/// The parts and the frames of octets stay, whatever comes later; and of the octets that came only
/// those from the last FEND on matter for what comes.
pub fn parts_go_on()
    ensures parts { PartsGoOn }
    ensures frames { FramesGoOn }
{}

/// The frames in a list of octets, numbers below 256, are lists of octets too.
pub fn frames_have_octets()
    ensures { FramesHaveOctets }
{}
