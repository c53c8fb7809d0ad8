//! A station's reader of frames.

ghost use Rattle.std.specs.Prelude.{◌≡◌, ◌↔◌, ◌≤◌, [], length, take, IfSome, IsSome, IsTrue};
ghost use Rattle.std.specs.Option.{option_map};
ghost use Rattle.ax25_frames.specs.Values.{value_of};
ghost use Rattle.ax25_frames.specs.Kinds.{FitsControl};
ghost use Rattle.turn_loop.specs.Events.{IsFor};
ghost use Rattle.turn_loop.specs.Reading.{Finds, HasHeard, HearsOctet, HearsRun};

use ax25_frames::{Frame, read_frame};
use kiss::{KissFed, KissReader};
use px_base::Call;
use std::marker::Model;

/// What a station reads of KISS text, octet by octet: the frames for it in which no repeater is named. Every other
/// part of the text is passed over. It keeps at most one part, and takes no memory beside itself.
#[derive(Debug, Drop)]
pub struct StationReader {
    me: Call,
    reader: KissReader,
}

impl Model for StationReader {
    ghost use Rattle.turn_loop.specs.Station.{StationValue};

    ghost Value = { StationValue };

    ghost view = { λ a. record { me = a.me; heard = a.reader.heard; ended = a.reader.frame } };
}

impl StationReader {
    /// The reader of the station with this call, which has heard nothing. Takes no memory.
    pub fn new(me: Call) -> StationReader
        ensures me { result.me ≡ me }
        ensures heard { HasHeard result [] }
    {
        StationReader {
            me,
            reader: KissReader::new(),
        }
    }

    /// Takes one octet, and says whether it ended a frame of KISS text, which [`frame`](StationReader::frame) then
    /// looks at. Takes no memory.
    #[inline]
    pub fn feed(&mut self, octet: u8) -> bool
        ensures me { self.new.me ≡ self.old.me }
        ensures hears { HearsOctet self.old octet self.new result }
        ensures ended { IsTrue result ↔ IsSome self.new.ended }
    {
        matches!(self.reader.feed(octet), KissFed::Frame)
    }

    /// Takes octets from the front that end no frame of KISS text, and says how many: maybe none. It does at once what
    /// [`feed`](StationReader::feed) does an octet at a time. Takes no memory.
    #[inline]
    pub fn pass(&mut self, octets: &[u8]) -> usize
        ensures me { self.new.me ≡ self.old.me }
        ensures within { result ≤ length octets.now }
        ensures hears { HearsRun self.old (take result octets.now) self.new }
    {
        self.reader.pass(octets)
    }

    /// The frame for the station that the last octet ended, if what it ended is one. The last `feed` has to have
    /// ended a frame of KISS text. Takes no memory.
    pub fn frame(&self) -> Option<Frame<'_>>
        requires { IsSome self.now.ended }
        ensures frame { IfSome self.now.ended (λ octets. Finds self.now.me octets (option_map value_of result)) }
        ensures numbers { IfSome result (λ frame. FitsControl (value_of frame).kind.control) }
    {
        frame_for(self.me, self.reader.frame())
    }
}

/// The frame for this station that has these octets, if one does.
fn frame_for(me: Call, octets: &[u8]) -> Option<Frame<'_>>
    ensures found { Finds me octets.now (option_map value_of result) }
    ensures numbers { IfSome result (λ frame. FitsControl (value_of frame).kind.control) }
{
    let Ok(frame) = read_frame(octets) else {
        return None;
    };
    if !is_for(me, &frame) {
        return None;
    }
    Some(frame)
}

/// Whether a frame is for this station, and names no repeater.
fn is_for(me: Call, frame: &Frame<'_>) -> bool
    ensures { IsTrue result ↔ IsFor me (value_of frame.now) }
{
    frame.dest == me && frame.via == 0
}
