//! What a client and the server sent to each other.

ghost use Rattle.std.specs.Prelude.{◌≡◌, OnOk};
ghost use Rattle.ax25_frames.specs.FrameText.{FrameText, FrameValue};
ghost use Rattle.ax25_frames.specs.Values.{kind_value};
ghost use Rattle.ax25_link.specs.Rows.{is_call};
ghost use Rattle.air_rehearsal.specs.Lanes.{HasLanes, Lanes, beginning, is_ua, no_lanes, replying, sending, timing};

use crate::lane::{Lane, Sort};
use ax25_frames::{Kind, read_frame};
use px_base::OutOfMemory;
use std::alloc::Global;

/// The newest attempt of a client: the newest SABM that it sent, and all that it and the server sent since. Before the
/// first one nothing was sent.
#[derive(Drop)]
pub(crate) struct Attempt {
    pub from_client: Lane,
    pub from_server: Lane,
    /// How many attempts there were.
    pub number: u64,
    /// Whether a session answered this one.
    is_answered: bool,
}

impl Attempt {
    /// Nothing was sent. Takes no memory.
    pub(crate) fn new(alloc: Global) -> Attempt
        ensures { HasLanes result no_lanes }
    {
        Attempt {
            from_client: Lane::new(alloc),
            from_server: Lane::new(alloc),
            number: 0,
            is_answered: false,
        }
    }

    /// The client sends a frame with these octets. A SABM begins an attempt, and nothing of the one before is delivered
    /// any more. Takes memory.
    pub(crate) fn send(&mut self, octets: &[u8]) -> Result<(), OutOfMemory>
        ensures { OnOk result ((lanes : Lanes) (frame : FrameValue) → HasLanes self.old lanes
            → FrameText frame octets.now → HasLanes self.new (sending frame lanes)) }
    {
        let Ok(frame) = read_frame(octets) else {
            return Ok(());
        };
        if is_call(&frame.kind) {
            self.begin();
        }
        self.from_client.put(octets, Sort::of(&frame.kind))
    }

    /// An attempt begins.
    fn begin(&mut self)
        ensures { (lanes : Lanes) → HasLanes self.old lanes → HasLanes self.new (beginning lanes) }
    {
        self.from_client.clear();
        self.from_server.clear();
        self.number = self.number.wrapping_add(1);
        self.is_answered = false;
    }

    /// The server replies a frame with these octets to one of the client's. UA says that a session answered this
    /// attempt. Takes memory.
    pub(crate) fn reply(&mut self, octets: &[u8]) -> Result<(), OutOfMemory>
        ensures { OnOk result ((lanes : Lanes) (frame : FrameValue) → HasLanes self.old lanes
            → FrameText frame octets.now → HasLanes self.new (replying frame lanes)) }
    {
        let Ok(frame) = read_frame(octets) else {
            return Ok(());
        };
        self.is_answered = self.is_answered || is_ua(&frame.kind);
        self.from_server.put(octets, Sort::of(&frame.kind))
    }

    /// A session of the client sends it a frame with these octets by its timer. Where no session answered this attempt
    /// it is that of an older one, and nobody hears the frame any more. Takes memory.
    pub(crate) fn time(&mut self, octets: &[u8]) -> Result<(), OutOfMemory>
        ensures { OnOk result ((lanes : Lanes) (frame : FrameValue) → HasLanes self.old lanes
            → FrameText frame octets.now → HasLanes self.new (timing frame lanes)) }
    {
        if !self.is_answered {
            return Ok(());
        }
        let Ok(frame) = read_frame(octets) else {
            return Ok(());
        };
        self.from_server.put(octets, Sort::of(&frame.kind))
    }
}

/// Whether a frame of this kind is a SABM.
fn is_call(kind: &Kind<'_>) -> bool
    ensures { result ≡ is_call (kind_value kind.now).control }
{
    matches!(kind, Kind::Sabm)
}

/// Whether a frame of this kind is a UA.
fn is_ua(kind: &Kind<'_>) -> bool
    ensures { result ≡ is_ua (kind_value kind.now).control }
{
    matches!(kind, Kind::Ua)
}
