//! What one station sent in an attempt.

ghost use Rattle.std.specs.Prelude.{◌≡◌, ◌<◌, ◌≤◌, ◌+◌, ◌-◌, ◌↔◌, ◌++◌, ◌∷◌, [], List, length, IsTrue, MatchOption};
ghost use Rattle.std.specs.Prelude.{OnOk, drop};
ghost use Rattle.std.specs.List.{list_any};
ghost use Rattle.ax25_frames.specs.FrameText.{FrameText, FrameValue};
ghost use Rattle.ax25_frames.specs.Values.{kind_value};
ghost use Rattle.ax25_link.specs.Air.{IsAt, Transmission, delivering, fresh};
ghost use Rattle.ax25_link.specs.Window.{window_of};
ghost use Rattle.air_rehearsal.specs.Lanes.{IsLane, sort_of};
ghost use Rattle.air_rehearsal.specs.LaneCalls.{MayDeliver, overtakes};

use ax25_frames::Kind;
use px_base::OutOfMemory;
use std::alloc::Global;

/// How many sequence numbers there are (AX.25 2.0, 2.3.2.4).
const MODULUS: usize = 8;

/// How the air may treat a frame.
#[derive(Clone, Copy, Debug)]
pub(crate) enum Sort {
    /// A SABM, which comes once at most.
    Call,
    /// An I or S frame, which doesn't come long after it was overtaken.
    Numbered,
    /// Any other U frame, which comes whenever it will.
    Plain,
}

impl Sort {
    /// How the air may treat a frame of this kind.
    pub(crate) fn of(kind: &Kind<'_>) -> Sort
        ensures { result ≡ sort_of (kind_value kind.now).control }
    {
        match kind {
            Kind::Sabm => Sort::Call,
            Kind::I { .. } | Kind::Rr { .. } | Kind::Rnr { .. } | Kind::Rej { .. } => {
                Sort::Numbered
            }
            Kind::Disc | Kind::Dm | Kind::Ua | Kind::Frmr(_) | Kind::Ui { .. } => Sort::Plain,
        }
    }
}

/// A frame that was sent.
#[derive(Drop)]
struct Sent {
    octets: Vec<u8>,
    sort: Sort,
    is_delivered: bool,
}

impl Sent {
    /// Whether it is an I or S frame that was delivered.
    fn overtakes(&self) -> bool
        ensures { result ≡ overtakes self.now }
    {
        self.is_delivered && matches!(self.sort, Sort::Numbered)
    }
}

/// The frames that one station sent in an attempt, in their order.
#[derive(Drop)]
pub(crate) struct Lane {
    alloc: Global,
    sent: Vec<Sent>,
}

impl Lane {
    /// Nothing was sent yet. Takes no memory.
    pub(crate) fn new(alloc: Global) -> Lane
        ensures { IsLane result [] }
    {
        Lane {
            alloc,
            sent: Vec::new(alloc),
        }
    }

    /// How many frames were sent.
    pub(crate) fn count(&self) -> usize
        ensures { (list : List Transmission) → IsLane self.now list → result ≡ length list }
    {
        self.sent.len()
    }

    /// A frame of this sort is sent. Takes memory.
    pub(crate) fn put(&mut self, octets: &[u8], sort: Sort) -> Result<(), OutOfMemory>
        ensures { OnOk result ((list : List Transmission) (frame : FrameValue) → IsLane self.old list
            → FrameText frame octets.now → sort ≡ sort_of frame.kind.control
            → IsLane self.new (list ++ fresh frame ∷ [])) }
    {
        let octets = Vec::from_slice(self.alloc, octets)?;
        self.sent.push(Sent {
            octets,
            sort,
            is_delivered: false,
        })?;
        Ok(())
    }

    /// Nothing was sent in the attempt that begins.
    pub(crate) fn clear(&mut self)
        ensures { IsLane self.new [] }
    {
        self.sent.clear();
    }

    /// Whether the frame at this place may be delivered, where at most k I frames may be outstanding: a SABM wasn't
    /// delivered before; an I or S frame isn't overtaken by a later one, or at most 7 - k frames were sent after it.
    pub(crate) fn is_lawful(&self, place: usize, k: u8) -> bool
        ensures { (list : List Transmission) → IsLane self.now list →
            IsTrue result ↔ MayDeliver (window_of k) list place }
    {
        let Some(frame) = self.sent.get(place) else {
            return false;
        };
        match frame.sort {
            Sort::Call => !frame.is_delivered,
            Sort::Numbered => !self.is_overtaken(place) || self.is_recent(place, k),
            Sort::Plain => true,
        }
    }

    /// Whether an I or S frame that was sent after the one at this place was delivered.
    fn is_overtaken(&self, place: usize) -> bool
        requires { place < length self.now.sent.items }
        ensures { result ≡ list_any overtakes (drop (place + 1) self.now.sent.items) }
    {
        self.sent
            .iter()
            .skip(place + 1)
            .any(|later| later.overtakes())
    }

    /// Whether so few frames were sent after the one at this place that no sequence number of it has another meaning.
    fn is_recent(&self, place: usize, k: u8) -> bool
        ensures { IsTrue result ↔ (length self.now.sent.items - 1 - place ≤ 7 - k) }
    {
        let later = self.sent.len().saturating_sub(1).saturating_sub(place);
        later <= (MODULUS - 1).saturating_sub(usize::from(k))
    }

    /// The frame at this place is delivered, if there is one.
    pub(crate) fn deliver(&mut self, place: usize)
        ensures { (list : List Transmission) (t : Transmission) → IsLane self.old list → IsAt list place t →
            IsLane self.new (delivering list place t) }
    {
        if let Some(frame) = self.sent.get_mut(place) {
            frame.is_delivered = true;
        }
    }

    /// The octets of the frame at this place, if there is one.
    pub(crate) fn octets(&self, place: usize) -> Option<&[u8]>
        ensures { (list : List Transmission) (t : Transmission) → IsLane self.now list → IsAt list place t →
            MatchOption result ⊥ (λ octets. FrameText t.frame octets.now) }
    {
        Some(self.sent.get(place)?.octets.as_slice())
    }
}
