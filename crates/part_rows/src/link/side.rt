//! One of the two stations of an air's row.

use crate::link::frames::{MOST_PENDING, take};
use anyhow::{Context, Result, bail};
use arrayvec::ArrayVec;
use ax25_frames::{Kind, read_frame};
use ax25_link::{Heard, Link, LinkState, Why};
use std::alloc::{AllocError, Global};

/// The place of the control octet of a frame without repeaters.
const CONTROL: usize = 14;

/// A frame that a station sent.
#[derive(Drop)]
struct Sent {
    octets: Vec<u8>,
    is_delivered: bool,
}

/// What can't be if the air keeps its premises.
#[derive(Clone, Copy, Debug)]
pub enum Found {
    /// The link is down.
    Closed(Why),
    /// An octet was taken that isn't the next one pushed.
    OtherOctet,
}

/// A station with its link and all that it sent, and what happened so far.
#[derive(Drop)]
pub struct Side {
    alloc: Global,
    link: Link,
    /// What the octets of its stream begin with. The two streams differ.
    first: usize,
    sent: Vec<Sent>,
    /// Frames before this one were on the air once.
    next: usize,
    /// The newest I or S frame that was delivered.
    newest: usize,
    /// How many octets it pushed.
    pub pushed: usize,
    /// How many octets it took.
    pub taken: usize,
    /// How many I frames it took.
    pub pieces: usize,
    /// How many of its frames were delivered after a later one.
    pub late: usize,
    /// How many deliveries weren't the first one of its frame.
    pub repeated: usize,
    /// What it found.
    pub found: Option<Found>,
}

impl Side {
    /// A station with a new link.
    pub fn new(alloc: Global, link: Link, first: usize) -> Side {
        Side {
            alloc,
            link,
            first,
            sent: Vec::new(alloc),
            next: 1,
            newest: 0,
            pushed: 0,
            taken: 0,
            pieces: 0,
            late: 0,
            repeated: 0,
            found: None,
        }
    }

    /// Puts all pending frames on the air.
    pub fn hand_out(&mut self) -> Result<()> {
        for _ in 0..MOST_PENDING {
            let mut out = ArrayVec::<u8, 400>::new();
            if !self.link.next_out(&mut out) {
                return Ok(());
            }
            self.send(out.as_slice())?;
        }
        bail!("more than {MOST_PENDING} frames are pending")
    }

    /// Puts a frame on the air.
    fn send(&mut self, octets: &[u8]) -> Result<(), AllocError> {
        let octets = Vec::from_slice(self.alloc, octets)?;
        self.sent.push(Sent {
            octets,
            is_delivered: false,
        })?;
        Ok(())
    }

    /// Lets a tick come.
    pub fn tick(&mut self) -> Result<()> {
        if self.link.pending() {
            bail!("a tick while frames are pending");
        }
        if let Some(why) = self.link.tick() {
            self.found = Some(Found::Closed(why));
        }
        self.hand_out()
    }

    /// Pushes this number of octets of its stream, as far as there is room.
    pub fn push(&mut self, count: usize) -> Result<()> {
        if self.link.state() != LinkState::Up {
            return Ok(());
        }
        let mut octets = Vec::new(self.alloc);
        for i in 0..count {
            octets.push(octet_of(self.first, self.pushed.wrapping_add(i)))?;
        }
        let pushed = self.link.push(octets.as_slice());
        self.pushed = self.pushed.saturating_add(pushed);
        self.hand_out()
    }

    /// The place of the frame after which this number of frames were sent.
    pub fn place_before_end(&self, later: usize) -> Option<usize> {
        self.sent.len().checked_sub(1)?.checked_sub(later)
    }

    /// The place of the next frame that wasn't on the air yet; the one after it is the next from then on.
    pub fn next_place(&mut self) -> Option<usize> {
        let place = self.next;
        if place < self.sent.len() {
            self.next = place + 1;
            Some(place)
        } else {
            None
        }
    }

    /// All that was sent so far is lost if it wasn't on the air yet.
    pub fn lose_all(&mut self) {
        self.next = self.sent.len();
    }

    /// Whether a frame may be delivered: SABM was delivered once; an I or S frame until a later one has been, or while
    /// at most this number of later frames have been sent.
    fn may_deliver(&self, place: usize, most_later: usize) -> bool {
        let Some(sent) = self.sent.get(place) else {
            return false;
        };
        let later = self.sent.len().saturating_sub(1).saturating_sub(place);
        !is_call(sent.octets.as_slice())
            && (!is_numbered(sent.octets.as_slice()) || place >= self.newest || later <= most_later)
    }

    /// Delivers a frame to the other station, if it may be.
    pub fn deliver(&mut self, other: &mut Side, place: usize, most_later: usize) -> Result<()> {
        if self.may_deliver(place, most_later) {
            self.note(place);
            let sent = self.sent.get(place).context("no frame")?;
            other.hear(sent.octets.as_slice(), self.first)?;
        }
        Ok(())
    }

    /// Notes that a frame is delivered.
    fn note(&mut self, place: usize) {
        let Some(sent) = self.sent.get_mut(place) else {
            return;
        };
        if is_numbered(sent.octets.as_slice()) {
            if place < self.newest {
                self.late = self.late.saturating_add(1);
            }
            self.newest = self.newest.max(place);
        }
        if sent.is_delivered {
            self.repeated = self.repeated.saturating_add(1);
        }
        sent.is_delivered = true;
    }

    /// Hears a frame of the station whose stream begins with `first`.
    pub fn hear(&mut self, octets: &[u8], first: usize) -> Result<()> {
        match take(&mut self.link, octets)? {
            Heard::Bytes => self.take_piece(octets, first)?,
            Heard::Closed(why) => self.found = Some(Found::Closed(why)),
            _ => {}
        }
        self.hand_out()
    }

    /// Compares the information of an I frame with the stream.
    fn take_piece(&mut self, octets: &[u8], first: usize) -> Result<()> {
        let Ok(frame) = read_frame(octets) else {
            bail!("no frame");
        };
        let Kind::I { info, .. } = frame.kind else {
            bail!("Bytes without information");
        };
        for octet in info {
            if *octet != octet_of(first, self.taken) {
                self.found = Some(Found::OtherOctet);
            }
            self.taken = self.taken.saturating_add(1);
        }
        self.pieces = self.pieces.saturating_add(1);
        Ok(())
    }

    /// The octets of its newest frame.
    pub fn newest_octets(&self) -> &[u8] {
        match self.sent.as_slice() {
            [.., sent] => sent.octets.as_slice(),
            [] => &[],
        }
    }
}

/// The octet at a place of the stream that begins with `first`.
fn octet_of(first: usize, place: usize) -> u8 {
    ((place % 251 * 7 + first % 251) % 251) as u8
}

/// Whether a frame is a SABM (AX.25 2.0, 2.3.4.3.1).
fn is_call(octets: &[u8]) -> bool {
    octets
        .get(CONTROL)
        .is_some_and(|control| *control & 0xEF == 0x2F)
}

/// Whether a frame is an I or S frame, which has an N(R) (AX.25 2.0, 2.3.2).
fn is_numbered(octets: &[u8]) -> bool {
    octets
        .get(CONTROL)
        .is_some_and(|control| *control & 1 == 0 || *control & 3 == 1)
}
