//! The air between the two stations.

ghost use Rattle.ax25_link.specs.Window.{IsGoodK};

use std::alloc::{AllocError, Global};
use std::collections::VecDeque;

/// Where the control octet of a frame without repeaters stands.
const CONTROL: usize = 14;

/// The frames that one station sent, from the first on that wasn't on the air yet, and what became of those before.
#[derive(Drop)]
pub struct Lane {
    alloc: Global,
    waiting: VecDeque<Vec<u8>>,
    /// What was drawn last, by a linear congruential generator modulo 2^64.
    drawn: u64,
    /// How many frames may have been sent after one that is displaced.
    most_later: usize,
    pub frames: u32,
    pub lost: u32,
    pub twice: u32,
    pub displaced: u32,
    /// How many octets of frames were delivered since the lane was cleared.
    pub octets: usize,
}

impl Lane {
    /// No frames, between stations with this window.
    pub fn new(alloc: Global, seed: u64, k: u8) -> Lane
        requires { IsGoodK k }
    {
        Lane {
            alloc,
            waiting: VecDeque::new(alloc),
            drawn: seed,
            most_later: usize::from(7 - k),
            frames: 0,
            lost: 0,
            twice: 0,
            displaced: 0,
            octets: 0,
        }
    }

    /// A frame is sent.
    pub fn put(&mut self, octets: &[u8]) -> Result<(), AllocError> {
        let octets = Vec::from_slice(self.alloc, octets)?;
        self.waiting.push_back(octets)?;
        Ok(())
    }

    /// Whether no frame waits.
    pub fn is_empty(&self) -> bool {
        self.waiting.is_empty()
    }

    /// All frames that wait are lost.
    pub fn clear(&mut self) {
        self.waiting.clear();
        self.octets = 0;
    }

    /// The next frame is on the air, if one waits: what is delivered. Of sixteen frames two are lost, one is delivered
    /// twice, and one behind the frame that was sent after it, as far as the link's law allows that.
    pub fn deliver(&mut self) -> Result<Vec<Vec<u8>>, AllocError> {
        let mut delivered = Vec::new(self.alloc);
        let Some(frame) = self.waiting.pop_front() else {
            return Ok(delivered);
        };
        self.frames = self.frames.saturating_add(1);
        match self.draw() {
            0 | 1 => {
                self.lost = self.lost.saturating_add(1);
                return Ok(delivered);
            }
            2 if !is_call(frame.as_slice()) => {
                self.twice = self.twice.saturating_add(1);
                delivered.push(Vec::from_slice(self.alloc, frame.as_slice())?)?;
            }
            3 if self.waiting.len() <= self.most_later => {
                if let Some(later) = self.waiting.pop_front() {
                    self.displaced = self.displaced.saturating_add(1);
                    self.octets = self.octets.saturating_add(later.len());
                    delivered.push(later)?;
                }
            }
            _ => {}
        }
        self.octets = self.octets.saturating_add(frame.len());
        delivered.push(frame)?;
        Ok(delivered)
    }

    /// A number that is drawn, below 16.
    fn draw(&mut self) -> u64 {
        self.drawn = self
            .drawn
            .wrapping_mul(6_364_136_223_846_793_005)
            .wrapping_add(1_442_695_040_888_963_407);
        (self.drawn >> 33) % 16
    }
}

/// Whether a frame is a SABM (AX.25 2.0, 2.3.4.3.1).
fn is_call(octets: &[u8]) -> bool {
    octets
        .get(CONTROL)
        .is_some_and(|control| *control & 0xEF == 0x2F)
}

/// The air: what the client sent, and what the server sent.
#[derive(Drop)]
pub struct Air {
    pub up: Lane,
    pub down: Lane,
    pub ticks: u32,
}
