//! A row of one link.

ghost use Rattle.std.specs.Prelude.{IfOk};
ghost use Rattle.ax25_link.specs.Window.{IsGoodK};

use crate::link::frames::{
    CALLER_SSID, MOST_PENDING, called, caller, octets_of, peer, shown, take,
};
use crate::link::shown::Shown;
use anyhow::{Context, Result, bail, ensure};
use arrayvec::ArrayVec;
use ax25_link::{Link, LinkState, good_k};
use row_words::{text_of, two_parts};
use std::alloc::Global;
use std::fmt::Display;

/// The link of a row, and what it printed so far.
#[derive(Drop)]
struct OneLink {
    alloc: Global,
    link: Link,
    /// The SSID of the peer.
    ssid: u8,
    /// How many octets were pushed.
    pushed: usize,
    shown: Shown,
}

/// Plays a row, and gives its outcome.
pub fn play(alloc: Global, row: &str) -> Result<String> {
    let (made, events) = row.split_once(';').unwrap_or((row, ""));
    let (made, is_held) = held(made);
    let mut player = OneLink::new(alloc, make(alloc, made)?);
    player.play(events, is_held)?;
    text_of(alloc, player.shown.text())
}

/// An event without its `+`, and whether it has one.
fn held(event: &str) -> (&str, bool) {
    match event.strip_suffix('+') {
        Some(event) => (event, true),
        None => (event, false),
    }
}

/// Makes the link of PACSAT.
fn make(alloc: Global, made: &str) -> Result<Link> {
    if let Some(k) = made.strip_prefix("call ") {
        let k = window(k)?;
        return Ok(Link::call(alloc, called()?, caller()?, k)?);
    }
    if let Some(k) = made.strip_prefix("idle ") {
        let k = window(k)?;
        return Ok(Link::idle(alloc, called()?, k)?);
    }
    let numbers = made.strip_prefix("answer ").context("no link is made")?;
    let (k, poll) = two_parts(numbers, ' ')?;
    let k = window(k)?;
    Ok(Link::answer(alloc, called()?, caller()?, k, poll == "1")?)
}

/// The window that a row has.
pub fn window(text: &str) -> Result<u8>
    ensures { IfOk result IsGoodK }
{
    let k = text.parse::<u8>()?;
    ensure!(good_k(k), "a window of {k}");
    Ok(k)
}

impl OneLink {
    /// Nothing happened so far.
    fn new(alloc: Global, link: Link) -> OneLink {
        OneLink {
            alloc,
            link,
            ssid: CALLER_SSID,
            pushed: 0,
            shown: Shown::new(alloc),
        }
    }

    /// Plays all events after the first one, which made the link, and ends the row.
    fn play(&mut self, events: &str, is_held: bool) -> Result<()> {
        self.end_event(is_held)?;
        for event in events.split_terminator(';') {
            self.play_event(event.trim())?;
        }
        self.end()
    }

    /// Plays an event.
    fn play_event(&mut self, event: &str) -> Result<()> {
        let (event, is_held) = held(event);
        if let Some(count) = event.strip_prefix("push ") {
            self.push(count.parse::<usize>()?)?;
        } else if let Some(count) = event.strip_prefix("tick ") {
            self.play_ticks(count.parse::<u32>()?, is_held)?;
        } else if let Some(numbers) = event.strip_prefix("accept ") {
            let (poll, ssid) = numbers.split_once(' ').unwrap_or((numbers, "9"));
            self.accept(poll == "1", ssid.parse::<u8>()?)?;
        } else if event == "one" {
            self.hand_out_one()?;
            return self.shown.end_part();
        } else {
            self.play_bare(event)?;
        }
        self.end_event(is_held)
    }

    /// Plays an event without a number.
    fn play_bare(&mut self, event: &str) -> Result<()> {
        if event != "hang_up" && event != "abandon" {
            return self.play_frame(event);
        }
        ensure!(self.link.state() == LinkState::Up, "{event} while not up");
        if event == "hang_up" {
            self.link.hang_up();
        } else {
            self.link.abandon();
        }
        Ok(())
    }

    /// Takes a frame, and shows what the link reports.
    fn play_frame(&mut self, text: &str) -> Result<()> {
        let octets = octets_of(self.alloc, self.ssid, text)?;
        let heard = take(&mut self.link, octets.as_slice())?;
        self.put(format_args!("{heard:?}"))
    }

    /// Answers a SABM with this P bit of the peer with this SSID.
    fn accept(&mut self, poll: bool, ssid: u8) -> Result<()> {
        ensure!(
            self.link.state() == LinkState::Down,
            "accepted while not down"
        );
        ensure!(!self.link.pending(), "accepted while frames are pending");
        self.link.accept(peer(self.alloc, ssid)?, poll);
        self.ssid = ssid;
        Ok(())
    }

    /// Pushes this number of octets of the stream, and shows how many were taken.
    fn push(&mut self, count: usize) -> Result<()> {
        ensure!(self.link.state() == LinkState::Up, "a push while not up");
        let octets = stream(self.alloc, self.pushed, count)?;
        let pushed = self.link.push(octets.as_slice());
        self.pushed = self.pushed.saturating_add(pushed);
        self.put(pushed)
    }

    /// Lets this number of ticks come. What is pending after the last one stays if the event is held.
    fn play_ticks(&mut self, count: u32, is_held: bool) -> Result<()> {
        for number in 1..=count {
            self.play_tick(number, is_held && number == count)?;
        }
        Ok(())
    }

    /// Lets the tick of this number come, and shows it with what it reported and made pending.
    fn play_tick(&mut self, number: u32, is_held: bool) -> Result<()> {
        ensure!(!self.link.pending(), "a tick while frames are pending");
        let told = self.link.tick();
        if told.is_some() || (self.link.pending() && !is_held) {
            self.put(format_args!("@{number}"))?;
        }
        if let Some(why) = told {
            self.put(format_args!("{why:?}"))?;
        }
        if is_held { Ok(()) } else { self.hand_out() }
    }

    /// Hands out all pending frames, unless the event is held, and ends its part.
    fn end_event(&mut self, is_held: bool) -> Result<()> {
        if !is_held {
            self.hand_out()?;
        }
        self.shown.end_part()
    }

    /// Hands out all pending frames.
    fn hand_out(&mut self) -> Result<()> {
        for _ in 0..MOST_PENDING {
            if !self.hand_out_one()? {
                return Ok(());
            }
        }
        bail!("more than {MOST_PENDING} frames are pending")
    }

    /// Hands out the next frame, and says whether there was one.
    fn hand_out_one(&mut self) -> Result<bool> {
        let mut out = ArrayVec::<u8, 400>::new();
        let is_pending = self.link.pending();
        let is_given = self.link.next_out(&mut out);
        ensure!(is_given == is_pending, "pending says {is_pending}");
        if is_given {
            let frame = shown(self.alloc, self.ssid, out.as_slice())?;
            self.shown.put(frame.as_str())?;
        }
        Ok(is_given)
    }

    /// Puts a word.
    fn put<T: Display + Drop>(&mut self, word: T) -> Result<()> {
        let word = text_of(self.alloc, word)?;
        self.shown.put(word.as_str())
    }

    /// Ends the row by the state.
    fn end(&mut self) -> Result<()> {
        let state = self.link.state();
        if state == LinkState::Up {
            let free = self.link.free();
            self.put(format_args!("Up {free}"))
        } else {
            self.put(format_args!("{state:?}"))
        }
    }
}

/// This number of octets of a row's stream from a place on: the octet at a place is the place modulo 251.
fn stream(alloc: Global, place: usize, count: usize) -> Result<Vec<u8>> {
    let mut octets = Vec::new(alloc);
    for i in 0..count {
        octets.push((place.wrapping_add(i) % 251) as u8)?;
    }
    Ok(octets)
}
