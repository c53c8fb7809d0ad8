//! Rows of the texts of schedules.
//!
//! - `text TEXT`: what is read of this text, in which `|` is written for LF; or why it is none.
//! - `octets HEX`: the same of the text of these octets.
//! - `tokens COUNT`: how many tokens are read of an event that asks for a list with this number of tokens; or why the
//!   text is none.
//! - `memory`: the text that says that there is no memory.

use crate::parts::Parts;
use air_schedule::{Event, Schedule, ScheduleFault};
use anyhow::{Result, bail};
use row_words::{Player, kind_and_rest, text_of, with_lines};
use std::alloc::Global;

/// Plays rows of schedules, each on its own.
#[derive(Drop)]
pub struct ScheduleRows;

impl Player for ScheduleRows {
    fn play(&mut self, alloc: Global, row: &str) -> Result<String> {
        let (kind, text) = kind_and_rest(row);
        match kind {
            "text" => shown(alloc, with_lines(alloc, text)?.as_slice()),
            "octets" => shown(alloc, hex::decode(alloc, text)?.as_slice()),
            "tokens" => tokens(alloc, text.parse::<u32>()?),
            "memory" => text_of(alloc, ScheduleFault::OutOfMemory),
            _ => bail!("no kind of row"),
        }
    }
}

/// What is read of a text, or why it is none.
fn shown(alloc: Global, text: &[u8]) -> Result<String> {
    match Schedule::read(alloc, text) {
        Ok(schedule) => schedule_text(alloc, &schedule),
        Err(fault) => text_of(alloc, fault),
    }
}

/// The window, the calls and the events.
fn schedule_text(alloc: Global, schedule: &Schedule) -> Result<String> {
    let mut parts = Parts::new(alloc);
    let window = schedule.window();
    parts.show(format_args!("window {window}"))?;
    for call in schedule.clients() {
        parts.show(call)?;
    }
    for event in schedule.events() {
        parts.show(format_args!("{event:?}"))?;
    }
    Ok(parts.end())
}

/// `tokens COUNT`
fn tokens(alloc: Global, count: u32) -> Result<String> {
    let text = asking(alloc, count)?;
    match Schedule::read(alloc, text.as_slice()) {
        Ok(schedule) => tokens_text(alloc, schedule.events()),
        Err(fault) => text_of(alloc, fault),
    }
}

/// A text of one event, which asks for a list with this number of tokens.
fn asking(alloc: Global, count: u32) -> Result<Vec<u8>> {
    let mut text = Vec::from_slice(alloc, b"window 1\nask 1 list ")?;
    for _ in 0..count {
        text.extend_from_slice(b"2a")?;
    }
    text.push(b'\n')?;
    Ok(text)
}

/// How many tokens the first event has, which asks for a list.
fn tokens_text(alloc: Global, events: &[Event]) -> Result<String> {
    let Some(Event::AskList { tokens, .. }) = events.first() else {
        bail!("no event that asks for a list");
    };
    let count = tokens.len();
    text_of(alloc, format_args!("{count} tokens"))
}
