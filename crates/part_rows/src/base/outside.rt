//! Rows of the outside in memory.

use crate::parts::Parts;
use anyhow::{Result, bail, ensure};
use px_base::{
    Air, Clock, FileBytes, MemoryAir, MemoryClock, MemoryOut, MemoryShelf, Out, ROOM, Shelf,
};
use row_words::{hex_text, read_air, read_numbers, read_octets, three_parts, two_parts, written};
use std::alloc::Global;

/// `air FAILING | TURNS | CALLS`
pub fn air(alloc: Global, row: &str) -> Result<String> {
    let (failing, turns, calls) = three_parts(row, '|')?;
    let (mut air, _clock) = read_air(alloc, failing, turns, ROOM)?;
    let mut parts = Parts::new(alloc);
    play_air(alloc, &mut air, calls, &mut parts)?;
    Ok(parts.end())
}

/// Makes these calls of an air.
fn play_air(alloc: Global, air: &mut MemoryAir, calls: &str, parts: &mut Parts) -> Result<()> {
    let mut room = [0; ROOM];
    for call in calls.split_whitespace() {
        match call {
            "poll" => poll(alloc, air, &mut room, parts)?,
            octets => parts.show_answer(air.put(read_octets(alloc, octets)?.as_slice()))?,
        }
    }
    parts.show_octets(air.said())?;
    let heard = air.heard().len();
    let starved = air.starved();
    parts.show(format_args!("{heard} {starved}"))
}

/// Polls an air.
fn poll(
    alloc: Global,
    air: &mut MemoryAir,
    room: &mut [u8; ROOM],
    parts: &mut Parts,
) -> Result<()> {
    match air.poll(room) {
        Ok(polled) => {
            let first = hex_text(alloc, &room[..2])?;
            parts.show(format_args!("{polled:?} {first}"))
        }
        Err(down) => parts.show(down),
    }
}

/// `out FAILING | OCTETS..`
pub fn output(alloc: Global, row: &str) -> Result<String> {
    let (failing, calls) = two_parts(row, '|')?;
    let failing = read_numbers(alloc, failing)?;
    let mut out = MemoryOut::new(alloc, failing.as_slice())?;
    let mut parts = Parts::new(alloc);
    play_output(alloc, &mut out, calls, &mut parts)?;
    Ok(parts.end())
}

/// Puts these octets.
fn play_output(alloc: Global, out: &mut MemoryOut, calls: &str, parts: &mut Parts) -> Result<()> {
    for call in calls.split_whitespace() {
        let octets = read_octets(alloc, call)?;
        parts.show_answer(out.put(octets.as_slice()))?;
    }
    parts.show_octets(out.shown())?;
    parts.show(out.starved())
}

/// `shelf FAILING | CALLS`
pub fn shelf(alloc: Global, row: &str) -> Result<String> {
    let (failing, calls) = two_parts(row, '|')?;
    let failing = read_numbers(alloc, failing)?;
    let mut shelf = MemoryShelf::new(alloc, failing.as_slice())?;
    let mut parts = Parts::new(alloc);
    for call in calls.split_terminator(';') {
        shelf_call(alloc, &mut shelf, call, &mut parts)?;
    }
    parts.show(shelf.starved())?;
    Ok(parts.end())
}

/// Makes a call of a shelf.
fn shelf_call(alloc: Global, shelf: &mut MemoryShelf, call: &str, parts: &mut Parts) -> Result<()> {
    let words = call.split_whitespace().collect::<Vec<&str>>(alloc)?;
    match words.as_slice() {
        ["keep", name, octets] => keep(alloc, shelf, written(name), written(octets), parts),
        ["load", name, most] => load(alloc, shelf, written(name), most.parse::<usize>()?, parts),
        ["content", name] => content(shelf.content(written(name)), parts),
        _ => bail!("no call of a shelf"),
    }
}

/// Keeps octets on a shelf.
fn keep(
    alloc: Global,
    shelf: &mut MemoryShelf,
    name: &str,
    octets: &str,
    parts: &mut Parts,
) -> Result<()> {
    let octets = read_octets(alloc, octets)?;
    parts.show_answer(shelf.keep(name, octets.as_slice()))
}

/// Loads what a shelf has.
fn load(
    alloc: Global,
    shelf: &mut MemoryShelf,
    name: &str,
    most: usize,
    parts: &mut Parts,
) -> Result<()> {
    match shelf.load(alloc, name, most) {
        Ok(content) => parts.show_octets(content.as_slice()),
        Err(refusal) => parts.show(refusal),
    }
}

/// What a shelf has, or `none`.
fn content(content: Option<&FileBytes>, parts: &mut Parts) -> Result<()> {
    match content {
        Some(content) => parts.show_octets(content.as_slice()),
        None => parts.put("none"),
    }
}

/// `clock MOMENTS | COUNT`
pub fn clock(alloc: Global, row: &str) -> Result<String> {
    let (moments, count) = two_parts(row, '|')?;
    let count = count.trim().parse::<u32>()?;
    let mut clock = read_clock(alloc, moments)?;
    let mut parts = Parts::new(alloc);
    for _ in 0..count {
        parts.show(clock.now().get())?;
    }
    parts.show(clock.calls())?;
    Ok(parts.end())
}

/// A clock that gives these moments.
fn read_clock(alloc: Global, text: &str) -> Result<MemoryClock> {
    let mut moments = Vec::new(alloc);
    for word in text.split_whitespace() {
        moments.push(word.parse::<u32>()?)?;
    }
    ensure!(!moments.is_empty(), "no moment");
    Ok(MemoryClock::new(alloc, moments.as_slice())?)
}
