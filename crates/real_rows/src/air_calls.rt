//! The calls of an air.
//!
//! What a poll answers is the octets that it heard, `quiet`, `end`, or that the air is down; what saying octets
//! answers, `ok` or that.

use crate::texts::{answer_text, octets_text};
use anyhow::Result;
use px_base::{Air, Polled, ROOM};
use row_words::{read_octets, text_of, written};
use std::alloc::Global;

/// Polls an air, and gives what it answers. Takes memory.
pub fn poll<A: Air>(alloc: Global, air: &mut A) -> Result<String> {
    let mut room = [0; ROOM];
    match air.poll(&mut room) {
        Ok(Polled::Bytes(count)) => octets_text(alloc, &room[..count]),
        Ok(Polled::Quiet) => text_of(alloc, "quiet"),
        Ok(Polled::End) => text_of(alloc, "end"),
        Err(down) => text_of(alloc, down),
    }
}

/// Says these octets on an air, and gives what it answers. Takes memory.
pub fn put<A: Air>(alloc: Global, air: &mut A, octets: &str) -> Result<String> {
    let octets = read_octets(alloc, written(octets))?;
    answer_text(alloc, air.put(octets.as_slice()))
}
