//! Rows of packets.
//!
//! - `read OCTETS`: each packet that ends in these octets, fed in pieces of 1 and of 2,049, so that each packet ends at
//!   the end of a piece: the packet, and `alike` if the octets written of it are these, or they; or what is malformed.
//!   `more` if the last octet ends none.
//! - `stream OCTETS`: the packets of octets that are in memory, and the octets that are left; then the types of those
//!   that a sink takes if the octets are cut in two anywhere; and how many of five octets 00 are then taken, and what
//!   they end.

mod reading;
mod streams;

use anyhow::{Result, bail};
use row_words::{Player, kind_and_rest, read_octets};
use std::alloc::Global;

/// Plays rows of packets, each on its own.
#[derive(Drop)]
pub struct PacketRows;

impl Player for PacketRows {
    fn play(&mut self, alloc: Global, row: &str) -> Result<String> {
        let (kind, octets) = kind_and_rest(row);
        let octets = read_octets(alloc, octets)?;
        match kind {
            "read" => reading::read(alloc, octets.as_slice()),
            "stream" => streams::stream(alloc, octets.as_slice()),
            _ => bail!("no kind of row"),
        }
    }
}
