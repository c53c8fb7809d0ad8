//! Rows of a stream of packets.

use crate::packets::reading::put_packet;
use crate::parts::{Parts, octets_text, same_text};
use anyhow::{Result, ensure};
use arrayvec::ArrayVec;
use ftl0_packets::{Malformed, Packet, PacketSink, feed_pieces, packets};
use px_base::FileBytes;
use row_words::text_of;
use std::alloc::Global;

/// The types of the packets that were taken, 16 at most.
#[derive(Drop)]
struct Types {
    types: ArrayVec<u8, 16>,
}

impl PacketSink for Types {
    ghost takes = { λ _ _ _. Unit {0} };

    fn take(&mut self, packet: Result<Packet<'_>, Malformed>) {
        let kind = match packet {
            Ok(packet) => packet.kind(),
            Err(malformed) => malformed.kind,
        };
        if !self.types.is_full() {
            self.types.push(kind);
        }
    }
}

/// `stream OCTETS`
pub fn stream(alloc: Global, octets: &[u8]) -> Result<String> {
    let mut parts = Parts::new(alloc);
    put_packets(alloc, octets, &mut parts)?;
    let types = cut_anywhere(alloc, octets)?;
    parts.put(types.as_str())?;
    Ok(parts.end())
}

/// Puts the packets, and the octets that are left.
fn put_packets(alloc: Global, octets: &[u8], parts: &mut Parts) -> Result<()> {
    let (found, rest) = packets(alloc, octets)?;
    for packet in found.iter() {
        match packet {
            Ok(packet) => put_packet(alloc, packet, parts)?,
            Err(malformed) => parts.show(malformed)?,
        }
    }
    parts.show_octets(rest)
}

/// The types of the packets, and what octets 00 then end, wherever the octets are cut in two.
fn cut_anywhere(alloc: Global, octets: &[u8]) -> Result<String> {
    let text = cut_at(alloc, octets, 0)?;
    for at in 0..octets.len() {
        let found = cut_at(alloc, octets, at)?;
        same_text(found.as_str(), text.as_str(), format_args!("cut at {at}"))?;
    }
    Ok(text)
}

/// The same if they are cut at a place.
fn cut_at(alloc: Global, octets: &[u8], at: usize) -> Result<String> {
    ensure!(at <= octets.len(), "no place");
    let (front, back) = octets.split_at(at);
    let front = FileBytes::copy_of(alloc, front)?;
    let pieces = [front, FileBytes::copy_of(alloc, back)?];
    types_text(alloc, pieces.as_slice())
}

/// The types of the packets in these pieces, and what octets 00 then end.
fn types_text(alloc: Global, pieces: &[FileBytes]) -> Result<String> {
    let mut sink = Types {
        types: ArrayVec::new(),
    };
    let mut reader = feed_pieces(pieces, &mut sink);
    let (taken, fed) = reader.feed(&[0, 0, 0, 0, 0]);
    let types = octets_text(alloc, sink.types.as_slice())?;
    text_of(alloc, format_args!("{types}; {taken} {fed:?}"))
}
