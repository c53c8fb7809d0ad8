//! Rows of packets in octets that are fed to a reader.

ghost use Rattle.std.specs.Prelude.{◌<◌, ◌≤◌, length, IsTrue};
ghost use Rattle.ftl0_packets.specs.Layout.{packet_text as text_of_packet};
ghost use Rattle.ftl0_packets.specs.Values.{value_of};

use crate::parts::{Parts, octets_text, same_text};
use anyhow::{Result, ensure};
use arrayvec::ArrayVec;
use ftl0_packets::{Malformed, Packet, PacketFed, PacketReader, write_packet};
use std::alloc::Global;

/// `read OCTETS`
pub fn read(alloc: Global, octets: &[u8]) -> Result<String> {
    let text = read_in_pieces(alloc, octets, 2049)?;
    let found = read_in_pieces(alloc, octets, 1)?;
    same_text(found.as_str(), text.as_str(), "octet by octet")?;
    Ok(text)
}

/// The same in pieces of a length.
fn read_in_pieces(alloc: Global, octets: &[u8], len: usize) -> Result<String>
    requires { 0 < len }
{
    let mut parts = Parts::new(alloc);
    put_all(alloc, octets, len, &mut parts)?;
    Ok(parts.end())
}

/// Puts each packet that is read in pieces of a length, and `more` if the last piece ends none.
fn put_all(alloc: Global, octets: &[u8], len: usize, parts: &mut Parts) -> Result<()>
    requires { 0 < len }
{
    let mut reader = PacketReader::new();
    let mut last = PacketFed::More;
    for piece in octets.chunks(len) {
        let (taken, fed) = reader.feed(piece);
        ensure!(taken == piece.len(), "octets are left");
        last = fed;
        if fed == PacketFed::Whole {
            put_read(alloc, reader.packet(), octets, parts)?;
        }
    }
    if last == PacketFed::More {
        parts.put("more")?;
    }
    Ok(())
}

/// Puts what was read, and whether what is written of it is alike.
fn put_read(
    alloc: Global,
    packet: Result<Packet<'_>, Malformed>,
    octets: &[u8],
    parts: &mut Parts,
) -> Result<()> {
    match packet {
        Ok(packet) => {
            put_packet(alloc, &packet, parts)?;
            put_written(&packet, octets, parts)
        }
        Err(malformed) => parts.show(malformed),
    }
}

/// Puts a packet, with its octets in hexadecimal.
pub fn put_packet(alloc: Global, packet: &Packet<'_>, parts: &mut Parts) -> Result<()> {
    match packet {
        Packet::DataPart(octets) => put_named(alloc, "DataPart", octets, parts),
        Packet::SelectCmd(octets) => put_named(alloc, "SelectCmd", octets, parts),
        other => parts.show(format_args!("{other:?}")),
    }
}

/// Puts octets after a name.
fn put_named(alloc: Global, name: &str, octets: &[u8], parts: &mut Parts) -> Result<()> {
    let octets = octets_text(alloc, octets)?;
    parts.show(format_args!("{name} {octets}"))
}

/// Puts the octets written of a packet that was read of these.
fn put_written(packet: &Packet<'_>, octets: &[u8], parts: &mut Parts) -> Result<()> {
    let mut out: ArrayVec<u8, 2049> = ArrayVec::new();
    ensure!(fits(packet), "too many octets");
    write_packet(packet, &mut out);
    if out.as_slice() == octets {
        return parts.put("alike");
    }
    parts.show_octets(out.as_slice())
}

/// Whether a packet has at most 2,047 octets of information.
fn fits(packet: &Packet<'_>) -> bool
    ensures { IsTrue result → length (text_of_packet (value_of packet.now)) ≤ 2049 }
{
    match packet {
        Packet::DataPart(octets) | Packet::SelectCmd(octets) => octets.len() <= 2047,
        _ => true,
    }
}
