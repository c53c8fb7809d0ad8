//! The two stations of the rows, and the octets of frames between them.

use anyhow::{Result, bail, ensure};
use ax25_frames::read_frame;
use ax25_link::{Heard, Link};
use px_base::{BadCall, Call};
use row_words::text_of;
use std::alloc::{AllocError, Global};

/// The SSID of the peer of a row of one link, as long as no other is accepted.
pub const CALLER_SSID: u8 = 9;

/// The station that calls in the air's rows, and the peer in all others.
pub fn caller() -> Result<Call, BadCall> {
    Call::read("NOCALL-9")
}

/// The peer that has this SSID.
pub fn peer(alloc: Global, ssid: u8) -> Result<Call> {
    let text = text_of(alloc, format_args!("NOCALL-{ssid}"))?;
    Ok(Call::read(text.as_str())?)
}

/// The other one.
pub fn called() -> Result<Call, BadCall> {
    Call::read("PACSAT")
}

/// More frames than can be pending at once: a reply, seven frames again, seven new ones, and DISC or DM.
pub const MOST_PENDING: u8 = 17;

/// How many octets the two addresses have.
const ADDRESSES: usize = 14;

/// The addresses of a command to NOCALL (AX.25 2.0, 2.2.13). Bits 1 to 4 of its seventh octet are the peer's SSID.
const COMMAND_TO_PEER: [u8; ADDRESSES] = [
    0x9C, 0x9E, 0x86, 0x82, 0x98, 0x98, 0xE0, 0xA0, 0x82, 0x86, 0xA6, 0x82, 0xA8, 0x61,
];

/// Those of a response.
const RESPONSE_TO_PEER: [u8; ADDRESSES] = [
    0x9C, 0x9E, 0x86, 0x82, 0x98, 0x98, 0x60, 0xA0, 0x82, 0x86, 0xA6, 0x82, 0xA8, 0xE1,
];

/// The addresses of a command to PACSAT.
const COMMAND_TO_CALLED: [u8; ADDRESSES] = [
    0xA0, 0x82, 0x86, 0xA6, 0x82, 0xA8, 0xE0, 0x9C, 0x9E, 0x86, 0x82, 0x98, 0x98, 0x61,
];

/// Those of a response.
const RESPONSE_TO_CALLED: [u8; ADDRESSES] = [
    0xA0, 0x82, 0x86, 0xA6, 0x82, 0xA8, 0x60, 0x9C, 0x9E, 0x86, 0x82, 0x98, 0x98, 0xE1,
];

/// The octets of a frame of the peer with this SSID to PACSAT that a row has: `c` for a command or `r` for a response,
/// then its octets from the control octet on in hexadecimal.
pub fn octets_of(alloc: Global, ssid: u8, text: &str) -> Result<Vec<u8>> {
    let (mut addresses, rest) = match text.strip_prefix('c') {
        Some(rest) => (COMMAND_TO_CALLED, rest),
        None => (RESPONSE_TO_CALLED, text.strip_prefix('r').unwrap_or("")),
    };
    addresses[13] |= ssid << 1;
    let mut octets = Vec::from_slice(alloc, addresses.as_slice())?;
    octets.extend_from_slice(hex::decode(alloc, rest)?.as_slice())?;
    Ok(octets)
}

/// How a row shows a frame to the peer with this SSID: as it would have it, or as all octets after `?` if the addresses
/// are others.
pub fn shown(alloc: Global, ssid: u8, octets: &[u8]) -> Result<String, AllocError> {
    let (mut command, mut response) = (COMMAND_TO_PEER, RESPONSE_TO_PEER);
    command[6] |= ssid << 1;
    response[6] |= ssid << 1;
    if let Some(rest) = octets.strip_prefix(command.as_slice()) {
        marked(alloc, "c", rest)
    } else if let Some(rest) = octets.strip_prefix(response.as_slice()) {
        marked(alloc, "r", rest)
    } else {
        marked(alloc, "?", octets)
    }
}

/// A mark, then these octets in hexadecimal.
fn marked(alloc: Global, mark: &str, octets: &[u8]) -> Result<String, AllocError> {
    let mut text = String::from_str(alloc, mark)?;
    text.push_str(hex::encode(alloc, octets)?.as_str())?;
    Ok(text)
}

/// Hands a frame's octets to a link.
pub fn take(link: &mut Link, octets: &[u8]) -> Result<Heard> {
    ensure!(!link.pending(), "a frame while others are pending");
    let frame = match read_frame(octets) {
        Ok(frame) => frame,
        Err(fault) => bail!("{fault}"),
    };
    ensure!(link.is_from_peer(&frame), "a frame of others");
    Ok(link.take(&frame))
}
