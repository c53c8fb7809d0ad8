//! The packets of octets that lie in memory as a whole.

ghost use Rattle.std.specs.Prelude.{◌≡◌, ◌++◌, ◌<◌, ℕ, List, length, IfOk, IfSome, IfNone};
ghost use Rattle.ftl0_packets.specs.Layout.{PacketText};
ghost use Rattle.ftl0_packets.specs.Stream.{Stream, IsPartial};
ghost use Rattle.ftl0_packets.specs.Values.{item_of, items_of};

use crate::text::{read_text, text_len};
use crate::{Malformed, Packet};
use px_base::OutOfMemory;
use std::alloc::Global;

/// What was read, a packet or a malformed one.
type Read<'a> = Result<Packet<'a>, Malformed>;

/// The packets of the octets, one after another, and what is left, which is less than a whole packet. Takes memory.
pub fn packets(alloc: Global, octets: &[u8]) -> Result<(Vec<Read<'_>>, &[u8]), OutOfMemory>
    ensures { IfOk result (λ found. Stream octets.now (items_of found.0.items) found.1.now) }
{
    let mut found = Vec::new(alloc);
    let mut rest = octets;
    while let Some((packet, later)) = first_packet(rest) {
        found.push(packet)?;
        rest = later;
    }
    Ok((found, rest))
}

/// The first packet and the octets after it, if there is a whole one.
fn first_packet(octets: &[u8]) -> Option<(Read<'_>, &[u8])>
    ensures none { IfNone result (IsPartial octets.now) }
    ensures shorter { IfSome result (λ found. length found.1.now < length octets.now) }
    ensures text { IfSome result (λ found. (text : List ℕ) × PacketText (item_of found.0) text
        × (octets.now ≡ text ++ found.1.now)) }
{
    let len = text_len(octets);
    if len <= octets.len() {
        let (text, later) = octets.split_at(len);
        Some((read_text(text), later))
    } else {
        None
    }
}
