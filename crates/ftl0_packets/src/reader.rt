//! Packets from octets that come in any pieces.

ghost use Rattle.std.specs.Prelude.{◌≡◌, ◌+◌, ◌-◌, min, ◌≤◌, ◌<◌, ◌↔◌, ℕ, List, [], ◌∷◌, ◌++◌, length, take, drop, IfErr, IsErr, IsTrue, if◌then◌else◌};
ghost use Rattle.ftl0_packets.specs.Layout.{Item, PacketText};
ghost use Rattle.ftl0_packets.specs.Reading.{is_malformed, malformed_in, is_whole as is_whole_text, packets_of, read_item, rest_of, text_len as octets_of_text, under_way};
ghost use Rattle.ftl0_packets.specs.Filling.{IsFilling};
ghost use Rattle.ftl0_packets.specs.Stream.{IsPartial};
ghost use Rattle.ftl0_packets.specs.Values.{item_of};

use crate::text::{HEADER_LEN, MOST_OCTETS, header_text_len, read_text, text_len};
use crate::{Malformed, Packet};
use px_base::OctetBuffer;
use std::marker::Model;

/// Whether a packet is whole now.
#[derive(Clone, Copy, Debug, PartialEq, Eq)]
pub enum PacketFed {
    /// All octets were taken, and no packet is whole.
    More,
    /// A packet is whole.
    Whole,
}

/// A reader of packets. Contracts see it as the octets of the packet under way, or of the whole packet that the last
/// octets ended.
#[derive(Debug, Drop)]
pub struct PacketReader {
    /// The octets of a whole packet, or of a part from its front.
    text: OctetBuffer<MOST_OCTETS>,
    /// How many octets the packet has that begins so. An octet that isn't there yet counts as 0.
    end: usize,
}

impl Model for PacketReader {
    ghost use Rattle.std.specs.Prelude.{List, ℕ};
    ghost use Rattle.ftl0_packets.specs.Filling.{IsBuffer};

    ghost Value = { List ℕ };

    ghost view = { λ a. a.text };

    ghost invariant = { λ a. IsBuffer a.text a.end };
}

impl PacketReader {
    /// A reader before the first packet. Takes no memory.
    pub fn new() -> PacketReader
        ensures octets { result ≡ [] }
        ensures none { packets_of (under_way result) ≡ [] }
        ensures left { rest_of (under_way result) ≡ [] }
    {
        PacketReader {
            text: OctetBuffer::new(),
            end: HEADER_LEN,
        }
    }

    /// Lets the packet under way go, and is as before the first packet. Takes no memory.
    pub fn clear(&mut self)
        ensures octets { self.new ≡ [] }
        ensures none { packets_of (under_way self.new) ≡ [] }
        ensures left { rest_of (under_way self.new) ≡ [] }
    {
        self.text.clear();
        self.end = HEADER_LEN;
    }

    /// Takes octets up to the end of the packet under way, and says how many, and whether the packet is whole now. The
    /// octets after it are left for the next call, which begins the next packet. Takes no memory.
    pub fn feed(&mut self, bytes: &[u8]) -> (usize, PacketFed)
        // What it takes is put to the packet under way.
        ensures taken { result.0 ≤ length bytes.now }
        ensures octets { self.new ≡ under_way self.old ++ take result.0 bytes.now }
        ensures progress { 0 < length bytes.now → 0 < result.0 }

        // No octet of the next packet is taken: with fewer octets no packet is whole.
        ensures no_more { (n : ℕ) → n < result.0 → IsPartial (under_way self.old ++ take n bytes.now) }

        // The answer says whether that is a packet's whole text, or less.
        ensures whole { (result.1 ≡ PacketFed.Whole) ↔ ((item : Item) × PacketText item self.new) }
        ensures partial { (result.1 ≡ PacketFed.More) ↔ IsPartial self.new }
        ensures readable { (result.1 ≡ PacketFed.Whole) ↔ IsTrue (is_whole_text self.new) }
        ensures all { result.1 ≡ PacketFed.More → result.0 ≡ length bytes.now }

        // Whatever comes later, the packets of the stream are this one, if it is whole, and those of what is left.
        ensures found { result.1 ≡ PacketFed.Whole → (later : List ℕ) →
            packets_of (under_way self.old ++ (bytes.now ++ later))
            ≡ read_item self.new ∷ packets_of (under_way self.new ++ (drop result.0 bytes.now ++ later)) }
        ensures waits { result.1 ≡ PacketFed.More → (later : List ℕ) →
            packets_of (under_way self.old ++ (bytes.now ++ later))
            ≡ packets_of (under_way self.new ++ (drop result.0 bytes.now ++ later)) }
        ensures rest { (later : List ℕ) →
            rest_of (under_way self.old ++ (bytes.now ++ later))
            ≡ rest_of (under_way self.new ++ (drop result.0 bytes.now ++ later)) }
        ensures none { packets_of (under_way self.new) ≡ [] }
        ensures left { rest_of (under_way self.new) ≡ under_way self.new }
    {
        let taken = self.take_octets(bytes);
        (taken, self.fed())
    }

    /// The packet that is whole since the last `feed`, or `Malformed` exactly where its type is above 17, or its
    /// length isn't one that its type has. Takes no memory.
    pub fn packet(&self) -> Result<Packet<'_>, Malformed>
        requires { IsTrue (is_whole_text self.now) }
        ensures text { PacketText (item_of result) self.now }
        ensures item { item_of result ≡ read_item self.now }
        ensures malformed { IsErr result ↔ IsTrue (is_malformed self.now) }
        ensures fault { IfErr result (λ fault. fault ≡ malformed_in self.now) }
    {
        read_text(self.text.as_slice())
    }

    /// Whether the packet is whole.
    fn is_whole(&self) -> bool
        ensures { result ≡ is_whole_text self.now }
    {
        self.text.len() == self.end
    }

    /// Whether the packet is whole, as `feed` says it.
    fn fed(&self) -> PacketFed
        ensures { result ≡ (if is_whole_text self.now then PacketFed.Whole else PacketFed.More) }
    {
        if self.is_whole() {
            PacketFed::Whole
        } else {
            PacketFed::More
        }
    }

    /// Lets a whole packet go, so that the next one may begin.
    fn begin_next(&mut self)
        ensures under_way { self.new ≡ under_way self.old }
        ensures less { length self.new < octets_of_text self.new }
    {
        if self.is_whole() {
            self.text.clear();
            self.end = HEADER_LEN;
        }
    }

    /// Puts octets to the packet under way up to its end, and says how many.
    fn take_octets(&mut self, bytes: &[u8]) -> usize
        ensures taken { result ≤ length bytes.now }
        ensures octets { self.new ≡ under_way self.old ++ take result bytes.now }
        ensures progress { 0 < length bytes.now → 0 < result }
        ensures filling { IsFilling self.new }
        ensures all { length self.new < octets_of_text self.new → result ≡ length bytes.now }
    {
        self.begin_next();
        self.end = end_of(self.text.as_slice(), self.end, bytes);
        let taken = (self.end - self.text.len()).min(bytes.len());
        self.text.put(&bytes[..taken]);
        taken
    }
}

/// How many octets the packet has that begins with this front, and then these; it has so many where two stand there.
fn end_of(front: &[u8], end: usize, bytes: &[u8]) -> usize
    requires { 2 ≤ length front.now → end ≡ octets_of_text front.now }
    ensures { result ≡ octets_of_text (front.now ++ bytes.now) }
{
    match front {
        [] => text_len(bytes),
        [first] => header_text_len(*first, bytes.first().copied().unwrap_or(0)),
        _ => end,
    }
}
