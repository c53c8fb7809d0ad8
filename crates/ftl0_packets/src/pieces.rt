//! A whole run of the reader, over pieces.

ghost use Rattle.std.specs.Prelude.{◌≡◌, ◌++◌, [], ℕ, List, flat_map};
ghost use Rattle.px_base.specs.Octets.{IsOctets};
ghost use Rattle.ftl0_packets.specs.Layout.{Item};
ghost use Rattle.ftl0_packets.specs.Pieces.{TakesAll};
ghost use Rattle.ftl0_packets.specs.Reading.{IsLeft, packets_of, rest_of, under_way};
ghost use Rattle.ftl0_packets.specs.Stream.{Stream};
ghost use Rattle.ftl0_packets.specs.Values.{item_of};

use crate::{Malformed, Packet, PacketFed, PacketReader};
use px_base::FileBytes;

/// What takes the packets that a reader gives, one after another.
pub trait PacketSink {
    /// What taking a packet, or a malformed one, may make of the sink.
    ghost takes: { Self → Item → Self → Type 0 };

    /// Takes the next packet, or a malformed one.
    fn take(&mut self, packet: Result<Packet<'_>, Malformed>)
        ensures { takes self.old (item_of packet.entry) self.new };
}

/// Hands the packets of octets that come in these pieces to the sink, and gives the reader, in which the rest is under
/// way. The packets and the rest are those of the stream of all pieces joined, wherever they are cut. Takes no memory.
pub fn feed_pieces<S: PacketSink>(pieces: &[FileBytes], sink: &mut S) -> PacketReader
    ensures { (items : List Item) × Stream (flat_map (λ piece. piece) pieces.now) items (under_way result)
        × TakesAll S.takes sink.old items sink.new }
{
    let mut reader = PacketReader::new();
    for piece in pieces {
        feed_piece(&mut reader, piece.as_slice(), sink);
    }
    reader
}

/// Hands the packets that end in the piece to the sink.
fn feed_piece<S: PacketSink>(reader: &mut PacketReader, piece: &[u8], sink: &mut S)
    // Whatever comes later and what it makes of the sink then, all packets together make that of the sink as it was.
    ensures packets { (later : List ℕ) (end : S) →
        TakesAll S.takes sink.new (packets_of (under_way reader.new ++ later)) end
        → TakesAll S.takes sink.old (packets_of (under_way reader.old ++ (piece.now ++ later))) end }
    ensures rest { (later : List ℕ) → rest_of (under_way reader.new ++ later)
        ≡ rest_of (under_way reader.old ++ (piece.now ++ later)) }
    ensures none { packets_of (under_way reader.old) ≡ [] → packets_of (under_way reader.new) ≡ [] }
    ensures left { IsLeft (under_way reader.old) → IsLeft (under_way reader.new) }
    ensures octets { IsOctets piece.now }
{
    let mut octets = piece;
    while !octets.is_empty() {
        let (taken, fed) = reader.feed(octets);
        octets = octets.split_at(taken).1;
        match fed {
            PacketFed::More => {}
            PacketFed::Whole => sink.take(reader.packet()),
        }
    }
}
