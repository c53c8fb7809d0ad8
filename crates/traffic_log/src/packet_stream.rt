//! The packets of a link in one direction.

use ftl0_packets::{Packet, PacketFed, PacketReader};

/// The packets in the I frames of one end of a link, in order. A frame that is sent again is ignored (AX.25 2.0,
/// 2.4.4).
#[derive(Drop)]
pub(crate) struct PacketStream {
    /// The send sequence number of the next I frame, 0 to 7.
    next: u8,
    reader: PacketReader,
}

impl PacketStream {
    /// Before the first I frame.
    pub(crate) fn new() -> PacketStream {
        PacketStream {
            next: 0,
            reader: PacketReader::new(),
        }
    }

    /// Whether the I frame with this send sequence number is the next one, which another is then.
    pub(crate) fn takes(&mut self, ns: u8) -> bool {
        if ns != self.next {
            return false;
        }
        self.next = (self.next % 8 + 1) % 8;
        true
    }

    /// Takes an octet, and gives the packet that it ends, if it ends one that isn't malformed.
    pub(crate) fn feed(&mut self, octet: u8) -> Option<Packet<'_>> {
        let (_, fed) = self.reader.feed(&[octet]);
        match fed {
            PacketFed::More => None,
            PacketFed::Whole => self.reader.packet().ok(),
        }
    }
}
