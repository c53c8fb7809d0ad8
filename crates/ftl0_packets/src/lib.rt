//! FTL0 packets both ways (FTL0 1990, packet format).
//!
//! A packet is two octets of header and 0 to 2,047 octets of information. The first octet is the low eight bits of the
//! information's length; of the second, bits 7 to 5 are the length's upper three bits and bits 4 to 0 the packet's type.
//! Packets follow one another without a break. [`PacketReader`] takes them from octets that come in any pieces,
//! [`write_packet`] writes one.
#![tactic(auto)]

mod error_code;
pub mod laws;
mod packet;
mod pieces;
mod reader;
mod stream;
mod text;
mod writer;

pub use error_code::ErrorCode;
pub use packet::{Malformed, Packet};
pub use pieces::{PacketSink, feed_pieces};
pub use reader::{PacketFed, PacketReader};
pub use stream::packets;
pub use writer::write_packet;
