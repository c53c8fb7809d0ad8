//! Laws of packets and their stream, each the contract of a function that does nothing.

ghost use Rattle.ftl0_packets.specs.Laws.{FrontLaw, IsReadAsStream, IsReadInParts};
ghost use Rattle.ftl0_packets.specs.Laws.{IsOneStream, IsOneText, IsReadAgain};

/// Any octets are a stream of packets and then less than a whole one, and in one way only.
pub fn stream_law()
    ensures read { IsReadAsStream }
    ensures only { IsOneStream }
{}

/// No packet's text begins another's, so a packet that was written is read again, whatever follows.
pub fn one_text_law()
    ensures text { IsOneText }
    ensures again { IsReadAgain }
{}

/// A front of the texts of packets is read as the first of them, and then as less than the next one; octets are read
/// alike all at once and in parts.
pub fn front_law()
    ensures front { FrontLaw }
    ensures parts { IsReadInParts }
{}
