//! The octets of one packet, read (FTL0 1990, packet format).

ghost use Rattle.std.specs.Prelude.{◌≡◌, ◌+◌, ◌≤◌, ◌<◌, [], ◌∷◌, length, false, IfErr, IsErr, IsTrue, ◌↔◌};
ghost use Rattle.ftl0_packets.specs.Layout.{has_length as fits_type, PacketText};
ghost use Rattle.ftl0_packets.specs.Reading.{text_len as octets_of_text, is_whole as is_whole_text, is_malformed, item_from, malformed_in, packet_from, read_item};
ghost use Rattle.ftl0_packets.specs.Values.{item_of, value_of};

use crate::{Malformed, Packet};
use px_base::{le16, le32};

/// How many octets of header a packet has.
pub(crate) const HEADER_LEN: usize = 2;

/// How many octets a packet has at most.
pub(crate) const MOST_OCTETS: usize = 2_049;

/// How many octets the packet has that begins so, 2 to 2,049. An octet that isn't there yet counts as 0.
pub(crate) fn text_len(octets: &[u8]) -> usize
    ensures len { result ≡ octets_of_text octets.now }
    ensures bound { result ≤ 2049 }
{
    let low = octets.first().copied().unwrap_or(0);
    let high = octets.get(1).copied().unwrap_or(0);
    header_text_len(low, high)
}

/// How many octets the packet has with these two octets of header, 2 to 2,049.
pub(crate) fn header_text_len(low: u8, high: u8) -> usize
    ensures len { result ≡ octets_of_text (low ∷ high ∷ []) }
    ensures bound { result ≤ 2049 }
{
    HEADER_LEN + usize::from(low) + 256 * usize::from(high / 32)
}

/// What the octets of a whole packet say.
pub(crate) fn read_text(octets: &[u8]) -> Result<Packet<'_>, Malformed>
    requires { IsTrue (is_whole_text octets.now) }
    ensures item { item_of result ≡ read_item octets.now }
    ensures text { PacketText (item_of result) octets.now }
    ensures malformed { IsErr result ↔ IsTrue (is_malformed octets.now) }
    ensures fault { IfErr result (λ fault. fault ≡ malformed_in octets.now) }
{
    let (header, info) = octets.split_at(HEADER_LEN);
    read_information(header[1] % 32, info)
}

/// The packet of this type, 0 to 31, with this information, if the type has this length.
fn read_information(kind: u8, info: &[u8]) -> Result<Packet<'_>, Malformed>
    requires { length info.now < 2048 }
    ensures item { item_of result ≡ item_from kind info.now }
    ensures malformed { IsErr result ↔ (fits_type kind (length info.now) ≡ false) }
    ensures fault { IfErr result (λ fault. (fault.kind ≡ kind) × (fault.len ≡ length info.now)) }
{
    if has_length(kind, info.len()) {
        Ok(packet_of(kind, info))
    } else {
        Err(Malformed {
            kind,
            len: info.len() as u16,
        })
    }
}

/// Whether the type has information of this length, in octets. A type above 17 has none.
fn has_length(kind: u8, len: usize) -> bool
    ensures { result ≡ fits_type kind len }
{
    match kind {
        0 | 16 => len < 2048,
        1 | 6 | 10..=13 => len == 0,
        5 | 7 | 9 => len == 1,
        17 => len == 2,
        14 | 15 => len == 4,
        2 => len == 5,
        3 | 4 => len == 8,
        8 => len == 9,
        _ => false,
    }
}

/// The packet of this type with this information.
fn packet_of(kind: u8, info: &[u8]) -> Packet<'_>
    requires { IsTrue (fits_type kind (length info.now)) }
    ensures { value_of result ≡ packet_from kind info.now }
{
    match kind {
        0 => Packet::DataPart(info),
        1 => Packet::DataEnd,
        2 => Packet::LoginResp {
            moment: le32(info, 0),
            flags: info[4],
        },
        3 => Packet::UploadCmd {
            number: le32(info, 0),
            length: le32(info, 4),
        },
        4 => Packet::UlGoResp {
            number: le32(info, 0),
            offset: le32(info, 4),
        },
        5 => Packet::UlErrorResp(info[0]),
        6 => Packet::UlAckResp,
        7 => Packet::UlNakResp(info[0]),
        8 => Packet::DownloadCmd {
            number: le32(info, 0),
            offset: le32(info, 4),
            lock: info[8],
        },
        9 => Packet::DlErrorResp(info[0]),
        10 => Packet::DlAbortedResp,
        11 => Packet::DlCompletedResp,
        12 => Packet::DlAckCmd,
        13 => Packet::DlNakCmd,
        14 => Packet::DirShortCmd(le32(info, 0)),
        15 => Packet::DirLongCmd(le32(info, 0)),
        16 => Packet::SelectCmd(info),
        _ => Packet::SelectResp(le16(info, 0)),
    }
}
