//! Packets as octets (FTL0 1990, packet format).

ghost use Rattle.std.specs.Prelude.{◌≡◌, ◌≢◌, ◌+◌, ◌≤◌, ◌<◌, ◌++◌, ◌∷◌, [], length};
ghost use Rattle.px_base.specs.Numbers.{le16_octets, le32_octets};
ghost use Rattle.ftl0_packets.specs.Layout.{header, information, kind_of as type_of, packet_text};
ghost use Rattle.ftl0_packets.specs.Values.{value_of};

use crate::Packet;
use arrayvec::ArrayVec;
use byteorder::{ByteOrder, LittleEndian};

/// Writes a packet's octets in place of what `out` holds, which has room for them. DATA and SELECT_CMD have at most 2,047
/// octets of information. Takes no memory.
pub fn write_packet<const N: usize>(packet: &Packet<'_>, out: &mut ArrayVec<u8, N>)
    requires information { length (information (value_of packet.now)) < 2048 }
    requires room { length (packet_text (value_of packet.now)) ≤ N }
    ensures text { out.new.items ≡ packet_text (value_of packet.now) }
    // Only DATA and SELECT_CMD have more than 11 octets.
    ensures short { type_of (value_of packet.now) ≢ 0 → type_of (value_of packet.now) ≢ 16 → length out.new.items ≤ 11 }
{
    out.clear();
    put_header(out, packet.kind(), information_len(packet));
    put_information(out, packet);
}

/// How many octets of information the packet has.
fn information_len(packet: &Packet<'_>) -> usize
    ensures { result ≡ length (information (value_of packet.now)) }
{
    match packet {
        Packet::DataPart(octets) | Packet::SelectCmd(octets) => octets.len(),
        Packet::LoginResp { .. } => 5,
        Packet::UploadCmd { .. } | Packet::UlGoResp { .. } => 8,
        Packet::DownloadCmd { .. } => 9,
        Packet::UlErrorResp(_) | Packet::UlNakResp(_) | Packet::DlErrorResp(_) => 1,
        Packet::DirShortCmd(_) | Packet::DirLongCmd(_) => 4,
        Packet::SelectResp(_) => 2,
        Packet::DataEnd
        | Packet::UlAckResp
        | Packet::DlAbortedResp
        | Packet::DlCompletedResp
        | Packet::DlAckCmd
        | Packet::DlNakCmd => 0,
    }
}

/// Puts the two octets of header at the end.
fn put_header<const N: usize>(out: &mut ArrayVec<u8, N>, kind: u8, len: usize)
    requires kind { kind < 32 }
    requires len { len < 2048 }
    requires room { length out.old.items + 2 ≤ N }
    ensures { out.new.items ≡ out.old.items ++ header kind len }
{
    let octets = [(len % 256) as u8, (32 * (len / 256)) as u8 + kind];
    put_octets(out, &octets);
}

/// Puts the packet's information at the end.
fn put_information<const N: usize>(out: &mut ArrayVec<u8, N>, packet: &Packet<'_>)
    requires { length out.old.items + length (information (value_of packet.now)) ≤ N }
    ensures { out.new.items ≡ out.old.items ++ information (value_of packet.now) }
{
    match *packet {
        Packet::DataPart(octets) | Packet::SelectCmd(octets) => put_octets(out, octets),
        Packet::LoginResp { moment, flags } => {
            put_number(out, moment);
            out.push(flags);
        }
        Packet::UploadCmd { number, length } => {
            put_number(out, number);
            put_number(out, length);
        }
        Packet::UlGoResp { number, offset } => {
            put_number(out, number);
            put_number(out, offset);
        }
        Packet::DownloadCmd {
            number,
            offset,
            lock,
        } => {
            put_number(out, number);
            put_number(out, offset);
            out.push(lock);
        }
        Packet::UlErrorResp(code) | Packet::UlNakResp(code) | Packet::DlErrorResp(code) => {
            out.push(code);
        }
        Packet::DirShortCmd(number) | Packet::DirLongCmd(number) => put_number(out, number),
        Packet::SelectResp(count) => {
            let mut octets = [0; 2];
            LittleEndian::write_u16(&mut octets, count);
            put_octets(out, &octets);
        }
        Packet::DataEnd
        | Packet::UlAckResp
        | Packet::DlAbortedResp
        | Packet::DlCompletedResp
        | Packet::DlAckCmd
        | Packet::DlNakCmd => {}
    }
}

/// Puts the four octets of a number at the end, least significant first.
fn put_number<const N: usize>(out: &mut ArrayVec<u8, N>, number: u32)
    requires { length out.old.items + 4 ≤ N }
    ensures { out.new.items ≡ out.old.items ++ le32_octets number }
{
    let mut octets = [0; 4];
    LittleEndian::write_u32(&mut octets, number);
    put_octets(out, &octets);
}

/// Puts octets at the end.
fn put_octets<const N: usize>(out: &mut ArrayVec<u8, N>, octets: &[u8])
    requires { length out.old.items + length octets.now ≤ N }
    ensures { out.new.items ≡ out.old.items ++ octets.now }
{
    out.try_extend_from_slice(octets).unwrap();
}
