//! What a packet of uploading asks of a session.

ghost use Rattle.std.specs.Prelude.{◌≡◌, true, Ok};
ghost use Rattle.ftl0_packets.specs.Items.{kind_of_item};
ghost use Rattle.ftl0_packets.specs.Values.{item_of, value_of};
ghost use Rattle.ftl0_session.specs.Uploads.Asked.{IsAsked};
ghost use Rattle.ftl0_session.specs.Uploads.Session.{is_upload_kind};

use ftl0_packets::{Malformed, Packet};

/// What a packet of uploading asks of the session.
#[derive(Clone, Copy)]
pub(crate) enum Asked<'a> {
    /// UPLOAD_CMD: a file of this length, new if the number is 0.
    Upload { number: u32, length: u32 },
    /// DATA: these octets.
    Part(&'a [u8]),
    /// DATA_END.
    End,
    /// One of these, malformed.
    Malformed,
}

impl<'a> Asked<'a> {
    /// What this packet asks, which is of uploading.
    pub(crate) fn of(packet: Result<Packet<'a>, Malformed>) -> Asked<'a>
        requires { is_upload_kind (kind_of_item (item_of packet)) ≡ true }
        ensures { IsAsked (item_of packet.entry) result }
    {
        match packet {
            Ok(packet) => Asked::of_packet(packet),
            Err(_malformed) => Asked::Malformed,
        }
    }

    /// What this packet asks, which is of uploading and isn't malformed.
    fn of_packet(packet: Packet<'a>) -> Asked<'a>
        requires { is_upload_kind (kind_of_item (Ok (value_of packet))) ≡ true }
        ensures { IsAsked (Ok (value_of packet.entry)) result }
    {
        match packet {
            Packet::UploadCmd { number, length } => Asked::Upload { number, length },
            Packet::DataPart(octets) => Asked::Part(octets),
            Packet::DataEnd => Asked::End,
            _ => unreachable!(),
        }
    }
}
