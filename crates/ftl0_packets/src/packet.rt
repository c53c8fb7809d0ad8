//! The packets of FTL0 (FTL0 1990, packet types).

ghost use Rattle.std.specs.Prelude.{◌≡◌, ◌<◌};

use thiserror::Error;

/// A packet, its fields by name. Octets are borrowed from where the packet was read, or is to be written from.
#[derive(Clone, Copy, Debug, PartialEq, Eq)]
pub enum Packet<'a> {
    /// Type 0, DATA: 0 to 2,047 octets of a file.
    DataPart(&'a [u8]),
    /// Type 1, DATA_END: the file has ended.
    DataEnd,
    /// Type 2, LOGIN_RESP: the server's time in seconds since 1 January 1970, and its flags.
    LoginResp { moment: u32, flags: u8 },
    /// Type 3, UPLOAD_CMD: the number to continue, 0 for a new file, and the file's length in octets.
    UploadCmd { number: u32, length: u32 },
    /// Type 4, UL_GO_RESP: the file's number, and the place in octets to send from.
    UlGoResp { number: u32, offset: u32 },
    /// Type 5, UL_ERROR_RESP: the octet of an [`crate::ErrorCode`], or another.
    UlErrorResp(u8),
    /// Type 6, UL_ACK_RESP: the file is kept.
    UlAckResp,
    /// Type 7, UL_NAK_RESP: the octet of an [`crate::ErrorCode`], or another.
    UlNakResp(u8),
    /// Type 8, DOWNLOAD_CMD: the file's number, 0 for the next of the selection, the place in octets to send from, and
    /// whether the destination is to be locked.
    DownloadCmd { number: u32, offset: u32, lock: u8 },
    /// Type 9, DL_ERROR_RESP: the octet of an [`crate::ErrorCode`], or another.
    DlErrorResp(u8),
    /// Type 10, DL_ABORTED_RESP.
    DlAbortedResp,
    /// Type 11, DL_COMPLETED_RESP.
    DlCompletedResp,
    /// Type 12, DL_ACK_CMD.
    DlAckCmd,
    /// Type 13, DL_NAK_CMD.
    DlNakCmd,
    /// Type 14, DIR_SHORT_CMD: the file's number, 0 for the next of the selection.
    DirShortCmd(u32),
    /// Type 15, DIR_LONG_CMD: the file's number, 0 for the next of the selection.
    DirLongCmd(u32),
    /// Type 16, SELECT_CMD: 0 to 2,047 octets of selection tokens.
    SelectCmd(&'a [u8]),
    /// Type 17, SELECT_RESP: how many files the selection holds of.
    SelectResp(u16),
}

impl Packet<'_> {
    ghost use Rattle.ftl0_packets.specs.Layout.{kind_of};
    ghost use Rattle.ftl0_packets.specs.Values.{value_of};

    /// The packet's type, 0 to 17. Takes no memory.
    pub fn kind(&self) -> u8
        ensures kind { result ≡ kind_of (value_of self.now) }
        ensures bound { result < 18 }
    {
        match self {
            Packet::DataPart(_) => 0,
            Packet::DataEnd => 1,
            Packet::LoginResp { .. } => 2,
            Packet::UploadCmd { .. } => 3,
            Packet::UlGoResp { .. } => 4,
            Packet::UlErrorResp(_) => 5,
            Packet::UlAckResp => 6,
            Packet::UlNakResp(_) => 7,
            Packet::DownloadCmd { .. } => 8,
            Packet::DlErrorResp(_) => 9,
            Packet::DlAbortedResp => 10,
            Packet::DlCompletedResp => 11,
            Packet::DlAckCmd => 12,
            Packet::DlNakCmd => 13,
            Packet::DirShortCmd(_) => 14,
            Packet::DirLongCmd(_) => 15,
            Packet::SelectCmd(_) => 16,
            Packet::SelectResp(_) => 17,
        }
    }
}

/// A packet of a type above 17, or of a length that its type doesn't have.
#[derive(Clone, Copy, Debug, PartialEq, Eq, Error)]
#[error("a packet of type {kind} with {len} octets of information is malformed")]
pub struct Malformed {
    /// The type, 0 to 31.
    pub kind: u8,
    /// The length of the information in octets, 0 to 2,047.
    pub len: u16,
}
