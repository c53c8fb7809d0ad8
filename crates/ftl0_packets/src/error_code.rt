//! The error codes of FTL0 (FTL0 1990, error codes).

ghost use Rattle.std.specs.Prelude.{◌≡◌, ◌≢◌, ◌==◌, IfNone, IfSome};
ghost use Rattle.ftl0_packets.specs.ErrorCodes.{octet_of};
ghost use Rattle.ftl0_packets.specs.declared.error_code.ErrorCode.{ErrorCode};

/// Why a packet or a file is refused: what the octet of UL_ERROR_RESP, UL_NAK_RESP and DL_ERROR_RESP says. A variant is
/// the standard's name, and its number is that octet. A peer may say any other octet.
#[derive(Clone, Copy, Debug, PartialEq, Eq)]
pub enum ErrorCode {
    /// 1, ER_ILL_FORMED_CMD: the packet is ill-formed or has no place in the state, or brings more octets than the file
    /// has.
    IllFormedCmd = 1,
    /// 2, ER_BAD_CONTINUE: the file that is to be continued is another caller's or has another length, or the offset to
    /// send from is above the file's length.
    BadContinue = 2,
    /// 3, ER_SERVER_FSYS: the server's disk failed.
    ServerFsys = 3,
    /// 4, ER_NO_SUCH_FILE_NUMBER: there is no file of the number.
    NoSuchFileNumber = 4,
    /// 5, which a client reads as `SelectionEmpty` while it lists. A server says `SelectionEmpty`.
    AlsoSelectionEmpty = 5,
    /// 6, ER_MANDATORY_FIELD_MISSING: an item that each file header has is missing.
    MandatoryFieldMissing = 6,
    /// 7, ER_NO_PFH: the file has no file header.
    NoPfh = 7,
    /// 8, ER_POORLY_FORMED_SEL: the selection is ill-formed.
    PoorlyFormedSel = 8,
    /// 9, ER_ALREADY_LOCKED: the file's destination is locked already.
    AlreadyLocked = 9,
    /// 10, ER_NO_SUCH_DESTINATION: no lock is granted.
    NoSuchDestination = 10,
    /// 11, ER_SELECTION_EMPTY: nothing is left in the selection.
    SelectionEmpty = 11,
    /// 12, ER_FILE_COMPLETE: the file that is to be continued is complete already.
    FileComplete = 12,
    /// 13, ER_NO_ROOM: the file is too long, or there is no room for it.
    NoRoom = 13,
    /// 14, ER_BAD_HEADER: the file's header is bad.
    BadHeader = 14,
    /// 15, ER_HEADER_CHECK: the header's checksum is wrong.
    HeaderCheck = 15,
    /// 16, ER_BODY_CHECK: the body's checksum is wrong, or the file ended before its last octet.
    BodyCheck = 16,
}

impl ErrorCode {
    /// The octet that says it, 1 to 16. Takes no memory.
    pub fn code(self) -> u8
        ensures { result ≡ octet_of self }
    {
        self as u8
    }

    /// Whether an octet that was heard says it. Takes no memory.
    pub fn is(self, octet: u8) -> bool
        ensures { result ≡ (octet == octet_of self) }
    {
        octet == self.code()
    }

    /// What an octet that was heard says; `None` where no code has it, and the octet is all that is known. Takes no
    /// memory.
    pub fn of(octet: u8) -> Option<ErrorCode>
        ensures known { IfSome result (λ error. octet_of error ≡ octet) }
        ensures unknown { IfNone result ((error : ErrorCode) → octet_of error ≢ octet) }
    {
        let error = match octet {
            1 => ErrorCode::IllFormedCmd,
            2 => ErrorCode::BadContinue,
            3 => ErrorCode::ServerFsys,
            4 => ErrorCode::NoSuchFileNumber,
            5 => ErrorCode::AlsoSelectionEmpty,
            6 => ErrorCode::MandatoryFieldMissing,
            7 => ErrorCode::NoPfh,
            8 => ErrorCode::PoorlyFormedSel,
            9 => ErrorCode::AlreadyLocked,
            10 => ErrorCode::NoSuchDestination,
            11 => ErrorCode::SelectionEmpty,
            12 => ErrorCode::FileComplete,
            13 => ErrorCode::NoRoom,
            14 => ErrorCode::BadHeader,
            15 => ErrorCode::HeaderCheck,
            16 => ErrorCode::BodyCheck,
            _ => return None,
        };
        Some(error)
    }
}
