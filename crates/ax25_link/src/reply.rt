//! The pending frames other than I frames: replies, the timer's frames, and the last frame of an end that hangs up.

ghost use Rattle.std.specs.Prelude.{◌≡◌, ◌+◌, ◌*◌, ◌<◌, [], ◌∷◌};
ghost use Rattle.std.specs.Option.{option_map};
ghost use Rattle.ax25_frames.specs.Kinds.{bit};
ghost use Rattle.ax25_link.specs.Replies.{reply_value};
ghost use Rattle.ax25_link.specs.Rows.{unless_oldest};

/// A reply to a frame, or what the timer sends (AX.25 2.0, 2.4.4, 2.4.7.1). It goes out before all other frames.
#[derive(Clone, Copy)]
pub(crate) enum Reply {
    /// RR, a response.
    Ready {
        /// The F bit.
        poll: bool,
    },
    /// REJ, a response.
    Reject {
        /// The F bit.
        poll: bool,
    },
    /// UA.
    Accept {
        /// The F bit.
        poll: bool,
    },
    /// DM.
    Refuse {
        /// The F bit.
        poll: bool,
    },
    /// FRMR, with its information.
    FrameReject {
        /// The three octets (2.3.4.3.3).
        octets: [u8; 3],
        /// The F bit.
        poll: bool,
    },
    /// SABM with P = 1.
    Call,
    /// DISC with P = 1.
    Disconnect,
    /// The oldest outstanding I frame, with P = 1.
    Oldest,
    /// RR, a command with P = 1.
    Enquiry,
}

/// The last frame of an end that hangs up. It goes out after all other frames.
#[derive(Clone, Copy)]
pub(crate) enum Farewell {
    /// DISC with P = 1 (2.4.3.3).
    Disconnect,
    /// DM with F = 0 (2.3.4.3.5).
    Refuse,
}

/// What is to be sent first, unless it is an I frame.
pub(crate) fn without_information(reply: Option<Reply>) -> Option<Reply>
    ensures { option_map reply_value result ≡ unless_oldest (option_map reply_value reply) }
{
    match reply {
        Some(Reply::Oldest) => None,
        other => other,
    }
}

/// The third octet of FRMR if N(R) is bad: bit Z (2.3.4.3.3).
const BAD_NR: u8 = 0x08;

/// The information of the FRMR that refuses a frame for its N(R): its control octet, V(S), whether it was a
/// response, V(R), and why (2.3.4.3.3).
pub(crate) fn reject_octets(control: u8, sent: u8, response: bool, taken: u8) -> [u8; 3]
    requires sent { sent < 8 }
    requires taken { taken < 8 }
    ensures { result ≡ control ∷ (2 * sent + 16 * bit response + 32 * taken) ∷ 0x08 ∷ [] }
{
    [
        control,
        2 * sent + 16 * u8::from(response) + 32 * taken,
        BAD_NR,
    ]
}
