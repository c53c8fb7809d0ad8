//! The control octet (AX.25 2.0, 2.3).

ghost use Rattle.std.specs.Prelude.{◌≡◌, ◌%◌, IfSome, IfNone};
ghost use Rattle.ax25_frames.specs.Kinds.{FitsControl, IsNoControl, SaysControl, control_octet, poll_bit as bit_of_poll};

/// What a control octet says beside the P/F bit: a kind of frame, and its sequence numbers, 0 to 7. Contracts name a
/// kind of frame by it.
#[derive(Clone, Copy)]
pub enum Control {
    /// Information (2.3.4.1).
    I {
        /// The send sequence number N(S).
        ns: u8,
        /// The receive sequence number N(R).
        nr: u8,
    },
    /// Receive ready (2.3.4.2.1).
    Rr {
        /// The receive sequence number N(R).
        nr: u8,
    },
    /// Receive not ready (2.3.4.2.2).
    Rnr {
        /// The receive sequence number N(R).
        nr: u8,
    },
    /// Reject (2.3.4.2.3).
    Rej {
        /// The receive sequence number N(R).
        nr: u8,
    },
    /// Set asynchronous balanced mode (2.3.4.3.1).
    Sabm,
    /// Disconnect (2.3.4.3.2).
    Disc,
    /// Disconnected mode (2.3.4.3.5).
    Dm,
    /// Unnumbered acknowledge (2.3.4.3.4).
    Ua,
    /// Frame reject (2.3.4.3.3).
    Frmr,
    /// Unnumbered information (2.3.4.3.6).
    Ui,
}

/// The P/F bit of a control octet (2.3.3).
pub(crate) fn poll_bit(octet: u8) -> bool
    ensures { result ≡ bit_of_poll octet }
{
    octet / 16 % 2 == 1
}

/// What a control octet says, if it is of a kind of frame (2.3.2).
pub(crate) fn read_control(octet: u8) -> Option<Control>
    ensures some { IfSome result (SaysControl octet) }
    ensures none { IfNone result (IsNoControl octet) }
{
    if octet % 2 == 0 {
        return Some(Control::I {
            ns: octet / 2 % 8,
            nr: octet / 32,
        });
    }
    if octet % 4 == 1 {
        return read_supervisory(octet);
    }
    read_unnumbered(octet)
}

/// What the control octet of an S frame says (2.3.4.2).
fn read_supervisory(octet: u8) -> Option<Control>
    requires { octet % 4 ≡ 1 }
    ensures some { IfSome result (SaysControl octet) }
    ensures none { IfNone result (IsNoControl octet) }
{
    let nr = octet / 32;
    match octet / 4 % 4 {
        0 => Some(Control::Rr { nr }),
        1 => Some(Control::Rnr { nr }),
        2 => Some(Control::Rej { nr }),
        _ => None,
    }
}

/// What the control octet of a U frame says (2.3.4.3).
fn read_unnumbered(octet: u8) -> Option<Control>
    requires { octet % 4 ≡ 3 }
    ensures some { IfSome result (SaysControl octet) }
    ensures none { IfNone result (IsNoControl octet) }
{
    let without_poll = octet - 16 * (octet / 16 % 2);
    match without_poll {
        0x2F => Some(Control::Sabm),
        0x43 => Some(Control::Disc),
        0x0F => Some(Control::Dm),
        0x63 => Some(Control::Ua),
        0x87 => Some(Control::Frmr),
        0x03 => Some(Control::Ui),
        _ => None,
    }
}

/// The control octet of this kind with this P/F bit.
pub(crate) fn octet_of(control: Control, poll: bool) -> u8
    requires { FitsControl control }
    ensures { result ≡ control_octet control poll }
{
    let base = match control {
        Control::I { ns, nr } => 2 * ns + 32 * nr,
        Control::Rr { nr } => 0x01 + 32 * nr,
        Control::Rnr { nr } => 0x05 + 32 * nr,
        Control::Rej { nr } => 0x09 + 32 * nr,
        Control::Sabm => 0x2F,
        Control::Disc => 0x43,
        Control::Dm => 0x0F,
        Control::Ua => 0x63,
        Control::Frmr => 0x87,
        Control::Ui => 0x03,
    };
    base + 16 * u8::from(poll)
}
