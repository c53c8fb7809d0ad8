//! A frame, and the faults of octets that are no frame.

use px_base::Call;
use thiserror::Error;

/// A frame (AX.25 2.0, section 2). Its octets are lent: nothing is copied out of them but the three of FRMR.
#[derive(Clone, Copy, Debug, PartialEq, Eq)]
pub struct Frame<'a> {
    /// The destination (2.2.13.1.1).
    pub dest: Call,
    /// The source (2.2.13.1.2).
    pub src: Call,
    /// How many repeater entries follow the source, 0 to 8 (2.2.13.2).
    pub via: u8,
    /// The kind of frame, with its fields (2.3).
    pub kind: Kind<'a>,
    /// The P/F bit (2.3.3).
    pub poll: bool,
    /// Whether the frame is a command: the C bit of the destination (2.4.1.2).
    pub command: bool,
}

/// The kinds of frames (AX.25 2.0, 2.3).
#[derive(Clone, Copy, Debug, PartialEq, Eq)]
pub enum Kind<'a> {
    /// Information, numbered (2.3.4.1).
    I {
        /// The send sequence number N(S), 0 to 7.
        ns: u8,
        /// The receive sequence number N(R), 0 to 7.
        nr: u8,
        /// The protocol identifier (2.2.4).
        pid: u8,
        /// At most 256 octets.
        info: &'a [u8],
    },
    /// Receive ready (2.3.4.2.1).
    Rr {
        /// The receive sequence number N(R), 0 to 7.
        nr: u8,
    },
    /// Receive not ready (2.3.4.2.2).
    Rnr {
        /// The receive sequence number N(R), 0 to 7.
        nr: u8,
    },
    /// Reject (2.3.4.2.3).
    Rej {
        /// The receive sequence number N(R), 0 to 7.
        nr: u8,
    },
    /// Set asynchronous balanced mode (2.3.4.3.1).
    Sabm,
    /// Disconnect (2.3.4.3.2).
    Disc,
    /// Disconnected mode (2.3.4.3.5).
    Dm,
    /// Unnumbered acknowledge (2.3.4.3.4).
    Ua,
    /// Frame reject, with its information (2.3.4.3.3).
    Frmr([u8; 3]),
    /// Unnumbered information (2.3.4.3.6).
    Ui {
        /// The protocol identifier (2.2.4).
        pid: u8,
        /// At most 256 octets.
        info: &'a [u8],
    },
}

/// The first fault, from left to right, of octets that no frame has.
#[derive(Clone, Copy, Debug, PartialEq, Eq, Error)]
pub enum FrameFault {
    /// The octets end before an octet that the frame needs.
    #[error("the frame ends after {at} octets, before an octet that it needs")]
    Short {
        /// How many octets there are.
        at: usize,
    },
    /// An address entry can't be completed with this octet: a character octet whose bit 0 is set, a character that is
    /// no upper-case letter, digit or blank, a blank in the first place or before another character, or the end bit in
    /// the destination (2.2.13).
    #[error("the address field is ill at octet {at}")]
    BadAddress {
        /// The octet's place in the frame, from 0.
        at: usize,
    },
    /// Ten address entries stand without an end bit: more than destination, source and eight repeaters (2.2.13.2).
    #[error("more than eight repeaters")]
    TooManyAddresses,
    /// The control octet is of no kind (2.3.2).
    #[error("the control octet {octet:#04x} is of no kind of frame")]
    BadControl {
        /// The control octet.
        octet: u8,
    },
    /// The information is longer than the kind of frame allows: 256 octets in I and UI, 3 in FRMR, none in the others
    /// (2.3.4, 2.4.7.3).
    #[error("{len} octets of information are too many for the kind of frame")]
    LongInfo {
        /// The octets after the control octet and the PID.
        len: usize,
    },
}
