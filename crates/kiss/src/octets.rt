//! The octets that KISS gives a meaning.

/// FEND, Frame End: stands before and after each frame ("Asynchronous Frame Format").
pub const FEND: u8 = 0xC0;

/// FESC, Frame Escape: begins an escape ("Transparency").
pub const FESC: u8 = 0xDB;

/// TFEND, Transposed Frame End: after FESC it stands for FEND ("Transparency").
pub const TFEND: u8 = 0xDC;

/// TFESC, Transposed Frame Escape: after FESC it stands for FESC ("Transparency").
pub const TFESC: u8 = 0xDD;

/// The type octet of data on port 0: the low four bits are the command, the high four the port
/// ("Control of the KISS TNC").
pub const DATA_ON_PORT_0: u8 = 0x00;

/// The most octets that a frame has after its type octet.
pub const MOST_OCTETS: usize = 400;
