//! AX.25 frames as octets, both ways (AX.25 2.0, section 2): a frame is its address field, a control octet, a PID octet
//! where its kind has one, and its information. The flags and the frame check sequence are the modem's.
#![tactic(auto)]

mod address;
mod control;
mod frame;
pub mod laws;
mod reader;
mod writer;

pub use control::Control;
pub use frame::{Frame, FrameFault, Kind};
pub use reader::read_frame;
pub use writer::write_frame;
