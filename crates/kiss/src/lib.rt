//! KISS both ways: the frames on a modem's serial line.
//!
//! The standard is "The KISS TNC: A simple Host-to-TNC communications protocol" (Chepponis and
//! Karn, 1987); its sections go by their titles. Only data on port 0 is taken. A frame has at most
//! [`MOST_OCTETS`] octets after its type octet, and a part with an ill escape is dropped whole.
//! `specs/KissText.antt` says what the parts of a list of octets are.
#![tactic(auto)]

pub mod laws;
mod octets;
mod reader;
mod whole;
mod writer;

pub use octets::MOST_OCTETS;
pub use reader::{KissFed, KissReader};
pub use whole::{Part, parts, parts_of_pieces};
pub use writer::{TooLong, write_frame};
