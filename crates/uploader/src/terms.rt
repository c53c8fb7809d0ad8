//! With what a client's command is carried out, and what it gives.

use px_base::{Call, FileNumber};

/// With what a client's command is carried out.
#[derive(Clone, Copy)]
pub struct ClientTerms {
    /// The server's call.
    pub server: Call,
    /// The client's own call.
    pub me: Call,
    /// How many I frames may be outstanding on the link: 1 to 7.
    pub k: u8,
    /// How many polls may be made.
    pub polls: u64,
}

/// A file was sent: the server acknowledged it, now or before.
#[derive(Clone, Copy, Debug, PartialEq, Eq)]
pub struct Sent {
    /// Its number on the server.
    pub number: FileNumber,
}
