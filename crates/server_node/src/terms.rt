//! What a session and a server are served with, and their end.

use file_store::Limits;
use px_base::{Call, Moment};

/// A session or a server came to the end of the air.
#[derive(Clone, Copy, Debug, PartialEq, Eq)]
pub struct Served {
    /// How many polls were made, the one that found the end included.
    pub turns: u64,
}

/// What a session is served with.
#[derive(Clone, Copy)]
pub struct SessionTerms {
    /// Whose session it is.
    pub caller: Call,
    /// The moment of each turn; where none is given each turn takes one of the clock.
    pub moment: Option<Moment>,
    /// What the store may take, where its disk is formatted.
    pub limits: Limits,
    /// How many polls may be made.
    pub polls: u64,
}

/// What a server is served with.
#[derive(Clone, Copy)]
pub struct ServerTerms {
    /// The server's call.
    pub me: Call,
    /// How many I frames may be outstanding on each link: 1 to 7.
    pub k: u8,
    /// What the store may take, where its disk is formatted.
    pub limits: Limits,
    /// How many polls may be made.
    pub polls: u64,
}
