//! What is told of a file that was got.

use px_base::{Call, FileNumber};

/// A file of which octets were got, without these.
#[derive(Clone, Copy, Debug, PartialEq, Eq)]
pub struct Got {
    /// The server from which they came.
    pub server: Call,
    /// The number of the file there.
    pub number: FileNumber,
    /// How many octets were got, at most 4,194,304.
    pub length: u32,
}
