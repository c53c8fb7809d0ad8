//! What a store reports about an entry.

use px_base::{Call, FileNumber, Moment};

/// What a store reports about an entry.
#[derive(Clone, Copy, Debug)]
pub struct Info {
    /// The number of the file, 1 to 4,294,967,294.
    pub number: FileNumber,
    /// Whose file it is.
    pub caller: Call,
    /// The length of the file in octets.
    pub length: u32,
    /// How many octets are held: all of them if the file is complete.
    pub held: u32,
    /// Whether the file is complete.
    pub complete: bool,
    /// The moment in which the file was begun.
    pub begun: Moment,
}
