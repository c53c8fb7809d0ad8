//! What a file is stamped with.

use px_base::{Call, FileNumber, Moment};

/// What a server puts into the header of a file that it seals.
#[derive(Clone, Copy, Debug, PartialEq, Eq)]
pub struct Stamp {
    /// The number of the file.
    pub number: FileNumber,
    /// The call of the station that uploaded it.
    pub by: Call,
    /// The moment of its seal.
    pub moment: Moment,
}
