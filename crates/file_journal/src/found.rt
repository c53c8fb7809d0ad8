//! What a look at a disk finds.

use crate::Journal;

/// What of the formatting of a disk is left to be done.
#[derive(Clone, Copy, Debug, PartialEq, Eq)]
pub enum Owed {
    /// Nothing: the store is formatted.
    Nothing,
    /// All of it: the disk has at most 16 octets.
    Formatting,
    /// What comes behind the header, whose selector this is: the formatting was interrupted.
    Gates(u8),
}

/// A journal as the octets of a disk have it, at its first gate, and what is owed to their formatting. Where that is
/// nothing, its records can be read.
#[derive(Debug, Drop)]
pub struct Found {
    /// The journal.
    pub journal: Journal,
    /// What is left to be done before it is used.
    pub owed: Owed,
}
