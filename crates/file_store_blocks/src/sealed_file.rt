//! A file that is sealed.

use crate::{FileBlocks, Stamp};

/// A file that is sealed, as it is kept: its blocks hold the octets as they were uploaded, and it is seen with its
/// stamp.
#[derive(Clone, Copy, Debug, PartialEq, Eq)]
pub struct SealedFile {
    /// Where its octets are.
    pub blocks: FileBlocks,
    /// What it is stamped with.
    pub stamp: Stamp,
    /// The sum of its header with the stamp.
    pub sum: u16,
    /// The length of its header in octets.
    pub header_len: u16,
}
