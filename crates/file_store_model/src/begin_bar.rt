//! Why a file can't be begun.

/// Why a file can't be begun, in the order in which the causes are looked for.
#[derive(Clone, Copy, Debug, PartialEq, Eq)]
pub enum BeginBar {
    /// The length is above 4,194,304 octets.
    TooLong,
    /// There are 1,024 entries.
    TooMany,
    /// The next number is 4,294,967,295, and so no number is left.
    NumbersGone,
    /// The file takes more blocks of 512 octets than are free.
    NoRoom {
        /// How many blocks the file takes.
        blocks: u32,
        /// How many blocks are free.
        free: u32,
    },
}
