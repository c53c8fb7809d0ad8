//! How far a task has come.

/// How far a task has come.
#[derive(Clone, Copy, Debug, PartialEq, Eq)]
pub enum Progress {
    /// It is unfinished.
    Going,
    /// The server acknowledged the file.
    Acked,
    /// The server refused the file.
    Refused {
        /// The server's code (FTL0 1990, error codes).
        code: u8,
    },
}
