//! What becomes of a session at an event.

/// What becomes of a session at an event.
#[derive(Clone, Copy, Debug, PartialEq, Eq)]
pub enum Fate {
    /// It goes on.
    Stays,
    /// It is over: what is left is to be sent, and then the link is gone.
    Ends,
}
