//! How a node's turns finish.

/// How a node's turns finished.
#[derive(Clone, Copy, Debug, PartialEq, Eq)]
pub enum Finished {
    /// The party was over after so many turns, and no further one was taken.
    Over(u64),
    /// The end of the air was read, in this turn, counted from 1.
    Closed(u64),
}
