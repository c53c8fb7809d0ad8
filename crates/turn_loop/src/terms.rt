//! What a node's turns are taken by.

use px_base::Moment;

/// What a node's turns are taken by.
#[derive(Clone, Copy)]
pub struct TurnTerms {
    /// How many polls may be made.
    pub polls: u64,
    /// The moment of each turn; without it the clock is asked.
    pub given: Option<Moment>,
    /// The first turn's moment, where it was taken before.
    pub first: Option<Moment>,
}
