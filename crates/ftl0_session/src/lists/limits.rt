//! What the lists may hold.

/// The most lists that are kept.
pub const MOST_LISTS: usize = 64;

/// The most numbers of a list: as many as a store has entries.
pub const MOST_NUMBERS: usize = 1024;
