//! What a job may hold.

/// The most octets of a listing: 1,024 short headers.
pub const LONGEST_LISTING: usize = 74_752;

/// How many octets a DATA has at most.
pub(crate) const MOST_DATA: usize = 254;
