//! What a store may take.

/// The longest file, in octets.
pub const LONGEST_FILE: u32 = 4_194_304;

/// The most entries.
pub const MOST_ENTRIES: usize = 1_024;

/// The number after which none is given, which is itself never given.
pub const LAST_NEXT: u32 = u32::MAX;
