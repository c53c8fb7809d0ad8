//! What notes may hold.

/// The most tasks.
pub const MOST_TASKS: u32 = 65_536;

/// The longest got file, in octets.
pub const LONGEST_FILE: u32 = 4_194_304;

/// The longest name of a task, in octets.
pub const LONGEST_NAME: usize = 64;

/// The most octets that one Got brings.
pub const MOST_GOT: usize = 512;
