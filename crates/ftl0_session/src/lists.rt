//! The selections of a server's callers (FTL0 1990, SELECT_CMD): which numbers are left in whose list.
//!
//! There is at most one list of a call, and at most 64 lists, in the order in which they were set. A caller's new list
//! replaces its old one and goes last; with more than 64 the first one goes. A list that is empty or used up stays
//! where it is, and counts. All memory is taken at the start.

pub mod laws;
mod limits;
mod lists;
mod stored_list;

pub use limits::{MOST_LISTS, MOST_NUMBERS};
pub use lists::Lists;
