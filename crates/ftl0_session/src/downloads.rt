//! Downloads, directories and selections of one session of the server (FTL0 1990, downloading, directories and
//! selections): the session's table from DOWNLOAD_CMD on, row by row, over a store of files and the lists of all
//! callers.
//!
//! [`Downloads::take`] takes a packet, and [`Downloads::fill`] gives what is to be sent next. No call takes memory,
//! and no file is copied whole: a DATA costs what is read for it, a directory command the headers of its files, and
//! SELECT_CMD the headers of all complete files.

mod directory;
mod downloads;
pub mod laws;
mod selecting;
mod span;

pub use downloads::Downloads;
