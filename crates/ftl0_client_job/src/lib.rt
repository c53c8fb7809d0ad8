//! The job of a client (FTL0 1990): the upload of a file, a list of the files that a selection matches, or the download
//! of a file, over the notes on a disk and without a link. Each packet has a row of the client's table.
//!
//! [`Job::take`] takes a packet, and [`Job::fill`] gives what is to be sent next. What a packet's row notes is on the disk
//! before its replies are given.
#![tactic(auto)]

mod directory;
mod download;
mod ending;
mod job;
pub mod laws;
mod limits;
mod noting;
mod phases;
mod short;
mod upload;
mod work;

pub use ending::{Ending, Outcome};
pub use job::{Job, Replies};
pub use limits::LONGEST_LISTING;
