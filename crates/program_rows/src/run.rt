//! Rows of runs over a disk in memory, of one session and of the server of eight: the families `run` and `halves`. A
//! row has, parted by `;`, the words; the numbers of the air's calls that fail; the most octets of a poll; the turns;
//! the disk's octets; and its failing calls, behind which numbers may stand, after a `|`, that pick what a crash leaves
//! of the disk then. `row_words` says how octets, turns and a disk are written; `==` is a disk with the octets that the
//! row before began with.
//!
//! For each row are printed, parted by `;`, the octets said, the status's number and its line; and behind ` | ` what
//! the disk's content then stands for: `next` and the number that the next file gets, and for each entry its number,
//! call and length, and `held` and how many octets are held, or `complete` and the sum of its octets; or `no store`, or
//! `damaged` and the place. `none` stands there where DISK is `none`, and the disk's octets where it is `octets`; where
//! it is `length` or `end`, their number and the octet that selects a half stand before it, and where it is `end`,
//! before that the last 32 octets. For each number that picks, it and what is left then stand behind a further ` | `.

mod row;
mod standing;
mod words;

pub use row::RunRows;
pub use standing::standing_text;
