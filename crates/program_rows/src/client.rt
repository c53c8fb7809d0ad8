//! Rows of the commands of a client, over an air, a clock, a shelf, an output and a disk in memory: each is a run of
//! `send`, `fetch` or `list`. A row has, parted by `;`, the words, of which the command's own are the first; the
//! numbers of the air's calls that fail; the most octets of a poll; the turns; what the shelf has under the command's
//! NAME; the numbers of the shelf's calls that fail, of which keeping that content is the first, and of the output's;
//! the disk's octets; and its failing calls. `row_words` says how octets, turns and a disk are written.
//!
//! The shelf has octets, none of them where they are `''`; or `=`, what it had under the NAME of the row right before;
//! or `none`. The command `list` has no NAME, and `none`.
//!
//! For each row are printed, parted by `;`, the status's number; the lines that were shown, each ended by `|`; how
//! many polls were made; what the shelf then has under NAME; what the disk's content then stands for; its length and
//! the sum of its octets; and the octets said. Of the shelf a length and a sum are printed, or `none`. Of the notes is
//! printed, behind `send`, how the last task of the stations and the NAME stands: `going` or `acked` with the task and
//! its number on the server, `refused` with the task and the code, or `none`; behind `fetch`, `got`, how many octets
//! of the file, and their sum; behind `list`, `notes`; or `no notes`, or `damaged` and the place.

mod asked;
mod row;
mod run;
mod standing;

pub use row::ClientRows;
