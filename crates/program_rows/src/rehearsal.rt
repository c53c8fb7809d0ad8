//! Rows of rehearsals over disks in memory that lose power.
//!
//! - `text TEXT`: the words `none none rehearse schedule`, where the shelf has the schedule of this text, in which `|`
//!   stands for LF: the number of the status, and the line that was shown.
//! - `log TEXT`: the same over disks that tell what their power cuts left: behind the line, how often each lost power,
//!   and what the server's disk stood for after each of its cuts, as in the rows of runs.
//! - `ticks COUNT TEXT`: the first one with so many lines of `tick server` behind the text, and before it how many
//!   octets there are.
//! - `seed N COUNT`: the words that ask for what is drawn by this number, in so many rounds; `log-seed` the same over
//!   disks that tell, with how often each lost power.
//! - `seeds FIRST LAST COUNT`: of all these numbers together, how many uploads were acknowledged and how many files
//!   fetched, how many cuts came, and for how many numbers not all were kept.

mod bench;
mod row;

pub use row::RehearsalRows;
