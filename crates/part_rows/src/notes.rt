//! Rows of a client's notes over a disk in memory. A row's parts are separated by `|`; the first begins with the row's
//! kind.
//!
//! - `play OCTETS | CALLS`: notes are recovered from a disk with these octets, and the calls are made on them. `notes`
//!   and what each call answers are printed, separated by `;`; or why there are no notes.
//! - `show OCTETS | CALLS`: the same, and after ` | ` the disk's octets then.
//! - `fail COUNT | OCTETS | CALLS`: as `play`, but only the first COUNT calls of `write_at` and `sync` pass.
//! - `stop COUNT | OCTETS | CALLS | PICKS | QUESTIONS`: the calls are made as in `fail`. Then, for each pick, the disk
//!   loses power, and leaves the image that the number picks; at `-` it doesn't. Notes are recovered from what is left,
//!   and the questions, calls too, are made on them; also on the notes before the calls, and on those after them when
//!   the disk doesn't stop. What the calls answered is printed, what was answered before and after them, and for each
//!   pick `before` or `after`, if the same was answered, or what else; all separated by ` | `.
//!
//! Calls are separated by `;`. Each is the name of a call of `Notes`, and its parameters in their order; but
//! `numbered`, `acked` and `refused` have a server, a caller and a name instead of the task, which is their last one.

mod answers;
mod calls;
mod row;
mod stop;
mod task;

use anyhow::Result;
use row_words::Player;
use std::alloc::Global;

/// Plays rows of notes, each on its own.
#[derive(Drop)]
pub struct NotesRows;

impl Player for NotesRows {
    fn play(&mut self, alloc: Global, row: &str) -> Result<String> {
        row::play(alloc, row)
    }
}
