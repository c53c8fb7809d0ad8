//! The notes of a client on a disk that may lose power at any moment: the tasks by which it sends files, and the files
//! that it has got.
//!
//! The notes are two lists, and each call that changes them does one of the commands of `specs/Command.antt`. Each
//! command is a record of a journal (crate `file_journal`), synced before the call answers. A crash leaves the notes
//! before the command or after it.
#![tactic(auto)]

mod answers;
mod applied;
mod changes;
mod command;
mod got_file;
pub mod laws;
mod limits;
mod lists;
mod noted_lists;
mod notes;
mod progress;
mod reading;
mod refusals;
mod task;
mod task_number;
mod writing;

pub use answers::{Begun, Noted};
pub use file_journal::StoreFault;
pub use got_file::Got;
pub use limits::{LONGEST_FILE, LONGEST_NAME, MOST_GOT, MOST_TASKS};
pub use notes::Notes;
pub use progress::Progress;
pub use refusals::NotesRefusal;
pub use task_number::{TaskKind, TaskNumber};
