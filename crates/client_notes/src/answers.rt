//! The answers of the notes.

use crate::TaskNumber;
use px_base::FileNumber;

/// What a start found, or noted.
#[derive(Clone, Copy, Debug, PartialEq, Eq)]
pub enum Begun {
    /// A fresh task was noted.
    Fresh {
        /// The task.
        task: TaskNumber,
    },
    /// The same file was acknowledged before.
    Already {
        /// Its number on the server.
        number: FileNumber,
    },
    /// The same file is under way.
    Going {
        /// The task.
        task: TaskNumber,
        /// Its number on the server; 0 where none is known.
        number: FileNumber,
    },
}

/// How a task stands.
#[derive(Clone, Copy, Debug, PartialEq, Eq)]
pub enum Noted {
    /// It is unfinished.
    Going {
        /// The task.
        task: TaskNumber,
        /// Its number on the server; 0 where none is known.
        number: FileNumber,
    },
    /// The server acknowledged it.
    Acked {
        /// The task.
        task: TaskNumber,
        /// Its number on the server.
        number: FileNumber,
    },
    /// The server refused it.
    Refused {
        /// The task.
        task: TaskNumber,
        /// The server's code (FTL0 1990, error codes).
        code: u8,
    },
}
