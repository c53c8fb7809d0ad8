//! The number of a task.

use px_base::Number;

/// The kind of a `TaskNumber`.
#[derive(Clone, Copy, Debug, PartialEq, Eq)]
pub struct TaskKind;

/// The number of a task of the notes, counted from 1.
pub type TaskNumber = Number<TaskKind>;
