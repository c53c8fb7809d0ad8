//! The task that a row names.

ghost use Rattle.std.specs.Prelude.{◌≡◌, IfOk};
ghost use Rattle.client_notes.specs.Answers.{noted_at};

use anyhow::{Result, bail};
use client_notes::{Noted, Notes, TaskNumber};
use px_base::{Call, FileNumber};

/// The last task of these stations and this name, which is unfinished, and its number on the server, or 0.
pub fn unfinished(
    notes: &Notes,
    server: &str,
    caller: &str,
    name: &str,
) -> Result<(TaskNumber, FileNumber)>
    ensures { IfOk result (λ found. noted_at notes.now.lists found.0 ≡ Some (Noted.Going found.0 found.1)) }
{
    let Some(noted) = notes.noted(Call::read(server)?, Call::read(caller)?, name) else {
        bail!("no task");
    };
    match noted {
        Noted::Going { task, number } => Ok((task, number)),
        _ => bail!("no unfinished task"),
    }
}
