//! The answers of notes, as they are shown.

use anyhow::Result;
use client_notes::{Begun, Got, Noted, NotesRefusal};
use row_words::text_of;
use std::alloc::Global;
use std::fmt::Debug;

/// An answer.
pub fn shown<T: Debug>(alloc: Global, answer: &T) -> Result<String> {
    text_of(alloc, format_args!("{answer:?}"))
}

/// What a start found, or noted; or why it was refused.
pub fn shown_begun(alloc: Global, answer: Result<Begun, NotesRefusal>) -> Result<String> {
    let begun = match answer {
        Ok(begun) => begun,
        Err(refusal) => return text_of(alloc, format_args!("Err({refusal:?})")),
    };
    match begun {
        Begun::Fresh { task } => {
            let task = task.get();
            text_of(alloc, format_args!("Ok(Fresh {{ task: {task} }})"))
        }
        Begun::Already { number } => {
            let number = number.get();
            text_of(alloc, format_args!("Ok(Already {{ number: {number} }})"))
        }
        Begun::Going { task, number } => {
            let (task, number) = (task.get(), number.get());
            text_of(
                alloc,
                format_args!("Ok(Going {{ task: {task}, number: {number} }})"),
            )
        }
    }
}

/// The state of a task, if there is one.
pub fn shown_noted(alloc: Global, noted: Option<Noted>) -> Result<String> {
    let Some(noted) = noted else {
        return text_of(alloc, "None");
    };
    match noted {
        Noted::Going { task, number } => {
            let (task, number) = (task.get(), number.get());
            text_of(
                alloc,
                format_args!("Some(Going {{ task: {task}, number: {number} }})"),
            )
        }
        Noted::Acked { task, number } => {
            let (task, number) = (task.get(), number.get());
            text_of(
                alloc,
                format_args!("Some(Acked {{ task: {task}, number: {number} }})"),
            )
        }
        Noted::Refused { task, code } => {
            let task = task.get();
            text_of(
                alloc,
                format_args!("Some(Refused {{ task: {task}, code: {code} }})"),
            )
        }
    }
}

/// What is told of a got file, if there is one at the place.
pub fn shown_got(alloc: Global, got: Option<Got>) -> Result<String> {
    let Some(got) = got else {
        return text_of(alloc, "None");
    };
    let (server, number, length) = (got.server, got.number.get(), got.length);
    text_of(alloc, format_args!("Some({server} {number} {length})"))
}
