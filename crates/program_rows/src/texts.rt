//! Rows of error types: each names one, and the text of each of its values is printed, ended by `|`.

use anyhow::{Result, bail};
use command_words::Refusal;
use disk_model::Halt;
use row_words::{Player, push_shown};
use server_node::NodeStop as SessionStop;
use std::alloc::Global;
use std::fmt::Display;
use uploader::{FileSum, SendStop};

/// Plays rows of error types, each on its own.
#[derive(Drop)]
pub struct TextRows;

impl Player for TextRows {
    fn play(&mut self, alloc: Global, row: &str) -> Result<String> {
        match row {
            "words" => words(alloc),
            "send" => send_stops(alloc),
            "job" => job_stops(alloc),
            "session" => session_stops(alloc),
            "server" => server_stops(alloc),
            _ => bail!("no error type {row}"),
        }
    }
}

/// The text of each of these, ended by `|`. Takes memory.
fn joined<T: Display>(alloc: Global, values: &[T]) -> Result<String> {
    let mut text = String::new(alloc);
    for value in values {
        push_shown(alloc, &mut text, format_args!("{value}|"))?;
    }
    Ok(text)
}

/// Why words are refused.
fn words(alloc: Global) -> Result<String> {
    joined(alloc, &[Refusal::Usage, Refusal::OutOfMemory])
}

/// The stops of a client's command.
fn send_stops(alloc: Global) -> Result<String> {
    let sum = FileSum {
        length: 73,
        digest: [7; 32],
    };
    joined(
        alloc,
        &[
            SendStop::Refused { code: 8 },
            SendStop::BadFile { code: 16 },
            SendStop::AirRead,
            SendStop::AirWrite,
            SendStop::Disk,
            SendStop::NoSuch,
            SendStop::Changed {
                kept: sum,
                given: sum,
            },
            SendStop::NotAStore {
                found: *b"PXSTORE1",
            },
            SendStop::Damaged { at: 16 },
            SendStop::OutOfMemory,
            SendStop::Spent,
            SendStop::Out,
            SendStop::Shelf,
            SendStop::LinkDown,
            SendStop::Strange { kind: 0 },
            SendStop::NotesFull,
            SendStop::TooLong,
        ],
    )
}

/// The stops of a job.
fn job_stops(alloc: Global) -> Result<String> {
    joined(alloc, &[Halt::Disk, Halt::OutOfMemory])
}

/// The stops of a session over an air.
fn session_stops(alloc: Global) -> Result<String> {
    joined(
        alloc,
        &[
            SessionStop::AirRead,
            SessionStop::AirWrite,
            SessionStop::Disk,
            SessionStop::NotAStore {
                found: *b"PXNOTES0",
            },
            SessionStop::Damaged { at: 16 },
            SessionStop::Spent,
            SessionStop::OutOfMemory,
        ],
    )
}

/// The stops of a server's session.
fn server_stops(alloc: Global) -> Result<String> {
    joined(alloc, &[Halt::Disk, Halt::OutOfMemory])
}
