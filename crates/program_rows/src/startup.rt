//! Rows of starts over a system in memory. A row has what becomes of the standard streams (`held` or `closed`) and of the
//! words (`text`, `nottext` or `nomemory`), the status with which a run ends (`done`, `usage` or `disk`), and the words.
//! The number that the process ends with is printed, and the calls of the system, in order.

use crate::memory_host::MemoryHost;
use anyhow::{Result, bail};
use command_words::Words;
use pacsat_cli::{HostCall, NotHeld, Status, WordsRefusal, start};
use row_words::{Player, kind_and_rest, push_shown, read_words, text_of, three_parts};
use std::alloc::Global;
use std::str;

/// Plays rows of starts, each on its own.
#[derive(Drop)]
pub struct StartRows;

impl Player for StartRows {
    fn play(&mut self, alloc: Global, row: &str) -> Result<String> {
        let (held, answer, rest) = three_parts(row, ' ')?;
        let (status, words) = kind_and_rest(rest);
        let (held, status) = (read_held(held)?, read_status(status)?);
        let answer = read_answer(answer, read_words(alloc, words)?)?;
        let mut host = MemoryHost::new(alloc, held, answer, status);
        let number = start(alloc, &mut host);
        shown(alloc, number, host.made().calls())
    }
}

/// What becomes of the standard streams.
fn read_held(word: &str) -> Result<Result<(), NotHeld>> {
    match word {
        "held" => Ok(Ok(())),
        "closed" => Ok(Err(NotHeld)),
        _ => bail!("no streams {word}"),
    }
}

/// What the system answers where it is asked for the words.
fn read_answer(word: &str, words: Words) -> Result<Result<Words, WordsRefusal>> {
    match word {
        "text" => Ok(Ok(words)),
        "nottext" => Ok(Err(WordsRefusal::NotText)),
        "nomemory" => Ok(Err(WordsRefusal::OutOfMemory)),
        _ => bail!("no answer {word}"),
    }
}

/// The status of this name.
fn read_status(word: &str) -> Result<Status> {
    match word {
        "done" => Ok(Status::Done),
        "usage" => Ok(Status::Usage),
        "disk" => Ok(Status::Disk),
        _ => bail!("no status {word}"),
    }
}

/// The number that the process ends with, and the calls of the system.
fn shown(alloc: Global, number: u8, calls: &[HostCall]) -> Result<String> {
    let mut text = text_of(alloc, number)?;
    for call in calls {
        let call = shown_call(alloc, call)?;
        push_shown(alloc, &mut text, format_args!("; {call}"))?;
    }
    Ok(text)
}

/// A call of the system.
fn shown_call(alloc: Global, call: &HostCall) -> Result<String> {
    match call {
        HostCall::Holds { answer: Ok(()) } => text_of(alloc, "held"),
        HostCall::Holds { answer: Err(why) } => text_of(alloc, why),
        HostCall::Reads { answer: Ok(_) } => text_of(alloc, "words"),
        HostCall::Reads { answer: Err(why) } => text_of(alloc, why),
        HostCall::Ends { status } => shown_run(alloc, "ends", b"", b"", status),
        HostCall::OverConnection {
            disk,
            at,
            status,
            ..
        } => shown_run(alloc, "connection", disk.as_slice(), at.as_slice(), status),
        HostCall::OverStreams { disk, status, .. } => {
            shown_run(alloc, "streams", disk.as_slice(), b"", status)
        }
        HostCall::WithoutAir { disk, status, .. } => {
            shown_run(alloc, "no air", disk.as_slice(), b"", status)
        }
    }
}

/// A run over this disk and this air, and the number of its status.
fn shown_run(alloc: Global, how: &str, disk: &[u8], at: &[u8], status: &Status) -> Result<String> {
    let disk = str::from_utf8(disk)?;
    let at = str::from_utf8(at)?;
    let number = status.number();
    text_of(alloc, format_args!("{how} '{disk}' '{at}' {number}"))
}
