//! Rows of an air over two streams in memory. A row has, separated by `|`, what the stream answers that it hears, what
//! the one answers that it says to, call after call, and the air's calls, separated by `;`: `poll` and `put OCTETS`, as
//! in `air_calls`.
//!
//! An answer is octets that a read gives; `*` and how many octets a write takes; `done`; `fail`; or `signal`, the
//! failure of a call that a signal interrupted. What the calls answer is printed; and after it, separated by ` | `, the
//! octets that the second stream took, and how many calls reached each stream.

use crate::air_calls::{poll, put};
use crate::steps::{Steps, make_steps};
use crate::texts::octets_text;
use anyhow::{Context, Result, bail};
use px_base::FileBytes;
use real_outside::{MemoryAnswer, MemoryStream, StdAir, StreamCall, SystemError};
use row_words::{Player, read_octets, text_of, three_parts};
use std::alloc::Global;
use std::io::ErrorKind;

/// Plays rows of streams, each on its own.
#[derive(Drop)]
pub struct StreamRows;

impl Player for StreamRows {
    fn play(&mut self, alloc: Global, row: &str) -> Result<String> {
        let (input, output, calls) = three_parts(row, '|')?;
        let mut streams = OverStreams {
            air: StdAir::over(read_stream(alloc, input)?, read_stream(alloc, output)?),
        };
        let answers = make_steps(alloc, &mut streams, calls)?;
        let reads = streams.air.input().made().calls().len();
        let calls = streams.air.output().made().calls();
        let said = octets_text(alloc, taken(alloc, calls)?.as_slice())?;
        let writes = calls.len();
        text_of(alloc, format_args!("{answers} | {said} | {reads} {writes}"))
    }
}

/// An air over two streams in memory.
#[derive(Drop)]
struct OverStreams {
    air: StdAir<MemoryStream, MemoryStream>,
}

impl<'a> Steps<'a> for OverStreams {
    fn make(&mut self, alloc: Global, words: &[&'a str]) -> Result<String> {
        match words {
            ["poll"] => poll(alloc, &mut self.air),
            ["put", octets] => put(alloc, &mut self.air, octets),
            _ => bail!("no call of an air"),
        }
    }
}

/// A stream that answers so.
fn read_stream(alloc: Global, answers: &str) -> Result<MemoryStream> {
    let mut read = Vec::new(alloc);
    for word in answers.split_whitespace() {
        read.push(read_answer(alloc, word)?)?;
    }
    Ok(MemoryStream::new(alloc, read))
}

/// An answer of a stream.
fn read_answer(alloc: Global, word: &str) -> Result<MemoryAnswer> {
    if let Some(count) = word.strip_prefix('*') {
        return Ok(MemoryAnswer::Takes(count.parse::<usize>()?));
    }
    Ok(match word {
        "done" => MemoryAnswer::Done,
        "fail" => MemoryAnswer::Fails(SystemError::from(ErrorKind::BrokenPipe)),
        "signal" => MemoryAnswer::Fails(SystemError::from(ErrorKind::Interrupted)),
        octets => MemoryAnswer::Gives(FileBytes::from_vec(read_octets(alloc, octets)?)),
    })
}

/// The octets that a stream took in these calls.
fn taken(alloc: Global, calls: &[StreamCall]) -> Result<Vec<u8>> {
    let mut taken = Vec::new(alloc);
    for call in calls {
        if let StreamCall::Write {
            bytes,
            answer: Ok(count),
        } = call
        {
            let octets = bytes
                .as_slice()
                .get(..*count)
                .context("more than were given")?;
            taken.extend_from_slice(octets)?;
        }
    }
    Ok(taken)
}
