//! A system in memory: a script of answers, and a record of the calls.

ghost use Rattle.std.specs.Prelude.{◌≡◌, IfOk, None, Some};
ghost use Rattle.px_base.specs.CallRecords.{no_calls, told};
ghost use Rattle.pacsat_cli.specs.Start.{Follows};
ghost use Rattle.program_rows.specs.MemoryHost.{IsCalled, IsRun, words_given};

use command_words::Words;
use pacsat_cli::{Host, HostCall, NotHeld, ReadWords, Status, WordsRefusal};
use px_base::{CallRecord, FileBytes, OutOfMemory};
use std::alloc::Global;
use std::marker::Model;

/// A system in memory. Its calls answer as it was made to; it tells those that reached it, until one finds no memory to
/// be recorded.
#[derive(Drop)]
pub struct MemoryHost {
    alloc: Global,
    held: Result<(), NotHeld>,
    words: Option<Result<Words, WordsRefusal>>,
    status: Status,
    made: CallRecord<HostCall>,
}

impl Model for MemoryHost {
    ghost use Rattle.program_rows.specs.MemoryHost.{MemoryHostState};

    ghost Value = { MemoryHostState };

    ghost view = { λ a. record { held = a.held; words = a.words; status = a.status; made = a.made } };
}

impl MemoryHost {
    /// A system whose streams are held so, whose words are these, or are refused so, at the first call that asks for
    /// them, and on which each run ends with this status. Takes no memory.
    pub fn new(
        alloc: Global,
        held: Result<(), NotHeld>,
        words: Result<Words, WordsRefusal>,
        status: Status,
    ) -> MemoryHost
        ensures { result ≡ record { held = held; words = Some words; status = status; made = no_calls } }
    {
        MemoryHost {
            alloc,
            held,
            words: Some(words),
            status,
            made: CallRecord::new(alloc),
        }
    }

    /// The calls so far.
    pub fn made(&self) -> &CallRecord<HostCall>
        ensures { result.now ≡ self.now.made }
    {
        &self.made
    }
}

impl Host for MemoryHost {
    ghost use Rattle.px_base.specs.CallRecords.{told};

    ghost calls = { λ h. told h.made };

    fn hold_streams(&mut self) -> Result<(), NotHeld>
        ensures call { IsCalled self.old self.new (HostCall.Holds result) }
        ensures answer { result ≡ self.old.held }
    {
        let answer = self.held;
        self.made.add(Ok(HostCall::Holds { answer }));
        answer
    }

    fn words(&mut self) -> Result<Words, WordsRefusal>
        ensures call { Follows (told self.old.made) (told self.new.made) (HostCall.Reads result) }
        ensures answer { result ≡ words_given self.old.words }
        ensures rest { self.new ≡ record self.old { words = None; made = self.new.made } }
    {
        let answer = self.words.take().unwrap_or(Err(WordsRefusal::OutOfMemory));
        let made = made_reads(&answer);
        self.made.add(made);
        answer
    }

    fn end_with(&mut self, status: Status)
        ensures call { IsCalled self.old self.new (HostCall.Ends status) }
    {
        self.made.add(Ok(HostCall::Ends { status }));
    }

    fn run_over_connection(&mut self, words: &ReadWords<'_>, disk: &str, at: &str) -> Status
        ensures run { IsRun self.old self.new result (HostCall.OverConnection words.now disk.now at.now result) }
    {
        let status = self.status;
        let made = made_over_connection(self.alloc, words, disk, at, status);
        self.made.add(made);
        status
    }

    fn run_over_streams(&mut self, words: &ReadWords<'_>, disk: &str) -> Status
        ensures run { IsRun self.old self.new result (HostCall.OverStreams words.now disk.now result) }
    {
        let status = self.status;
        let made = made_over_streams(self.alloc, words, disk, status);
        self.made.add(made);
        status
    }

    fn run_without_air(&mut self, words: &ReadWords<'_>, disk: &str) -> Status
        ensures run { IsRun self.old self.new result (HostCall.WithoutAir words.now disk.now result) }
    {
        let status = self.status;
        let made = made_without_air(self.alloc, words, disk, status);
        self.made.add(made);
        status
    }
}

/// The record of words that were asked for.
fn made_reads(answer: &Result<Words, WordsRefusal>) -> Result<HostCall, OutOfMemory>
    ensures { IfOk result (λ call. call ≡ HostCall.Reads answer.now) }
{
    match answer {
        Ok(words) => {
            let words = words.copy()?;
            Ok(HostCall::Reads { answer: Ok(words) })
        }
        Err(refusal) => Ok(HostCall::Reads {
            answer: Err(*refusal),
        }),
    }
}

/// The record of a run over a connection.
fn made_over_connection(
    alloc: Global,
    words: &ReadWords<'_>,
    disk: &str,
    at: &str,
    status: Status,
) -> Result<HostCall, OutOfMemory>
    ensures { IfOk result (λ call. call ≡ HostCall.OverConnection words.now disk.now at.now status) }
{
    let words = words.words().copy()?;
    let disk = FileBytes::copy_of(alloc, disk.as_bytes())?;
    let at = FileBytes::copy_of(alloc, at.as_bytes())?;
    Ok(HostCall::OverConnection {
        words,
        disk,
        at,
        status,
    })
}

/// The record of a run over the standard streams.
fn made_over_streams(
    alloc: Global,
    words: &ReadWords<'_>,
    disk: &str,
    status: Status,
) -> Result<HostCall, OutOfMemory>
    ensures { IfOk result (λ call. call ≡ HostCall.OverStreams words.now disk.now status) }
{
    let words = words.words().copy()?;
    let disk = FileBytes::copy_of(alloc, disk.as_bytes())?;
    Ok(HostCall::OverStreams {
        words,
        disk,
        status,
    })
}

/// The record of a run without an air.
fn made_without_air(
    alloc: Global,
    words: &ReadWords<'_>,
    disk: &str,
    status: Status,
) -> Result<HostCall, OutOfMemory>
    ensures { IfOk result (λ call. call ≡ HostCall.WithoutAir words.now disk.now status) }
{
    let words = words.words().copy()?;
    let disk = FileBytes::copy_of(alloc, disk.as_bytes())?;
    Ok(HostCall::WithoutAir {
        words,
        disk,
        status,
    })
}
