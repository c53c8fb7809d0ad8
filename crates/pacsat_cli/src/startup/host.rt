//! The system that a run is on.

ghost use Rattle.std.specs.Prelude.{List, Option};
ghost use Rattle.pacsat_cli.specs.declared.startup.host.HostCall.{HostCall};
ghost use Rattle.pacsat_cli.specs.Start.{Follows};

use crate::{ReadWords, Status};
use command_words::Words;
use px_base::FileBytes;
use thiserror::Error;

/// A standard stream is closed, and can't be held open.
#[derive(Clone, Copy, Debug, Error)]
#[error("a standard stream is closed")]
pub struct NotHeld;

/// Why there are no words.
#[derive(Clone, Copy, Debug, Error)]
pub enum WordsRefusal {
    /// One of them isn't UTF-8.
    #[error("a word isn't UTF-8")]
    NotText,
    /// There was no memory for them.
    #[error("there is no memory for the words")]
    OutOfMemory,
}

/// A call that reached the system, with what it answered.
#[derive(Drop)]
pub enum HostCall {
    /// The standard streams were to be open.
    Holds {
        answer: Result<(), NotHeld>,
    },
    /// It was asked for the words.
    Reads {
        answer: Result<Words, WordsRefusal>,
    },
    /// The line of a status was to be shown on standard error.
    Ends {
        status: Status,
    },
    /// The words were to be done over this disk, with the connection to this host and port as air and standard output for
    /// text.
    OverConnection {
        words: Words,
        disk: FileBytes,
        at: FileBytes,
        status: Status,
    },
    /// The words were to be done over this disk, with standard input and output as air and standard error for text.
    OverStreams {
        words: Words,
        disk: FileBytes,
        status: Status,
    },
    /// The words were to be done over this disk, with an air that isn't named and standard output for text.
    WithoutAir {
        words: Words,
        disk: FileBytes,
        status: Status,
    },
}

/// The system that a run is on. Where one tells the calls that reached it, as the form in memory does, each is told with its
/// answer; the real one tells none.
pub trait Host {
    /// The calls that reached it so far, where they are told.
    ghost calls: { Self → Option (List HostCall) };

    /// Sees that standard input, output and error are open, so that no file that is opened later has the place of one.
    fn hold_streams(&mut self) -> Result<(), NotHeld>
        ensures { Follows (calls self.old) (calls self.new) (HostCall.Holds result) };

    /// The words after the program's name.
    fn words(&mut self) -> Result<Words, WordsRefusal>
        ensures { Follows (calls self.old) (calls self.new) (HostCall.Reads result) };

    /// Shows the line of this status on standard error, if it has one.
    fn end_with(&mut self, status: Status)
        ensures { Follows (calls self.old) (calls self.new) (HostCall.Ends status) };

    /// Does what the words ask for, over the file `disk`, the connection to the host and port `at`, and standard output
    /// for text.
    fn run_over_connection(&mut self, words: &ReadWords<'_>, disk: &str, at: &str) -> Status
        ensures { Follows (calls self.old) (calls self.new)
            (HostCall.OverConnection words.now disk.now at.now result) };

    /// Does what the words ask for, over the file `disk`, standard input and output as air, and standard error for text.
    fn run_over_streams(&mut self, words: &ReadWords<'_>, disk: &str) -> Status
        ensures { Follows (calls self.old) (calls self.new) (HostCall.OverStreams words.now disk.now result) };

    /// Does what the words ask for, over the file `disk` and standard output for text. They name no air.
    fn run_without_air(&mut self, words: &ReadWords<'_>, disk: &str) -> Status
        ensures { Follows (calls self.old) (calls self.new) (HostCall.WithoutAir words.now disk.now result) };
}
