//! The real system: standard streams, files, connections, the clock, and the words of the command line.

ghost use Rattle.std.specs.Prelude.{◌≡◌, ◌↔◌, None, IsSome, OnOk};
ghost use Rattle.std.specs.declared.io.ErrorKind.TheVariants as reason;

use crate::cause::Ended;
use crate::help;
use command_words::{ClientRequest, Request};
use pacsat_cli::{
    Bench, FuseDisks, Host, NotHeld, ReadWords, Status, Words, WordsRefusal, end_with, run,
};
use px_base::{Air, Call, Out};
use real_outside::{
    FileDisk, FolderShelf, NullFile, StandardStreams, StdAir, StdOut, SystemClock, TcpAir,
    hold_standard_streams,
};
use std::env;
use std::fs::File;
use std::io::{ErrorKind, IsTerminal};
use traffic_log::{Level, LoggedAir, Watcher};

/// The system that the program runs on. It tells none of its calls.
#[derive(Drop)]
pub struct System<'a> {
    rt: &'a HostRuntime,
    streams: Option<StandardStreams<File>>,
}

impl<'a> System<'a> {
    /// This system.
    pub fn new(rt: &'a HostRuntime) -> System<'a> {
        System { rt, streams: None }
    }
}

impl<'a> Host for System<'a> {
    ghost calls = { λ _. None };

    /// Holds what stands in for those that were closed, from then on.
    fn hold_streams(&mut self) -> Result<(), NotHeld>
        ensures held { OnOk result (IsSome self.new.streams) }
    {
        let held = hold_standard_streams(&mut NullFile::new(self.rt)).map_err(|_| NotHeld)?;
        self.streams = Some(held);
        Ok(())
    }

    fn words(&mut self) -> Result<Words, WordsRefusal>
        ensures kept { self.new.streams ≡ self.old.streams }
    {
        words(self.rt)
    }

    fn end_with(&mut self, status: Status)
        ensures kept { self.new.streams ≡ self.old.streams }
    {
        let _ = end_with(status, &mut StdOut::new(self.rt.stderr()));
    }

    fn run_over_connection(&mut self, words: &ReadWords<'_>, disk: &str, at: &str) -> Status
        ensures kept { self.new.streams ≡ self.old.streams }
    {
        let log = StdOut::new(self.rt.stderr());
        let mut air = LoggedAir::new(
            TcpAir::new(self.rt, at),
            watcher(self.rt, words, disk),
            self.rt.stderr().is_terminal(),
            log,
            SystemClock::new(self.rt),
        );
        let mut text = StdOut::new(self.rt.stdout());
        let ended = run_over(self.rt, words, disk, &mut air, &mut text);
        let refused = air.air().connection().last_error();
        ended.tell(self.rt, words, disk, at, refused);
        ended.status
    }

    fn run_over_streams(&mut self, words: &ReadWords<'_>, disk: &str) -> Status
        ensures kept { self.new.streams ≡ self.old.streams }
    {
        let mut text = StdOut::new(self.rt.stderr());
        run_over(
            self.rt,
            words,
            disk,
            &mut StdAir::new(self.rt.stdin(), self.rt.stdout()),
            &mut text,
        )
        .status
    }

    fn run_without_air(&mut self, words: &ReadWords<'_>, disk: &str) -> Status
        ensures kept { self.new.streams ≡ self.old.streams }
    {
        let mut text = StdOut::new(self.rt.stdout());
        let ended = run_over(
            self.rt,
            words,
            disk,
            &mut StdAir::new(self.rt.stdin(), self.rt.stdout()),
            &mut text,
        );
        ended.tell(self.rt, words, disk, "", None);
        ended.status
    }
}

/// Does what the words ask for, over the file `disk`, this air and this output for text, the working folder, the
/// system's clock, and a bench of disks in memory for a rehearsal, which makes them when one is played. A command that
/// uses no disk doesn't open the file.
fn run_over<A: Air, O: Out>(
    rt: &HostRuntime,
    words: &ReadWords<'_>,
    disk: &str,
    air: &mut A,
    text: &mut O,
) -> Ended {
    let mut file = FileDisk::new(rt, disk);
    let mut shelf = FolderShelf::new(rt);
    let mut clock = SystemClock::new(rt);
    let mut bench = Bench::new(rt.alloc(), FuseDisks);
    let status = run(
        rt.alloc(),
        words,
        &mut file,
        air,
        &mut shelf,
        text,
        &mut clock,
        &mut bench,
    );
    Ended {
        status,
        disk: file.device().files().last_error(),
        shelf: shelf.files().last_error(),
    }
}

/// What makes lines of what passes over the air, where these words ask for a server or a client, and PACSAT_LOG in the
/// environment isn't `off`.
fn watcher<'a>(rt: &HostRuntime, words: &ReadWords<'_>, disk: &'a str) -> Option<Watcher<'a>> {
    let level = match env::var(rt, "PACSAT_LOG") {
        Ok(word) => Level::of_word(word.as_str()),
        Err(_) => Level::Info,
    };
    if level == Level::Off {
        return None;
    }
    match words.asked() {
        Ok(Request::Serve(serve)) => Some(Watcher::of_server(level, serve.me, disk)),
        Ok(Request::Client(client)) => Some(Watcher::of_client(level, me_of(client))),
        _ => None,
    }
}

/// The call of the client itself.
fn me_of(client: &ClientRequest<'_>) -> Call {
    match client {
        ClientRequest::Send(send) => send.terms.me,
        ClientRequest::Fetch(fetch) => fetch.terms.me,
        ClientRequest::List(list) => list.terms.me,
    }
}

/// Shows what the words ask to be told of the program itself, and gives the status, if they ask for that.
pub fn told(rt: &HostRuntime) -> Option<Status> {
    let words = words(rt).ok()?;
    help::told(rt, &words)
}

/// The words after the program's name.
fn words(rt: &HostRuntime) -> Result<Words, WordsRefusal> {
    let mut words = Words::new(rt.alloc());
    let args = env::args(rt).map_err(|refused| words_refusal(refused.kind()))?;
    for word in args.skip(1) {
        words
            .add(word.as_str())
            .map_err(|_| WordsRefusal::OutOfMemory)?;
    }
    Ok(words)
}

/// Why there are no words, where the system gives this reason: want of memory exactly where that is the reason.
fn words_refusal(kind: ErrorKind) -> WordsRefusal
    ensures { (result ≡ WordsRefusal.OutOfMemory) ↔ (kind ≡ reason.OutOfMemory) }
{
    match kind {
        ErrorKind::OutOfMemory => WordsRefusal::OutOfMemory,
        _ => WordsRefusal::NotText,
    }
}
