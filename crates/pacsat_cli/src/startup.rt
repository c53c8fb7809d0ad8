//! The start of a run: what the program asks of its system by its words, and the number that the process ends with.

ghost use Rattle.std.specs.Prelude.{◌≡◌, slice_get};
ghost use Rattle.px_base.specs.CallRecords.{Asks};
ghost use Rattle.pacsat_cli.specs.declared.startup.host.HostCall.{HostCall};
ghost use Rattle.pacsat_cli.specs.Start.{Follows, IsRunOf, Starts, status_of_words as words_status, word_or_empty};
ghost use Rattle.pacsat_cli.specs.Status.{number_of};

mod host;

use crate::{ReadWords, Status};
use command_words::{AirWord, read_air};
pub use host::{Host, HostCall, NotHeld, WordsRefusal};
use std::alloc::Global;

/// Runs the program on this system, and gives the number that the process is to end with. Before anything else is opened
/// standard input, output and error are seen to be open; where they can't be, the run ends with `Status::Disk`. Text goes
/// to standard error exactly where the second word is `-`, and else to standard output; the first word is the path of the
/// disk. The words are read once, here. Takes memory.
pub fn start<H: Host>(alloc: Global, host: &mut H) -> u8
    ensures { Asks (H.calls host.old) (H.calls host.new) (Starts result) }
{
    if host.hold_streams().is_err() {
        return end_with(host, Status::Disk);
    }
    match host.words() {
        Ok(words) => run_by(host, &ReadWords::of(alloc, &words)).number(),
        Err(refusal) => end_with(host, status_of_words(refusal)),
    }
}

/// Ends a run with this status before anything was done, and gives its number.
fn end_with<H: Host>(host: &mut H, status: Status) -> u8
    ensures call { Follows (H.calls host.old) (H.calls host.new) (HostCall.Ends status) }
    ensures number { result ≡ number_of status }
{
    host.end_with(status);
    status.number()
}

/// Does what the words ask for, over the disk of the first word and the air of the second.
fn run_by<H: Host>(host: &mut H, words: &ReadWords<'_>) -> Status
    ensures { (call : HostCall) × Follows (H.calls host.old) (H.calls host.new) call × IsRunOf words.now result call }
{
    let disk = word_at(words, 0);
    let air = word_at(words, 1);
    match read_air(air) {
        Some(AirWord::HostPort) => host.run_over_connection(words, disk, air),
        Some(AirWord::Standard) => host.run_over_streams(words, disk),
        Some(AirWord::Nothing) => host.run_without_air(words, disk),
        None => host.run_without_air(words, disk),
    }
}

/// The word at this place, counted from 0, or an empty one where there is none.
fn word_at<'a>(words: &'a ReadWords<'_>, place: usize) -> &'a str
    ensures { result.now ≡ word_or_empty (slice_get words.now place) }
{
    words.words().get(place).unwrap_or("")
}

/// The status of a run that has no words for this reason.
fn status_of_words(refusal: WordsRefusal) -> Status
    ensures { result ≡ words_status refusal }
{
    match refusal {
        WordsRefusal::NotText => Status::Usage,
        WordsRefusal::OutOfMemory => Status::OutOfMemory,
    }
}
