//! The line of an event that asks a client for a job.

ghost use Rattle.std.specs.Prelude.{◌≢◌, ◌∷◌, codes, decimal};
ghost use Rattle.air_schedule.specs.Events.{ReadsEvent, TakesEvent};
ghost use Rattle.air_schedule.specs.Text.{words_of};

use crate::Event;
use crate::fault::LineFault;
use crate::number::{read_number, read_ranged};
use crate::split::split_word;
use crate::tokens::read_tokens;
use std::alloc::Global;

/// How many octets the body of a file that is asked for may have.
const MOST_OCTETS: u64 = 40_000;

/// The last number of a file.
const LAST_NUMBER: u64 = 4_294_967_295;

/// The event of a line whose words after `ask` are these. Takes memory.
pub(crate) fn read_ask(alloc: Global, fields: &str) -> Result<Event, LineFault>
    ensures { TakesEvent (codes "ask" ∷ words_of fields.now) result }
{
    let (client, job) = split_word(fields).ok_or(LineFault::NoLine)?;
    let client = read_number(client).ok_or(LineFault::NoLine)?;
    if job == "resume" {
        return Ok(Event::AskResume { client });
    }
    read_job(alloc, client, job)
}

/// The event of a line whose words after `ask` and the number of a client are these, and not `resume`. Takes memory.
fn read_job(alloc: Global, client: u64, job: &str) -> Result<Event, LineFault>
    requires { job.now ≢ codes "resume" }
    ensures { TakesEvent (codes "ask" ∷ decimal client ∷ words_of job.now) result }
{
    let Some((kind, detail)) = split_word(job) else {
        return Err(LineFault::NoLine);
    };
    if kind == "upload" {
        return read_upload(client, detail).ok_or(LineFault::NoLine);
    }
    if kind == "download" {
        return read_download(client, detail).ok_or(LineFault::NoLine);
    }
    if kind == "list" {
        let tokens = read_tokens(alloc, detail)?;
        return Ok(Event::AskList { client, tokens });
    }
    Err(LineFault::NoLine)
}

/// The upload that a client is asked for, of a file whose body has this number of octets.
fn read_upload(client: u64, octets: &str) -> Option<Event>
    ensures { ReadsEvent (codes "ask" ∷ decimal client ∷ codes "upload" ∷ words_of octets.now) result }
{
    let octets = read_ranged(0, MOST_OCTETS, octets)? as u16;
    Some(Event::AskUpload { client, octets })
}

/// The download that a client is asked for, of the file of this number.
fn read_download(client: u64, number: &str) -> Option<Event>
    ensures { ReadsEvent (codes "ask" ∷ decimal client ∷ codes "download" ∷ words_of number.now) result }
{
    let number = read_ranged(1, LAST_NUMBER, number)? as u32;
    Some(Event::AskDownload { client, number })
}
