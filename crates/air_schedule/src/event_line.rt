//! The line of an event.

ghost use Rattle.std.specs.Prelude.{◌≢◌, ◌∷◌, codes};
ghost use Rattle.air_schedule.specs.Events.{ReadsEvent, TakesEvent};
ghost use Rattle.air_schedule.specs.Text.{words_of};

use crate::Event;
use crate::ask::read_ask;
use crate::fault::LineFault;
use crate::number::{read_number, read_numbers};
use crate::split::split_word;
use std::alloc::Global;

/// The event that a line gives. Takes memory.
pub(crate) fn read_event(alloc: Global, line: &str) -> Result<Event, LineFault>
    ensures { TakesEvent (words_of line.now) result }
{
    let (keyword, fields) = split_word(line).ok_or(LineFault::NoLine)?;
    if keyword == "ask" {
        return read_ask(alloc, fields);
    }
    read_plain(keyword, fields).ok_or(LineFault::NoLine)
}

/// The event of a line that begins with this word, which isn't `ask`, and goes on with these.
fn read_plain(keyword: &str, fields: &str) -> Option<Event>
    requires { keyword.now ≢ codes "ask" }
    ensures { ReadsEvent (keyword.now ∷ words_of fields.now) result }
{
    if keyword == "air" {
        return read_air(fields);
    }
    if keyword == "tick" {
        return read_tick(fields);
    }
    if keyword == "break" {
        return read_break(fields);
    }
    if keyword == "cut" {
        return read_cut(fields);
    }
    None
}

/// The event of a line whose words after `air` are these.
fn read_air(fields: &str) -> Option<Event>
    ensures { ReadsEvent (codes "air" ∷ words_of fields.now) result }
{
    let (hearer, numbers) = split_word(fields)?;
    if hearer == "server" {
        let (client, transmission) = read_numbers(numbers)?;
        return Some(Event::ToServer {
            client,
            transmission,
        });
    }
    if hearer == "client" {
        let (client, transmission) = read_numbers(numbers)?;
        return Some(Event::ToClient {
            client,
            transmission,
        });
    }
    None
}

/// The event of a line whose word after `tick` is this.
fn read_tick(station: &str) -> Option<Event>
    ensures { ReadsEvent (codes "tick" ∷ words_of station.now) result }
{
    if station == "server" {
        return Some(Event::TickServer);
    }
    match read_number(station) {
        Some(client) => Some(Event::TickClient { client }),
        None => None,
    }
}

/// The event of a line whose word after `break` is this.
fn read_break(client: &str) -> Option<Event>
    ensures { ReadsEvent (codes "break" ∷ words_of client.now) result }
{
    let client = read_number(client)?;
    Some(Event::BreakClient { client })
}

/// The event of a line whose words after `cut` are these.
fn read_cut(fields: &str) -> Option<Event>
    ensures { ReadsEvent (codes "cut" ∷ words_of fields.now) result }
{
    let (station, numbers) = split_word(fields)?;
    let (call, choice) = read_numbers(numbers)?;
    if call == 0 {
        return None;
    }
    if station == "server" {
        return Some(Event::CutServer { call, choice });
    }
    let client = read_number(station)?;
    Some(Event::CutClient {
        client,
        call,
        choice,
    })
}
