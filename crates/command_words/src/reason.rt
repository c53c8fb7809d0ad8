//! Why words are refused, for people.

use crate::air::read_air;
use crate::client_line::{client_command, fetch_command};
use crate::command::{ClientCommand, CommandWord, read_command};
use crate::line::{
    body_command, drawn_command, line_command, make_command, serve_command, session_command,
};
use crate::words::Words;
use clap::Command;
use std::alloc::{AllocError, Global};

/// Why the words are refused, where they aren't in the command set: which word, and its reason, in `clap`'s own text
/// where `clap` refuses it. It is shown, and not promised. `None` where fewer than three words stand, or memory is
/// short. Takes memory.
pub fn refusal_text(alloc: Global, words: &Words) -> Option<String> {
    let [_, air, command, ..] = words.as_slice() else {
        return None;
    };
    if read_air(air.as_str()).is_none() {
        return format!(in alloc; "AIR is no host and port, nor '-', nor 'none': {air}").ok();
    }
    let Some(asked) = read_command(command.as_str()) else {
        return format!(in alloc; "there is no command '{command}'").ok();
    };
    let line = &words.as_slice()[2..];
    let parser = parser_of(alloc, asked, line, command.as_str()).ok()?;
    match parser.try_get_matches_from(line) {
        Ok(_) => String::from_str(alloc, reason_behind(asked)).ok(),
        Err(error) => format!(in alloc; "{error}").ok(),
    }
}

/// What is said of `rehearse` where `clap` takes its words as options: one is missing, or its number is out of range.
const NOTHING_TO_REHEARSE: &str =
    "rehearse wants the NAME of a schedule, or else both --seed, a number below 2^64, \
     and --count, 1 to 1,000";

/// What is said of the other commands where `clap` takes their words.
const OUT_OF_RANGE: &str =
    "a call is none (capitals, digits, SSID), HEX isn't hexadecimal, a number is out of range, \
     a name, an extension or a text is too long, or there is no disk or air";

/// Why words of this command are refused that `clap` takes.
fn reason_behind(asked: CommandWord) -> &'static str {
    match asked {
        CommandWord::Rehearse => NOTHING_TO_REHEARSE,
        _ => OUT_OF_RANGE,
    }
}

/// Whether the words of a line of `rehearse` are the name of a schedule with others behind it, and not options.
fn names_a_schedule(line: &[String]) -> bool {
    line.len() > 1 && !line.iter().any(|word| is_of_drawing(word.as_str()))
}

/// Whether a word is an option by which a schedule is drawn, with its value or without.
fn is_of_drawing(word: &str) -> bool {
    word.starts_with("--seed") || word.starts_with("--count")
}

/// What `clap` reads the words of this command by.
fn parser_of<'a>(
    alloc: Global,
    asked: CommandWord,
    line: &[String],
    word: &'a str,
) -> Result<Command<'a>, AllocError> {
    match asked {
        CommandWord::Session => session_command(alloc),
        CommandWord::Serve => serve_command(alloc),
        CommandWord::Client(ClientCommand::Fetch) => fetch_command(alloc),
        CommandWord::Client(_) => client_command(alloc, word),
        CommandWord::PfhMake => make_command(alloc),
        CommandWord::PfhBody => body_command(alloc),
        CommandWord::File(_) => line_command(alloc, word, "name"),
        CommandWord::Rehearse if names_a_schedule(line) => line_command(alloc, word, "name"),
        CommandWord::Rehearse => drawn_command(alloc),
    }
}
