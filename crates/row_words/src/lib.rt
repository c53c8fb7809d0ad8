//! What the programs share that play rows: lines of data, each a run. Words and numbers in a row are separated by
//! blanks.
//!
//! Octets are words of hexadecimal digits. After `*` comes how often a word's octets are repeated; after `+`, how many
//! records like it there are, the first number of each greater by one than that of the one before.
//!
//! Turns of an air are words too. Octets, written so, are heard in as many turns as polls of a given number of octets
//! take; `quiet`, `end` and `fail` are a turn each. Each turn has the clock's moment, which is 1 at first; `@` and a
//! number is the moment from then on, and `+` and a number are that many quiet turns, each at the moment after the one
//! before. After the last turn the air is closed, and the clock goes on with the last moment.
//!
//! A disk has the octets that are written; or `=`, what a read gives of the disk of the row right before; or `=` and a
//! number, what a crash leaves of that disk, as the number picks it. Its failing calls are their numbers; or `!` and a
//! number: that many calls of `write_at` and `sync` pass, and each after them fails.
#![tactic(auto)]

ghost use Rattle.std.specs.Prelude.{◌≡◌, ◌≢◌, ◌↔◌, ◌<◌, [], length, slice_index, codes, IsTrue};

mod disk;
mod octets;
mod script;
mod texts;
mod turns;

use anyhow::{Context, Result};
use command_words::Words;
pub use disk::{OverDisk, disk_after, octets_before};
pub use octets::{read_octets, with_lines};
pub use script::read_air;
use std::alloc::Global;
use std::fs;
use std::io::Print;
use std::rt::Files;
pub use texts::{four_parts, hex_text, kind_and_rest, push_shown, text_of, three_parts, two_parts};

/// What plays rows, one after another.
pub trait Player {
    /// Plays a row, and gives what is printed for it. Takes memory.
    fn play(&mut self, alloc: Global, row: &str) -> Result<String>;
}

/// Prints a family's name after `==`, and then plays each row of the file of that name with `.rows` appended, and
/// prints what the player gives for it. A line that is no row is printed as it is. Takes memory.
pub fn play_family<R: AllocGlobal + Files + Print, P: Player>(
    rt: &R,
    family: &str,
    player: &mut P,
) -> Result<()> {
    println!(rt; "== {family}")?;
    let name = format!(in rt.alloc(); "{family}.rows")?;
    let rows = fs::read_to_string(rt, name.as_str()).context(format_args!("in the file {name}"))?;
    for line in rows.lines() {
        play_line(rt, line, player)?;
    }
    Ok(())
}

/// Prints what the player gives for a row; a line that is none, as it is.
fn play_line<R: AllocGlobal + Print, P: Player>(rt: &R, line: &str, player: &mut P) -> Result<()> {
    if !is_row(line) {
        println!(rt; "{line}")?;
        return Ok(());
    }
    let shown = player
        .play(rt.alloc(), line)
        .context(format_args!("in the row {line}"))?;
    println!(rt; "{shown}")?;
    Ok(())
}

/// Whether a line is a row: one that isn't empty, and doesn't begin with `#`.
pub fn is_row(line: &str) -> bool
    ensures { IsTrue result ↔ ((0 < length line.now) × (slice_index line.now 0 ≢ 35)) }
{
    !matches!(line.as_bytes(), [] | [b'#', ..])
}

/// What a word of a row stands for: `''` is one without octets, and each other is itself.
pub fn written(word: &str) -> &str
    ensures empty { word.now ≡ codes "''" → result.now ≡ [] }
    ensures other { word.now ≢ codes "''" → result.now ≡ word.now }
{
    if word == "''" { "" } else { word }
}

/// The words of a row. Takes memory.
pub fn read_words(alloc: Global, text: &str) -> Result<Words> {
    let mut words = Words::new(alloc);
    for word in text.split_whitespace() {
        words.add(written(word))?;
    }
    Ok(words)
}

/// The numbers of a row. Takes memory.
pub fn read_numbers(alloc: Global, text: &str) -> Result<Vec<u64>> {
    let mut numbers = Vec::new(alloc);
    for word in text.split_whitespace() {
        numbers.push(word.parse::<u64>()?)?;
    }
    Ok(numbers)
}
