//! Rows of the header tool.
//!
//! - `show OCTETS` and `check OCTETS`: the text that shows this file's header, or its check, with `|` instead of line
//!   feeds, and the code of its fault.
//! - `length NAME;EXT;TYPE;TIME;SOURCE;DESTINATION;TITLE;BODY`: the length of the file that is made of this; or why
//!   none is made, also whatever the body is. Names and texts are words of octets; a destination and a title that there
//!   isn't are `-`.
//! - `file` of the same: its octets.
//! - `made` of the same: what it shows.
//! - `memory`: the text that says that there is no memory.

mod making;

use anyhow::Result;
use header_tool::{MakeRefusal, Shown, check_line, show};
use row_words::{Player, kind_and_rest, read_octets, text_of};
use std::alloc::Global;
use std::str;

/// Plays rows of the header tool, each on its own.
#[derive(Drop)]
pub struct HeaderRows;

impl Player for HeaderRows {
    fn play(&mut self, alloc: Global, row: &str) -> Result<String> {
        let (kind, rest) = kind_and_rest(row);
        match kind {
            "show" => show_row(alloc, rest),
            "check" => check_row(alloc, rest),
            "memory" => text_of(alloc, MakeRefusal::OutOfMemory),
            _ => making::make_row(alloc, kind, rest),
        }
    }
}

/// `show OCTETS`
fn show_row(alloc: Global, text: &str) -> Result<String> {
    let file = read_octets(alloc, text)?;
    shown_text(alloc, &show(alloc, file.as_slice())?)
}

/// `check OCTETS`
fn check_row(alloc: Global, text: &str) -> Result<String> {
    let file = read_octets(alloc, text)?;
    shown_text(alloc, &check_line(alloc, file.as_slice())?)
}

/// A text that says how a file is, and the code of its fault.
fn shown_text(alloc: Global, shown: &Shown) -> Result<String> {
    let code = shown.code;
    let text = str::from_utf8(shown.text.as_slice())?.replace(alloc, "\n", "|")?;
    text_of(alloc, format_args!("{text} {code}"))
}
