//! What a row prints: its parts, and octets in them.

use anyhow::{Result, bail};
use row_words::{hex_text, push_shown, text_of};
use std::alloc::Global;
use std::fmt::Display;

/// How many alike octets are written out, one after another.
const MOST_ALIKE: usize = 32;

/// The parts so far, separated by `; `.
#[derive(Drop)]
pub struct Parts {
    alloc: Global,
    text: String,
}

impl Parts {
    /// No parts.
    pub fn new(alloc: Global) -> Parts {
        Parts {
            alloc,
            text: String::new(alloc),
        }
    }

    /// Appends a part to the others. Takes memory.
    pub fn put(&mut self, part: &str) -> Result<()> {
        if !self.text.is_empty() {
            self.text.push_str("; ")?;
        }
        self.text.push_str(part)?;
        Ok(())
    }

    /// Appends what shows this to the others. Takes memory.
    pub fn show<T: Display + Drop>(&mut self, shown: T) -> Result<()> {
        self.put(text_of(self.alloc, shown)?.as_str())
    }

    /// Appends octets to the others. Takes memory.
    pub fn show_octets(&mut self, octets: &[u8]) -> Result<()> {
        self.put(octets_text(self.alloc, octets)?.as_str())
    }

    /// Appends `ok`, or the text of the error, to the others. Takes memory.
    pub fn show_answer<E: Display + Drop>(&mut self, answer: Result<(), E>) -> Result<()> {
        match answer {
            Ok(()) => self.put("ok"),
            Err(error) => self.show(error),
        }
    }

    /// The text of all parts.
    pub fn end(self) -> String {
        let Parts { alloc: _, text } = self;
        text
    }
}

/// Fails if this was found, and not the text that there should be; the error says `how` it was found.
pub fn same_text<T: Display + Drop>(found: &str, text: &str, how: T) -> Result<()> {
    if found != text {
        bail!("{how}: {found}");
    }
    Ok(())
}

/// Octets in hexadecimal, `''` if there are none. If more than 32 at the end are alike, they are one word, with its
/// count after `*`. Takes memory.
pub fn octets_text(alloc: Global, octets: &[u8]) -> Result<String> {
    let Some(last) = octets.last() else {
        return text_of(alloc, "''");
    };
    let alike = octets
        .iter()
        .rev()
        .take_while(|octet| *octet == last)
        .count();
    if alike <= MOST_ALIKE {
        return hex_text(alloc, octets);
    }
    let (front, _) = octets.split_at(octets.len().saturating_sub(alike));
    alike_text(alloc, front, *last, alike)
}

/// Octets in hexadecimal, and after them one with its count.
fn alike_text(alloc: Global, front: &[u8], last: u8, alike: usize) -> Result<String> {
    let front = hex_text(alloc, front)?;
    let blank = if front.is_empty() { "" } else { " " };
    text_of(alloc, format_args!("{front}{blank}{last:02x}*{alike}"))
}

/// Octets in hexadecimal. Of more than 32 alike, one is in brackets, with its count after `*`. Takes memory.
pub fn runs_text(alloc: Global, octets: &[u8]) -> Result<String> {
    let mut text = String::new(alloc);
    for run in octets.chunk_by(|one, next| one == next) {
        push_run(alloc, &mut text, run)?;
    }
    Ok(text)
}

/// Appends alike octets to the text.
fn push_run(alloc: Global, text: &mut String, run: &[u8]) -> Result<()> {
    match run {
        [octet, ..] if run.len() > MOST_ALIKE => {
            push_shown(alloc, text, format_args!("[{octet:02x}*{}]", run.len()))
        }
        _ => push_shown(alloc, text, hex_text(alloc, run)?),
    }
}
