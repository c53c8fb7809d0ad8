//! Rows of files that are made.

use crate::header::shown_text;
use crate::parts::octets_text;
use anyhow::{Result, bail};
use header_tool::{MakeRefusal, MakeSpec, make, show};
use px_base::FileBytes;
use row_words::{read_octets, text_of};
use std::alloc::Global;
use std::str;

/// The names and texts of a row.
#[derive(Drop)]
struct Texts {
    name: Option<String>,
    ext: Option<String>,
    source: Option<String>,
    destination: Option<String>,
    title: Option<String>,
}

/// `KIND NAME;EXT;TYPE;TIME;SOURCE;DESTINATION;TITLE;BODY`
pub fn make_row(alloc: Global, kind: &str, row: &str) -> Result<String> {
    let words = row.split(';').collect::<Vec<&str>>(alloc)?;
    let [name, ext, file_type, time, source, destination, title, body] = words.as_slice() else {
        bail!("no kind of row");
    };
    let (file_type, time) = (file_type.parse::<u8>()?, time.parse::<u32>()?);
    let texts = read_texts(alloc, [*name, *ext, *source, *destination, *title])?;
    made_text(alloc, kind, &texts.spec(file_type, time), body)
}

/// What a row of this kind prints of the file that is made of this.
fn made_text(alloc: Global, kind: &str, spec: &MakeSpec<'_>, body: &str) -> Result<String> {
    let body = read_octets(alloc, body)?;
    match make(alloc, spec, body.as_slice()) {
        Ok(file) => file_text(alloc, kind, &file),
        Err(refusal) => refusal_text(alloc, refusal, spec.refusal()),
    }
}

/// The names and texts of a row, in the order in which they come.
fn read_texts(alloc: Global, words: [&str; 5]) -> Result<Texts> {
    let [name, ext, source, destination, title] = words;
    Ok(Texts {
        name: read_text(alloc, name)?,
        ext: read_text(alloc, ext)?,
        source: read_text(alloc, source)?,
        destination: read_text(alloc, destination)?,
        title: read_text(alloc, title)?,
    })
}

/// The text of these octets; none for `-`.
fn read_text(alloc: Global, word: &str) -> Result<Option<String>> {
    if word == "-" {
        return Ok(None);
    }
    let octets = read_octets(alloc, word)?;
    Ok(Some(String::from_str(alloc, str::from_utf8(octets.as_slice())?)?))
}

impl Texts {
    /// What a file is made of.
    fn spec(&self, file_type: u8, time: u32) -> MakeSpec<'_> {
        MakeSpec {
            name: self.name.as_deref().unwrap_or(""),
            ext: self.ext.as_deref().unwrap_or(""),
            file_type,
            time,
            source: self.source.as_deref().unwrap_or(""),
            destination: self.destination.as_deref(),
            title: self.title.as_deref(),
        }
    }
}

/// What a row prints of a file that is made.
fn file_text(alloc: Global, kind: &str, file: &FileBytes) -> Result<String> {
    match kind {
        "length" => text_of(alloc, file.len()),
        "file" => octets_text(alloc, file.as_slice()),
        "made" => shown_text(alloc, &show(alloc, file.as_slice())?),
        _ => bail!("no kind of row"),
    }
}

/// Why no file is made, and why none is made whatever the body.
fn refusal_text(alloc: Global, refusal: MakeRefusal, early: Option<MakeRefusal>) -> Result<String> {
    match early {
        Some(early) => text_of(alloc, format_args!("{refusal}; {early}")),
        None => text_of(alloc, format_args!("{refusal}; none")),
    }
}
