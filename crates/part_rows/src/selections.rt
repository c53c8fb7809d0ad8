//! Rows of headers, and of selections that are played over those so far.
//!
//! A row `header` and octets in hexadecimal is one header more: its place, counted from 0, is printed, or `no header`
//! if the octets aren't one. A row `select` and tokens in hexadecimal is a selection: a digit is printed for each
//! header so far, 1 if the selection matches it and else 0, and then the tokens that it writes; or the tokens' first
//! fault. A row `holds`, tokens, and the octets of a header that isn't kept says whether a selection matches it, and a
//! row `fault` and tokens has the text of their fault, or `none`.

use anyhow::{Result, bail, ensure};
use arrayvec::ArrayVec;
use pfh_items::Header;
use row_words::{Player, hex_text, kind_and_rest, read_octets, text_of, two_parts};
use selection::Selection;
use std::alloc::Global;

/// How many octets tokens have at most.
const MOST_OCTETS: usize = 2_047;

/// What the rows so far made.
#[derive(Drop)]
pub struct SelectionRows {
    alloc: Global,
    /// The octets of each header.
    headers: Vec<Vec<u8>>,
    /// The tokens that the last selection wrote.
    written: ArrayVec<u8, MOST_OCTETS>,
}

impl SelectionRows {
    /// Before the first row.
    pub fn new(alloc: Global) -> SelectionRows {
        SelectionRows {
            alloc,
            headers: Vec::new(alloc),
            written: ArrayVec::new(),
        }
    }

    /// Keeps the octets of a header, and shows its place, or that they are none.
    fn add_header(&mut self, octets: Vec<u8>) -> Result<String> {
        if Header::of(octets.as_slice()).is_none() {
            return text_of(self.alloc, "no header");
        }
        let place = self.headers.len();
        self.headers.push(octets)?;
        text_of(self.alloc, format_args!("header {place}"))
    }

    /// Shows which headers a selection matches, and the tokens that it writes; or the tokens' first fault.
    fn select(&mut self, tokens: &[u8]) -> Result<String> {
        ensure!(tokens.len() <= MOST_OCTETS, "too many octets");
        match Selection::read(tokens) {
            Ok(selection) => self.shown(&selection),
            Err(fault) => text_of(self.alloc, format_args!("{fault:?}")),
        }
    }

    /// A digit for each header, and the tokens that the selection writes, in hexadecimal.
    fn shown(&mut self, selection: &Selection) -> Result<String> {
        let digits = self.digits(selection)?;
        selection.write(&mut self.written);
        let written = hex_text(self.alloc, self.written.as_slice())?;
        text_of(self.alloc, format_args!("{digits} {written}"))
    }

    /// A digit for each header.
    fn digits(&self, selection: &Selection) -> Result<String> {
        let mut digits = String::new(self.alloc);
        for octets in self.headers.iter() {
            digits.push_str(digit(selection, octets.as_slice())?)?;
        }
        Ok(digits)
    }
}

impl Player for SelectionRows {
    fn play(&mut self, alloc: Global, row: &str) -> Result<String> {
        let (kind, rest) = kind_and_rest(row);
        match kind {
            "header" => self.add_header(hex::decode(alloc, rest)?),
            "select" => self.select(hex::decode(alloc, rest)?.as_slice()),
            "holds" => holds(alloc, rest),
            "fault" => fault(alloc, rest),
            _ => bail!("no row"),
        }
    }
}

/// `1` if the selection matches the header with these octets, and else `0`.
fn digit(selection: &Selection, octets: &[u8]) -> Result<&'static str> {
    let Some(header) = Header::of(octets) else {
        bail!("no header");
    };
    Ok(if selection.holds(&header) { "1" } else { "0" })
}

/// `holds TOKENS HEADER`
fn holds(alloc: Global, row: &str) -> Result<String> {
    let (tokens, header) = two_parts(row, ' ')?;
    let tokens = read_octets(alloc, tokens)?;
    let header = read_octets(alloc, header)?;
    holds_text(alloc, tokens.as_slice(), header.as_slice())
}

/// Whether the selection that these tokens are matches a header; or the tokens' first fault.
fn holds_text(alloc: Global, tokens: &[u8], header: &[u8]) -> Result<String> {
    ensure!(tokens.len() <= MOST_OCTETS, "too many octets");
    match Selection::read(tokens) {
        Ok(selection) => text_of(alloc, digit(&selection, header)?),
        Err(fault) => text_of(alloc, fault),
    }
}

/// `fault TOKENS`
fn fault(alloc: Global, row: &str) -> Result<String> {
    let tokens = read_octets(alloc, row)?;
    ensure!(tokens.len() <= MOST_OCTETS, "too many octets");
    match Selection::read(tokens.as_slice()) {
        Ok(_selection) => text_of(alloc, "none"),
        Err(fault) => text_of(alloc, fault),
    }
}
