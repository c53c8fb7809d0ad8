//! Rows of KISS text both ways.
//!
//! - `read OCTETS`: the parts of the text, read whole and in pieces of 1, 2, 7 and 1,000 octets: `frame` and its
//!   octets, `dropped` or `passed`.
//! - `write OCTETS`: the text of a frame; or why there is none, and what is then in the place in which the last one was
//!   written.

use crate::parts::{Parts, octets_text, same_text};
use crate::pieces::cut;
use anyhow::{Result, bail, ensure};
use arrayvec::ArrayVec;
use kiss::{Part, parts, parts_of_pieces, write_frame};
use row_words::{Player, kind_and_rest, read_octets};
use std::alloc::Global;

/// The lengths of pieces.
const LENGTHS: [usize; 4] = [1, 2, 7, 1000];

/// Plays rows of KISS text, and keeps the text that was written last.
#[derive(Drop)]
pub struct KissRows {
    out: ArrayVec<u8, 810>,
}

impl KissRows {
    /// Before the first row.
    pub fn new() -> KissRows {
        KissRows {
            out: ArrayVec::new(),
        }
    }

    /// `write OCTETS`
    fn write(&mut self, alloc: Global, octets: &[u8]) -> Result<String> {
        let mut parts = Parts::new(alloc);
        if let Err(fault) = write_frame(octets, &mut self.out) {
            parts.show(fault)?;
        }
        parts.show_octets(self.out.as_slice())?;
        Ok(parts.end())
    }
}

impl Player for KissRows {
    fn play(&mut self, alloc: Global, row: &str) -> Result<String> {
        let (kind, octets) = kind_and_rest(row);
        let octets = read_octets(alloc, octets)?;
        match kind {
            "read" => read(alloc, octets.as_slice()),
            "write" => self.write(alloc, octets.as_slice()),
            _ => bail!("no kind of row"),
        }
    }
}

/// `read OCTETS`
fn read(alloc: Global, octets: &[u8]) -> Result<String> {
    let text = read_whole(alloc, octets)?;
    for len in LENGTHS {
        let found = read_in_pieces(alloc, octets, len)?;
        same_text(
            found.as_str(),
            text.as_str(),
            format_args!("in pieces of {len} octets"),
        )?;
    }
    Ok(text)
}

/// The parts of the text, read whole.
fn read_whole(alloc: Global, octets: &[u8]) -> Result<String> {
    parts_text(alloc, parts(alloc, octets)?.as_slice())
}

/// The same in pieces of a length.
fn read_in_pieces(alloc: Global, octets: &[u8], len: usize) -> Result<String> {
    ensure!(len > 0, "pieces without octets");
    let pieces = cut(alloc, octets, len)?;
    parts_text(alloc, parts_of_pieces(alloc, pieces.as_slice())?.as_slice())
}

/// These parts.
fn parts_text(alloc: Global, parts: &[Part]) -> Result<String> {
    let mut text = Parts::new(alloc);
    for part in parts {
        put_part(alloc, part, &mut text)?;
    }
    Ok(text.end())
}

/// Puts a part.
fn put_part(alloc: Global, part: &Part, text: &mut Parts) -> Result<()> {
    match part {
        Part::Frame(octets) => {
            let octets = octets_text(alloc, octets.as_slice())?;
            text.show(format_args!("frame {octets}"))
        }
        Part::Dropped => text.put("dropped"),
        Part::Passed => text.put("passed"),
    }
}
