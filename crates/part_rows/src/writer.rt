//! Rows of the building and the stamping of files.
//!
//! - `build NAME EXT | ITEMS | BODY`: a header of a name and an extension, each in octets, with these items, and all
//!   else 0. An item is its id in hexadecimal, how often it is put, and its data; items are separated by `;`. What each
//!   put answers is printed, of an item that is put often the last; then the file, or why it isn't built.
//! - `size NAME EXT | ITEMS | BODY`: the same, but of a file its length.
//! - `stamp NUMBER CALL MOMENT | FILE`: the file, stamped as a whole, and in pieces of each length from 1 to 131, which
//!   must give the same; or its fault.
//! - `short FILE`: the short form of a file's header; or the file's fault.
//! - `texts`: the texts of refusals because there is no memory.

mod building;
mod stamping;

use crate::parts::octets_text;
use anyhow::{Result, bail};
use pfh_reader::check;
use pfh_writer::{FinishRefusal, PutRefusal, short_form};
use row_words::{Player, kind_and_rest, read_octets, text_of};
use std::alloc::Global;

/// Plays rows of files that are built or stamped, each on its own.
#[derive(Drop)]
pub struct WriterRows;

impl Player for WriterRows {
    fn play(&mut self, alloc: Global, row: &str) -> Result<String> {
        let (kind, rest) = kind_and_rest(row);
        match kind {
            "build" => building::build(alloc, rest, false),
            "size" => building::build(alloc, rest, true),
            "stamp" => stamping::stamp_row(alloc, rest),
            "short" => short(alloc, rest),
            "texts" => texts(alloc),
            _ => bail!("no kind of row"),
        }
    }
}

/// `short FILE`
fn short(alloc: Global, text: &str) -> Result<String> {
    let file = read_octets(alloc, text)?;
    match check(file.as_slice()) {
        Ok(header) => octets_text(alloc, short_form(&header).as_slice()),
        Err(fault) => text_of(alloc, fault),
    }
}

/// `texts`
fn texts(alloc: Global) -> Result<String> {
    let (put, finish) = (PutRefusal::OutOfMemory, FinishRefusal::OutOfMemory);
    text_of(alloc, format_args!("{put}; {finish}"))
}
