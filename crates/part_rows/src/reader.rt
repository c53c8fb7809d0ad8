//! Rows of the check of files.
//!
//! Each row has a file's octets, `''` if there are none. They are checked as a whole, and in pieces of each length from
//! 1 to 88 octets, which must find the same: the sums of a file without fault, and its body; or the first rule that it
//! breaks.

use crate::parts::{octets_text, same_text};
use crate::pieces::cut;
use anyhow::{Result, ensure};
use pfh_reader::{HeaderFault, Sums, check, check_pieces};
use row_words::{Player, read_octets, text_of, written};
use std::alloc::Global;

/// More octets than a file may have.
const TOO_MANY: usize = 4_194_305;

/// Plays rows of files, each on its own.
#[derive(Drop)]
pub struct ReaderRows;

impl Player for ReaderRows {
    fn play(&mut self, alloc: Global, row: &str) -> Result<String> {
        let file = read_octets(alloc, written(row))?;
        check_all(alloc, file.as_slice())
    }
}

/// What the checks of a file find.
fn check_all(alloc: Global, file: &[u8]) -> Result<String> {
    let text = check_cut(alloc, file, 1)?;
    for len in 2..89 {
        let found = check_cut(alloc, file, len)?;
        same_text(
            found.as_str(),
            text.as_str(),
            format_args!("in pieces of {len}"),
        )?;
    }
    Ok(text)
}

/// What the check of a file finds that is cut into pieces of a length, together with that of the whole file.
fn check_cut(alloc: Global, file: &[u8], len: usize) -> Result<String> {
    ensure!(len > 0 && file.len() < TOO_MANY, "no pieces of a file");
    let pieces = cut(alloc, file, len)?;
    match check_pieces(pieces.as_slice()) {
        Ok(sums) => sums_text(alloc, file, &sums),
        Err(fault) => fault_text(alloc, file, fault),
    }
}

/// Sums, and what the check of the whole file finds.
fn sums_text(alloc: Global, file: &[u8], sums: &Sums) -> Result<String> {
    let whole = whole_text(alloc, file)?;
    let len = sums.header_len;
    let (body, header) = (sums.body_sum, sums.header_sum);
    text_of(
        alloc,
        format_args!("{len} {body:04x} {header:04x}; {whole}"),
    )
}

/// A fault, which the check of the whole file has to find too.
fn fault_text(alloc: Global, file: &[u8], fault: HeaderFault) -> Result<String> {
    let whole = whole_text(alloc, file)?;
    let found = text_of(alloc, fault)?;
    same_text(found.as_str(), whole.as_str(), "in pieces")?;
    Ok(whole)
}

/// The body of a file; or the first rule that it breaks.
fn whole_text(alloc: Global, file: &[u8]) -> Result<String> {
    match check(file) {
        Ok(header) => octets_text(alloc, header.body()),
        Err(fault) => text_of(alloc, fault),
    }
}
