//! Rows of files that are stamped.

ghost use Rattle.std.specs.Prelude.{◌<◌, IfOk};
ghost use Rattle.pfh_reader.specs.Check.{HasSums};
ghost use Rattle.pfh_writer.specs.Given.{IsFaultlessFile, IsStampedSum};

use crate::parts::{octets_text, same_text};
use crate::pieces::{cut, cut_octets};
use anyhow::{Result, bail, ensure};
use pfh_reader::{HeaderFault, Sums, check_pieces};
use pfh_writer::{stamp, stamp_pieces, stamped_sum};
use px_base::{Call, FileNumber, Moment};
use row_words::{read_octets, text_of, two_parts};
use std::alloc::Global;

/// More octets than a file may have.
const TOO_MANY: usize = 4_194_305;

/// What a file is stamped with.
#[derive(Drop)]
struct With {
    number: FileNumber,
    by: Call,
    moment: Moment,
}

/// `stamp NUMBER CALL MOMENT | FILE`
pub fn stamp_row(alloc: Global, row: &str) -> Result<String> {
    let (with, file) = two_parts(row, '|')?;
    let with = read_with(alloc, with)?;
    let mut file = read_octets(alloc, file)?;
    match sums_of(alloc, file.as_slice())? {
        Ok(sums) => stamped_text(alloc, file.as_mut_slice(), &sums, &with),
        Err(fault) => text_of(alloc, fault),
    }
}

/// The number, the call and the moment of a row.
fn read_with(alloc: Global, text: &str) -> Result<With> {
    let words = text.split_whitespace().collect::<Vec<&str>>(alloc)?;
    let [number, by, moment] = words.as_slice() else {
        bail!("no number, call and moment");
    };
    Ok(With {
        number: FileNumber::new(number.parse::<u32>()?),
        by: Call::read(by)?,
        moment: Moment::new(moment.parse::<u32>()?),
    })
}

/// What the check of a file finds.
fn sums_of(alloc: Global, file: &[u8]) -> Result<Result<Sums, HeaderFault>>
    ensures { IfOk result (λ found. IfOk found (HasSums file.now)) }
{
    ensure!(file.len() < TOO_MANY, "too many octets");
    Ok(check_pieces(cut(alloc, file, 512)?.as_slice()))
}

/// The file, stamped.
fn stamped_text(alloc: Global, file: &mut [u8], sums: &Sums, with: &With) -> Result<String>
    requires { HasSums file.old sums.now }
{
    let pieces = stamped_in_pieces(alloc, file, sums, with)?;
    stamp(file, with.number, with.by, with.moment);
    let whole = octets_text(alloc, file)?;
    same_text(pieces.as_str(), whole.as_str(), "in pieces")?;
    Ok(whole)
}

/// The file, stamped in pieces of each length.
fn stamped_in_pieces(alloc: Global, file: &[u8], sums: &Sums, with: &With) -> Result<String>
    requires { HasSums file.now sums.now }
{
    let sum = sum_with(file, sums, with);
    let first = stamped_cut(alloc, file, 1, with, sum)?;
    for len in 2..132 {
        let other = stamped_cut(alloc, file, len, with, sum)?;
        same_text(
            other.as_str(),
            first.as_str(),
            format_args!("in pieces of {len}"),
        )?;
    }
    Ok(first)
}

/// The sum of a file's header, once it is stamped.
fn sum_with(file: &[u8], sums: &Sums, with: &With) -> u16
    requires { HasSums file.now sums.now }
    ensures { IsStampedSum (record { number = with.now.number; by = with.now.by; moment = with.now.moment })
        file.now result }
{
    let (header, _) = file.split_at(sums.header_len as usize);
    stamped_sum(sums, header, with.number, with.by, with.moment)
}

/// The file, stamped in pieces of a length.
fn stamped_cut(alloc: Global, file: &[u8], len: usize, with: &With, sum: u16) -> Result<String>
    requires some { 0 < len }
    requires faultless { IsFaultlessFile file.now }
    requires sum { IsStampedSum (record { number = with.now.number; by = with.now.by; moment = with.now.moment })
        file.now sum }
{
    let mut pieces = cut_octets(alloc, file, len)?;
    stamp_pieces(
        pieces.as_mut_slice(),
        with.number,
        with.by,
        with.moment,
        sum,
    );
    let mut joined = Vec::new(alloc);
    for piece in pieces.iter() {
        joined.extend_from_slice(piece.as_slice())?;
    }
    octets_text(alloc, joined.as_slice())
}
