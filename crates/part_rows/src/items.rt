//! Rows of the items of headers.
//!
//! - `items OCTETS`: what ends the items of these octets, then each item, its id and its data in hexadecimal, and what
//!   ends them when all were taken.
//! - `header ID.. | OCTETS`: `none` if the octets are no header and body; else the header, whether it is the octets
//!   whole, the body, and the data of the first items of these ids.
//! - `table ID..`: of each id how many octets its data has, and whether it is a number, mandatory, and single.
//! - `faults`: each fault of a file, its code and its text.
//! - `sum OCTETS`: their sum, in hexadecimal.

use crate::parts::{Parts, octets_text};
use anyhow::{Result, bail};
use pfh_items::{FileFault, Header, Items, fixed_len, is_mandatory, is_number, is_single, sum16};
use row_words::{Player, kind_and_rest, read_octets, text_of, two_parts};
use std::alloc::Global;

/// Plays rows of items, each on its own.
#[derive(Drop)]
pub struct ItemRows;

impl Player for ItemRows {
    fn play(&mut self, alloc: Global, row: &str) -> Result<String> {
        let (kind, rest) = kind_and_rest(row);
        match kind {
            "items" => items(alloc, rest),
            "header" => header(alloc, rest),
            "table" => table(alloc, rest),
            "faults" => faults(alloc),
            "sum" => sum(alloc, rest),
            _ => bail!("no kind of row"),
        }
    }
}

/// `items OCTETS`
fn items(alloc: Global, text: &str) -> Result<String> {
    let octets = read_octets(alloc, text)?;
    let mut parts = Parts::new(alloc);
    put_items(alloc, octets.as_slice(), &mut parts)?;
    Ok(parts.end())
}

/// Puts what ends the items of these octets, each item, and what ends them when all were taken.
fn put_items(alloc: Global, octets: &[u8], parts: &mut Parts) -> Result<()> {
    let mut items = Items::over(octets);
    let stop = items.stop();
    parts.show(format_args!("{stop:?}"))?;
    while let Some(item) = items.next() {
        let id = item.id;
        let data = octets_text(alloc, item.bytes)?;
        parts.show(format_args!("{id:04x} {data}"))?;
    }
    let more = items.next().is_some();
    let stop = items.stop();
    parts.show(format_args!("{more} {stop:?}"))
}

/// `header ID.. | OCTETS`
fn header(alloc: Global, row: &str) -> Result<String> {
    let (ids, octets) = two_parts(row, '|')?;
    let octets = read_octets(alloc, octets)?;
    let is_whole = Header::of(octets.as_slice()).is_some();
    let Some(header) = Header::of_file(octets.as_slice()) else {
        return text_of(alloc, format_args!("none {is_whole}"));
    };
    let mut parts = Parts::new(alloc);
    put_header(alloc, &header, is_whole, ids, &mut parts)?;
    Ok(parts.end())
}

/// Puts a header, whether it is the octets whole, the body, and the data of the first items of these ids.
fn put_header(
    alloc: Global,
    header: &Header<'_>,
    is_whole: bool,
    ids: &str,
    parts: &mut Parts,
) -> Result<()> {
    parts.show_octets(header.header())?;
    let body = octets_text(alloc, header.body())?;
    parts.show(format_args!("{is_whole} {body}"))?;
    for id in ids.split_whitespace() {
        put_field(header, u16::from_str_radix(id, 16)?, parts)?;
    }
    Ok(())
}

/// Puts the data of a header's first item of this id, or `none`.
fn put_field(header: &Header<'_>, id: u16, parts: &mut Parts) -> Result<()> {
    match header.field(id) {
        Some(data) => parts.show_octets(data),
        None => parts.put("none"),
    }
}

/// `table ID..`
fn table(alloc: Global, ids: &str) -> Result<String> {
    let mut parts = Parts::new(alloc);
    for id in ids.split_whitespace() {
        let id = u16::from_str_radix(id, 16)?;
        let len = fixed_len(id);
        let (number, mandatory, single) = (is_number(id), is_mandatory(id), is_single(id));
        parts.show(format_args!("{id:02x} {len:?} {number} {mandatory} {single}"))?;
    }
    Ok(parts.end())
}

/// `faults`
fn faults(alloc: Global) -> Result<String> {
    let mut parts = Parts::new(alloc);
    for fault in [
        FileFault::NoHeader,
        FileFault::NoEndItem,
        FileFault::MissingItem,
        FileFault::BadHeader,
        FileFault::HeaderSum,
        FileFault::BodySum,
    ] {
        let code = fault.code();
        parts.show(format_args!("{code} {fault}"))?;
    }
    Ok(parts.end())
}

/// `sum OCTETS`
fn sum(alloc: Global, text: &str) -> Result<String> {
    let sum = sum16(read_octets(alloc, text)?.as_slice());
    text_of(alloc, format_args!("{sum:04x}"))
}
