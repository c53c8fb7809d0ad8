//! Rows of files that are built.

use crate::parts::Parts;
use anyhow::{Result, ensure};
use pfh_writer::{HeaderBuilder, PutRefusal};
use row_words::{read_octets, three_parts, two_parts, written};
use std::alloc::Global;

/// `build NAME EXT | ITEMS | BODY`, or `size` of the same.
pub fn build(alloc: Global, row: &str, is_size: bool) -> Result<String> {
    let (names, items, body) = three_parts(row, '|')?;
    let mut parts = Parts::new(alloc);
    let builder = filled(alloc, names.trim(), items, &mut parts)?;
    finish(alloc, builder, body, is_size, &mut parts)?;
    Ok(parts.end())
}

/// A builder of a header with this name and extension, and these items.
fn filled(alloc: Global, names: &str, items: &str, parts: &mut Parts) -> Result<HeaderBuilder> {
    let mut builder = empty(alloc, names)?;
    for item in items.split(';') {
        put(alloc, &mut builder, item.trim(), parts)?;
    }
    Ok(builder)
}

/// A builder of a header with this name and extension, and all else 0.
fn empty(alloc: Global, names: &str) -> Result<HeaderBuilder> {
    let (name, ext) = two_parts(names, ' ')?;
    let (name, ext) = (octets_of(alloc, name)?, octets_of(alloc, ext)?);
    Ok(HeaderBuilder::new(alloc, name, ext, 0, 0, 0, 0)?)
}

/// This number of octets.
fn octets_of<const N: usize>(alloc: Global, text: &str) -> Result<[u8; N]> {
    let octets = read_octets(alloc, text)?;
    ensure!(octets.len() == N, "another number of octets");
    let mut found = [0; N];
    found.copy_from_slice(octets.as_slice());
    Ok(found)
}

/// Puts an item as often as a row says, and what the last put answers.
fn put(alloc: Global, builder: &mut HeaderBuilder, item: &str, parts: &mut Parts) -> Result<()> {
    if item.is_empty() {
        return Ok(());
    }
    let (id, times, data) = three_parts(item, ' ')?;
    let id = u16::from_str_radix(id, 16)?;
    let data = read_octets(alloc, written(data))?;
    let times = times.parse::<u32>()?;
    parts.show_answer(put_often(builder, id, data.as_slice(), times))
}

/// Puts an item this number of times, and what the last put answers.
fn put_often(
    builder: &mut HeaderBuilder,
    id: u16,
    data: &[u8],
    times: u32,
) -> Result<(), PutRefusal> {
    let mut answer = Ok(());
    for _ in 0..times {
        answer = builder.put(id, data);
    }
    answer
}

/// Puts the octets of the file, or its length; or why it isn't built.
fn finish(
    alloc: Global,
    builder: HeaderBuilder,
    body: &str,
    is_size: bool,
    parts: &mut Parts,
) -> Result<()> {
    let body = read_octets(alloc, body)?;
    match builder.finish(body.as_slice()) {
        Ok(file) if is_size => parts.show(file.len()),
        Ok(file) => parts.show_octets(file.as_slice()),
        Err(refusal) => parts.show(refusal),
    }
}
