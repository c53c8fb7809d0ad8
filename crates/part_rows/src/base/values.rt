//! Rows of calls, of numbers and of a file's octets.

use anyhow::{Result, ensure};
use px_base::{Call, FileBytes, OutOfMemory, ShelfRefusal, le16, le32, read_call, write_call};
use row_words::{hex_text, read_octets, text_of, two_parts, written};
use std::alloc::Global;

/// `call TEXT`
pub fn call(alloc: Global, text: &str) -> Result<String> {
    match Call::read(written(text)) {
        Ok(call) => call_text(alloc, call),
        Err(fault) => text_of(alloc, fault),
    }
}

/// `octets OCTETS`
pub fn octets(alloc: Global, text: &str) -> Result<String> {
    match read_call(read_octets(alloc, text)?.as_slice()) {
        Some(call) => call_text(alloc, call),
        None => text_of(alloc, "no call"),
    }
}

/// A call: its text, its characters, its SSID and its octets.
fn call_text(alloc: Global, call: Call) -> Result<String> {
    let chars = hex::encode(alloc, call.chars.as_slice())?;
    let ssid = call.ssid;
    let octets = hex::encode(alloc, write_call(&call).as_slice())?;
    text_of(alloc, format_args!("{call} {chars} {ssid} {octets}"))
}

/// The place and the octets of a row.
fn at(alloc: Global, text: &str) -> Result<(usize, Vec<u8>)> {
    let (at, octets) = two_parts(text, ' ')?;
    Ok((at.parse::<usize>()?, read_octets(alloc, octets)?))
}

/// `le16 AT OCTETS`
pub fn two(alloc: Global, text: &str) -> Result<String> {
    let (at, octets) = at(alloc, text)?;
    let len = octets.len();
    ensure!(at <= len && 2 <= len - at, "no two octets");
    let number = le16(octets.as_slice(), at);
    text_of(alloc, format_args!("{number:04x}"))
}

/// `le32 AT OCTETS`
pub fn four(alloc: Global, text: &str) -> Result<String> {
    let (at, octets) = at(alloc, text)?;
    let len = octets.len();
    ensure!(at <= len && 4 <= len - at, "no four octets");
    let number = le32(octets.as_slice(), at);
    text_of(alloc, format_args!("{number:08x}"))
}

/// `file OCTETS..`
pub fn file(alloc: Global, text: &str) -> Result<String> {
    let mut file = FileBytes::new(alloc);
    let is_empty = file.is_empty();
    append_all(alloc, &mut file, text)?;
    let len = file.len();
    let octets = copied_text(alloc, file.as_slice())?;
    text_of(alloc, format_args!("{is_empty} {len} {octets}"))
}

/// Appends the octets of each word.
fn append_all(alloc: Global, file: &mut FileBytes, text: &str) -> Result<()> {
    for word in text.split_whitespace() {
        let octets = hex::decode(alloc, word)?;
        file.append(octets.as_slice())?;
    }
    Ok(())
}

/// The octets of a copy.
fn copied_text(alloc: Global, octets: &[u8]) -> Result<String> {
    let copy = FileBytes::copy_of(alloc, octets)?.into_vec();
    hex_text(alloc, FileBytes::from_vec(copy).as_slice())
}

/// `memory`
pub fn memory(alloc: Global) -> Result<String> {
    let refusal = ShelfRefusal::OutOfMemory;
    text_of(alloc, format_args!("{OutOfMemory}; {refusal}"))
}
