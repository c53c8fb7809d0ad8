//! The octets that a row writes.

use anyhow::{Result, bail};
use std::alloc::Global;

/// The octets of these words, one after another. Takes memory.
pub fn read_octets(alloc: Global, text: &str) -> Result<Vec<u8>> {
    let mut octets = Vec::new(alloc);
    for word in text.split_whitespace() {
        push_word(alloc, &mut octets, word)?;
    }
    Ok(octets)
}

/// The octets of a text, with an LF for each `|`. Takes memory.
pub fn with_lines(alloc: Global, text: &str) -> Result<Vec<u8>> {
    let mut octets = Vec::new(alloc);
    for octet in text.bytes() {
        octets.push(if octet == b'|' { b'\n' } else { octet })?;
    }
    Ok(octets)
}

/// Appends the octets of a word to the others.
fn push_word(alloc: Global, octets: &mut Vec<u8>, word: &str) -> Result<()> {
    if let Some((piece, count)) = word.split_once('*') {
        let piece = hex::decode(alloc, piece)?;
        return push_often(octets, piece.as_slice(), count.parse::<u32>()?);
    }
    if let Some((record, count)) = word.split_once('+') {
        let record = hex::decode(alloc, record)?;
        return push_records(octets, record.as_slice(), count.parse::<u32>()?);
    }
    octets.extend_from_slice(hex::decode(alloc, word)?.as_slice())?;
    Ok(())
}

/// Appends a piece to the octets this number of times.
fn push_often(octets: &mut Vec<u8>, piece: &[u8], count: u32) -> Result<()> {
    for _ in 0..count {
        octets.extend_from_slice(piece)?;
    }
    Ok(())
}

/// Appends this number of records to the octets: this one, and others, the number of each greater by one than that of
/// the one before.
fn push_records(octets: &mut Vec<u8>, record: &[u8], count: u32) -> Result<()> {
    let [
        gate,
        kind,
        low,
        high,
        first,
        second,
        third,
        fourth,
        rest @ ..,
    ] = record
    else {
        bail!("a record without a number");
    };
    let head = [*gate, *kind, *low, *high];
    let number = u32::from_le_bytes([*first, *second, *third, *fourth]);
    for further in 0..count {
        octets.extend_from_slice(&head)?;
        octets.extend_from_slice(&number.wrapping_add(further).to_le_bytes())?;
        octets.extend_from_slice(rest)?;
    }
    Ok(())
}
