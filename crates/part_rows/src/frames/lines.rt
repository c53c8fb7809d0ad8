//! Rows of the lines that show recorded KISS text.

use crate::parts::Parts;
use anyhow::Result;
use header_tool::frames::show_frames;
use px_base::MemoryOut;
use row_words::{read_numbers, read_octets, two_parts};
use std::alloc::Global;
use std::str;

/// `lines FAILING | OCTETS`
pub fn show(alloc: Global, row: &str) -> Result<String> {
    let (failing, octets) = two_parts(row, '|')?;
    let failing = read_numbers(alloc, failing)?;
    let mut out = MemoryOut::new(alloc, failing.as_slice())?;
    let mut parts = Parts::new(alloc);
    let octets = read_octets(alloc, octets)?;
    parts.show_answer(show_frames(octets.as_slice(), &mut out))?;
    put_text(&mut parts, out.shown())?;
    Ok(parts.end())
}

/// Puts how many octets these lines have, and the lines.
fn put_text(parts: &mut Parts, text: &[u8]) -> Result<()> {
    let text = str::from_utf8(text)?;
    parts.show(text.len())?;
    put_lines(parts, text)
}

/// Puts a part for each run of alike lines: how many they are, and the line.
fn put_lines(parts: &mut Parts, text: &str) -> Result<()> {
    let mut count = 0u32;
    let mut last = "";
    for line in text.lines() {
        if line != last {
            put_run(parts, count, last)?;
            count = 0;
        }
        count = count.saturating_add(1);
        last = line;
    }
    put_run(parts, count, last)
}

/// Puts a run of this number of alike lines, if there is one.
fn put_run(parts: &mut Parts, count: u32, line: &str) -> Result<()> {
    if count > 0 {
        parts.show(format_args!("{count} {line}"))?;
    }
    Ok(())
}
