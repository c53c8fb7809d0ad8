//! What a row prints, and the parts that a text has.

use anyhow::{Context, Result};
use std::alloc::Global;
use std::fmt::Display;

/// The text that shows this. Takes memory.
pub fn text_of<T: Display + Drop>(alloc: Global, shown: T) -> Result<String> {
    Ok(format!(in alloc; "{shown}")?)
}

/// Appends the text that shows this to the text. Takes memory.
pub fn push_shown<T: Display + Drop>(alloc: Global, text: &mut String, shown: T) -> Result<()> {
    let shown = text_of(alloc, shown)?;
    text.push_str(shown.as_str())?;
    Ok(())
}

/// Octets in hexadecimal. Takes memory.
pub fn hex_text(alloc: Global, octets: &[u8]) -> Result<String> {
    Ok(hex::encode(alloc, octets)?)
}

/// The two parts of a text before and after the first of these characters.
pub fn two_parts(text: &str, by: char) -> Result<(&str, &str)> {
    text.split_once(by).context("a part is missing")
}

/// The three parts of a text before, between and after the first two of these characters.
pub fn three_parts(text: &str, by: char) -> Result<(&str, &str, &str)> {
    let (first, rest) = two_parts(text, by)?;
    let (second, third) = two_parts(rest, by)?;
    Ok((first, second, third))
}

/// The four parts of a text before, between and after the first three of these characters.
pub fn four_parts(text: &str, by: char) -> Result<(&str, &str, &str, &str)> {
    let (first, second, rest) = three_parts(text, by)?;
    let (third, fourth) = two_parts(rest, by)?;
    Ok((first, second, third, fourth))
}

/// The first word of a row, and what comes after it; nothing if the row has one word alone.
pub fn kind_and_rest(row: &str) -> (&str, &str) {
    row.split_once(' ').unwrap_or((row, ""))
}
