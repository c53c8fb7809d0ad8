//! What is printed for a step.

use anyhow::Result;
use row_words::{hex_text, text_of};
use std::alloc::Global;
use std::fmt::Display;

/// How many alike octets are written out.
const MOST_ALIKE: usize = 32;

/// `ok`, or the text of the error. Takes memory.
pub fn answer_text<E: Display + Drop>(alloc: Global, answer: Result<(), E>) -> Result<String> {
    match answer {
        Ok(()) => text_of(alloc, "ok"),
        Err(error) => text_of(alloc, error),
    }
}

/// Octets in hexadecimal, `''` if there are none. If there are more than 32, all alike, they are one octet, with its
/// count after `*`. Takes memory.
pub fn octets_text(alloc: Global, octets: &[u8]) -> Result<String> {
    match octets {
        [] => text_of(alloc, "''"),
        [first, rest @ ..] if rest.len() >= MOST_ALIKE && rest.iter().all(|octet| octet == first) =>
            {
                let count = octets.len();
                text_of(alloc, format_args!("{first:02x}*{count}"))
            }
        _ => hex_text(alloc, octets),
    }
}
