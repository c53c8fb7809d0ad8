//! Octets, as a row writes them.

use anyhow::Result;
use row_words::push_shown;
use std::alloc::Global;

/// How many octets that are alike have a word of their own.
const ALIKE: u32 = 16;

/// The words of these octets: hexadecimal digits, two an octet; and of 16 or more that are alike one, and behind `*`
/// how often it stands.
pub fn octet_words(alloc: Global, octets: &[u8]) -> Result<String> {
    let mut text = String::new(alloc);
    let (mut last, mut count) = (0u8, 0u32);
    for octet in octets {
        if *octet != last {
            push_alike(alloc, &mut text, last, count)?;
            last = *octet;
            count = 0;
        }
        count = count.saturating_add(1);
    }
    push_alike(alloc, &mut text, last, count)?;
    with_single_blanks(alloc, text.as_str())
}

/// Puts so many octets that are alike behind the text, in a word of their own where they are many.
fn push_alike(alloc: Global, text: &mut String, octet: u8, count: u32) -> Result<()> {
    if count >= ALIKE {
        return push_shown(alloc, text, format_args!(" {octet:02x}*{count} "));
    }
    for _ in 0..count {
        push_shown(alloc, text, format_args!("{octet:02x}"))?;
    }
    Ok(())
}

/// The words of a text, parted by one blank each.
fn with_single_blanks(alloc: Global, text: &str) -> Result<String> {
    let mut words = String::new(alloc);
    for word in text.split_whitespace() {
        if !words.is_empty() {
            words.push_str(" ")?;
        }
        words.push_str(word)?;
    }
    Ok(words)
}
