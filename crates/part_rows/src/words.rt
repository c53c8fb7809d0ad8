//! Rows of what rows are.
//!
//! - `line LINE`: whether this line is a row.
//! - `word WORD`: the octets that this word is read as, in hexadecimal.
//! - `words TEXT`: the words of a row, each in hexadecimal.
//! - `numbers TEXT`: the numbers of a row; or why they are none.

use crate::parts::{Parts, octets_text};
use anyhow::{Result, bail};
use row_words::{Player, is_row, kind_and_rest, read_numbers, read_words, text_of, written};
use std::alloc::Global;

/// The most words of a row that are shown.
const MOST_WORDS: usize = 1_000;

/// Plays rows of words, each on its own.
#[derive(Drop)]
pub struct WordRows;

impl Player for WordRows {
    fn play(&mut self, alloc: Global, row: &str) -> Result<String> {
        let (kind, text) = kind_and_rest(row);
        match kind {
            "line" => text_of(alloc, is_row(text)),
            "word" => octets_text(alloc, written(text).as_bytes()),
            "words" => words(alloc, text),
            "numbers" => numbers(alloc, text),
            _ => bail!("no kind of row"),
        }
    }
}

/// `words TEXT`
fn words(alloc: Global, text: &str) -> Result<String> {
    let words = read_words(alloc, text)?;
    let mut parts = Parts::new(alloc);
    for place in 0..MOST_WORDS {
        let Some(word) = words.get(place) else {
            break;
        };
        parts.show_octets(word.as_bytes())?;
    }
    Ok(parts.end())
}

/// `numbers TEXT`
fn numbers(alloc: Global, text: &str) -> Result<String> {
    let Ok(numbers) = read_numbers(alloc, text) else {
        return text_of(alloc, "no numbers");
    };
    let mut parts = Parts::new(alloc);
    for number in numbers.iter() {
        parts.show(number)?;
    }
    Ok(parts.end())
}
