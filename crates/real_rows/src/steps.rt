//! The steps of a row.

use anyhow::Result;
use std::alloc::Global;

/// What makes the steps of a row, one after another.
pub trait Steps<'a> {
    /// Makes a step of these words, and gives what is printed for it. Takes memory.
    fn make(&mut self, alloc: Global, words: &[&'a str]) -> Result<String>;
}

/// Makes the steps of a row, which are separated by `;`, and gives what is printed for them, separated by `; `. Takes
/// memory.
pub fn make_steps<'a, S: Steps<'a>>(alloc: Global, steps: &mut S, row: &'a str) -> Result<String> {
    let mut text = String::new(alloc);
    for step in row.split(';') {
        let words = step.split_whitespace().collect::<Vec<&str>>(alloc)?;
        let shown = steps.make(alloc, words.as_slice())?;
        if !text.is_empty() {
            text.push_str("; ")?;
        }
        text.push_str(shown.as_str())?;
    }
    Ok(text)
}
