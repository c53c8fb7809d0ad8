//! What a row prints: a part for each of its events, which has words.

use anyhow::Result;
use std::alloc::Global;

/// The parts so far, each ended by `; `.
#[derive(Drop)]
pub struct Shown {
    text: String,
    /// Whether the part under way has no word yet.
    is_empty: bool,
}

impl Shown {
    /// No parts.
    pub fn new(alloc: Global) -> Shown {
        Shown {
            text: String::new(alloc),
            is_empty: true,
        }
    }

    /// Puts a word into the part under way.
    pub fn put(&mut self, word: &str) -> Result<()> {
        if !self.is_empty {
            self.text.push_str(" ")?;
        }
        self.is_empty = false;
        self.text.push_str(word)?;
        Ok(())
    }

    /// Ends the part under way; `-` means no words.
    pub fn end_part(&mut self) -> Result<()> {
        self.text
            .push_str(if self.is_empty { "-; " } else { "; " })?;
        self.is_empty = true;
        Ok(())
    }

    /// The parts so far, and the words of the one under way.
    pub fn text(&self) -> &str {
        self.text.as_str()
    }
}
