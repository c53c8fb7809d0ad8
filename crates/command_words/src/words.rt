//! The words after the program's name.

ghost use Rattle.std.specs.Prelude.{◌≡◌, [], ◌∷◌, ◌++◌, map, slice_get, string_bytes, IfOk, OnOk, OnErr};
ghost use Rattle.std.specs.Option.{option_map};

use px_base::OutOfMemory;
use std::alloc::Global;
use std::marker::Model;

/// The words after the program's name. Contracts see them as a list of texts.
#[derive(Debug, Drop)]
pub struct Words {
    alloc: Global,
    words: Vec<String>,
}

impl Model for Words {
    ghost use Rattle.std.specs.Prelude.{List, ℕ, map, string_bytes};

    ghost Value = { List (List ℕ) };

    ghost view = { λ a. map string_bytes a.words.items };
}

impl Words {
    /// No words. Takes no memory yet.
    pub fn new(alloc: Global) -> Words
        ensures { result ≡ [] }
    {
        Words {
            alloc,
            words: Vec::new(alloc),
        }
    }

    /// Puts a word at the end, or changes nothing where there is no memory. Takes memory.
    pub fn add(&mut self, word: &str) -> Result<(), OutOfMemory>
        ensures ok { OnOk result (self.new ≡ self.old ++ word.now ∷ []) }
        ensures err { OnErr result (self.new ≡ self.old) }
    {
        let text = String::from_str(self.alloc, word)?;
        self.words.push(text)?;
        Ok(())
    }

    /// The same words again, or nothing where there is no memory. Takes memory.
    pub fn copy(&self) -> Result<Words, OutOfMemory>
        ensures { IfOk result (λ words. words ≡ self.now) }
    {
        Ok(Words {
            alloc: self.alloc,
            words: self.words.clone()?,
        })
    }

    /// The word at this place, counted from 0.
    pub fn get(&self, place: usize) -> Option<&str>
        ensures { option_map (λ word. word.now) result ≡ slice_get self.now place }
    {
        self.words.get(place).map(|word| word.as_str())
    }

    /// The words in order.
    pub(crate) fn as_slice(&self) -> &[String]
        ensures { map string_bytes result.now ≡ self.now }
    {
        self.words.as_slice()
    }
}
