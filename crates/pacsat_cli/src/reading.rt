//! The program's words with what they ask for, read once.

ghost use Rattle.std.specs.Prelude.{◌≡◌, IfOk, IsErrOf};
ghost use Rattle.command_words.specs.Asked.{AsksFor};
ghost use Rattle.command_words.specs.Words.{IsUsage, NamesCommand};

use command_words::{Refusal, Request, Words, read};
use std::alloc::Global;
use std::marker::Model;

/// The program's words, and what they ask for. They are read once, and whoever needs what they ask for takes it from
/// here. Contracts see them as the list of the words.
#[derive(Drop)]
pub struct ReadWords<'a> {
    words: &'a Words,
    asked: Result<Request<'a>, Refusal>,
}

impl<'a> Model for ReadWords<'a> {
    ghost use Rattle.std.specs.Prelude.{List, ℕ};
    ghost use Rattle.pacsat_cli.specs.Reading.{IsReadOf};

    ghost Value = { List (List ℕ) };

    ghost view = { λ a. a.words.now };

    ghost invariant = { λ a. IsReadOf a.words.now a.asked };
}

impl<'a> ReadWords<'a> {
    /// Reads these words. Takes memory where COMMAND is a command.
    pub fn of(alloc: Global, words: &'a Words) -> ReadWords<'a>
        ensures { result ≡ words.now }
    {
        let asked = read(alloc, words);
        ReadWords { words, asked }
    }

    /// The words.
    pub fn words(&self) -> &Words
        ensures { result.now ≡ self.now }
    {
        self.words
    }

    /// What they ask for, or why they ask for nothing: `Usage` or `OutOfMemory`, as [`command_words::read`] tells.
    pub fn asked(&self) -> &Result<Request<'a>, Refusal>
        ensures asks { IfOk result.now (AsksFor self.now) }
        ensures usage { IsErrOf result.now Refusal.Usage → IsUsage self.now }
        ensures memory { IsErrOf result.now Refusal.OutOfMemory → NamesCommand self.now }
    {
        &self.asked
    }
}
