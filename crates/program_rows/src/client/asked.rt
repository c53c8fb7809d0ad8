//! What the words of a row ask for, as far as its line tells of it.

use anyhow::{Context, Result, bail};
use pacsat_cli::Words;
use px_base::Call;

/// What a command is about.
#[derive(Clone, Copy)]
pub enum About<'a> {
    /// The file that `send` sends from the shelf.
    Sent {
        /// Its name on the shelf.
        name: &'a str,
    },
    /// The file that `fetch` keeps on the shelf.
    Fetched {
        /// Its number on the server.
        number: u32,
        /// Its name on the shelf.
        name: &'a str,
    },
    /// The files that `list` lists.
    Listed,
}

impl<'a> About<'a> {
    /// What these words are about: DISK, AIR, the command and its own words.
    pub fn read(words: &'a Words) -> Result<About<'a>> {
        match word(words, 2)? {
            "send" => Ok(About::Sent {
                name: word(words, 5)?,
            }),
            "fetch" => Ok(About::Fetched {
                number: word(words, 5)?.parse::<u32>()?,
                name: word(words, 6)?,
            }),
            "list" => Ok(About::Listed),
            _ => bail!("no command of a client"),
        }
    }

    /// The name on the shelf, where the command has one.
    pub fn name(&self) -> Option<&'a str> {
        match self {
            About::Sent { name } | About::Fetched { name, .. } => Some(*name),
            About::Listed => None,
        }
    }
}

/// The stations of a command.
#[derive(Clone, Copy)]
pub struct Stations {
    /// The server.
    pub server: Call,
    /// The client.
    pub me: Call,
}

impl Stations {
    /// Those of these words.
    pub fn read(words: &Words) -> Result<Stations> {
        Ok(Stations {
            server: Call::read(word(words, 3)?)?,
            me: Call::read(word(words, 4)?)?,
        })
    }
}

/// The word of this place, from 0.
fn word(words: &Words, place: usize) -> Result<&str> {
    words.get(place).context("too few words")
}
