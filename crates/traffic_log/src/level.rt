//! How much is shown.

/// How much is shown of what passes.
#[derive(Clone, Copy, Debug, PartialEq, Eq)]
pub enum Level {
    /// Nothing.
    Off,
    /// What happens: connections, uploads, downloads, refusals, ends.
    Info,
    /// That, and a line for each frame, as the command `frames` shows it.
    Frames,
}

impl Level {
    /// The level of this word: `off`, `info` or `frames`. Another word is `info`.
    pub fn of_word(word: &str) -> Level {
        match word {
            "off" => Level::Off,
            "frames" => Level::Frames,
            _ => Level::Info,
        }
    }
}
