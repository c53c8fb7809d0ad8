//! The word DISK.

ghost use Rattle.std.specs.Prelude.{◌≡◌, IsTrue, false};
ghost use Rattle.command_words.specs.Disks.{IsDiskOf};
ghost use Rattle.command_words.specs.Words.{IsAir};

use crate::air::names_air;

/// The disk that the word DISK names, on which a store lies.
#[derive(Clone, Copy, Debug, PartialEq, Eq)]
pub enum DiskWord {
    /// A fresh disk in memory, `none`.
    Fresh,
    /// The file of which the word is the path.
    Named,
}

/// The disk that this word DISK names.
pub(crate) fn read_disk(word: &str) -> DiskWord
    ensures { IsDiskOf word.now result }
{
    if word == "none" {
        DiskWord::Fresh
    } else {
        DiskWord::Named
    }
}

/// Whether DISK names a file and AIR an air, as a station needs them that is to outlast the run.
pub(crate) fn is_station(disk: &str, air: &str) -> bool
    ensures some { IsTrue result → IsDiskOf disk.now DiskWord.Named × IsAir air.now }
    ensures none { result ≡ false → IsDiskOf disk.now DiskWord.Named → IsAir air.now → ⊥ }
{
    match read_disk(disk) {
        DiskWord::Named => names_air(air),
        DiskWord::Fresh => false,
    }
}
