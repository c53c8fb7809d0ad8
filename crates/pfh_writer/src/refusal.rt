//! Why a builder of headers refuses.

ghost use Rattle.std.specs.Prelude.{◌≡◌};
ghost use Rattle.pfh_writer.specs.declared.refusal.FinishRefusal.TheVariants.{OutOfMemory as finish_out_of_memory};
ghost use Rattle.pfh_writer.specs.declared.refusal.PutRefusal.TheVariants.{OutOfMemory as put_out_of_memory};

use px_base::OutOfMemory;
use thiserror::Error;

/// Why an item isn't taken.
#[derive(Clone, Copy, Debug, PartialEq, Eq, Error)]
pub enum PutRefusal {
    /// The item is mandatory, and the builder makes those itself.
    #[error("item {id} is one that every header has already")]
    Mandatory {
        /// The item's id, 1 to 11.
        id: u16,
    },
    /// The data hasn't the length that the id's data has, is longer than 255 octets, or is none for id 0.
    #[error("the data of item {id} hasn't a length that such an item may have")]
    BadLength {
        /// The item's id.
        id: u16,
    },
    /// An item of this id was put before, and there may be only one.
    #[error("there is an item {id} already, and there may be only one")]
    Twice {
        /// The item's id.
        id: u16,
    },
    /// No memory was left.
    #[error("out of memory")]
    OutOfMemory,
}

impl From<OutOfMemory> for PutRefusal {
    ghost from_gives = { λ _ refusal. refusal ≡ put_out_of_memory };

    fn from(_refused: OutOfMemory) -> PutRefusal {
        PutRefusal::OutOfMemory
    }
}

/// Why a file isn't built.
#[derive(Clone, Copy, Debug, PartialEq, Eq, Error)]
pub enum FinishRefusal {
    /// The header would be longer than 65,535 octets, or the file longer than 4,194,304.
    #[error("{len} octets are more than a header or a file may have")]
    TooLong {
        /// The length in octets: the header's, where that is too long, else the file's.
        len: usize,
    },
    /// No memory was left.
    #[error("out of memory")]
    OutOfMemory,
}

impl From<OutOfMemory> for FinishRefusal {
    ghost from_gives = { λ _ refusal. refusal ≡ finish_out_of_memory };

    fn from(_refused: OutOfMemory) -> FinishRefusal {
        FinishRefusal::OutOfMemory
    }
}
