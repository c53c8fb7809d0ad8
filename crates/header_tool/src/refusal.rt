//! Why a file isn't made.

ghost use Rattle.std.specs.Prelude.{◌≡◌};
ghost use Rattle.header_tool.specs.declared.refusal.MakeRefusal.TheVariants.{OutOfMemory as make_out_of_memory};

use px_base::OutOfMemory;
use thiserror::Error;

/// Why a file isn't made, by the first of the causes in this order.
#[derive(Clone, Copy, Debug, PartialEq, Eq, Error)]
pub enum MakeRefusal {
    /// The name hasn't 1 to 8 characters, or one of them isn't printed ASCII or a blank.
    #[error("a name has 1 to 8 printed characters")]
    BadName,
    /// The extension has more than 3 characters, or one of them isn't printed ASCII or a blank.
    #[error("an extension has at most 3 printed characters")]
    BadExt,
    /// The source, the destination or the title has more than 255 octets.
    #[error("a source, a destination or a title has at most 255 octets")]
    LongText,
    /// The file would be longer than 4,194,304 octets.
    #[error("{len} octets are more than a file may have")]
    TooLong {
        /// The length that it would have, in octets.
        len: usize,
    },
    /// No memory was left.
    #[error("out of memory")]
    OutOfMemory,
}

impl From<OutOfMemory> for MakeRefusal {
    ghost from_gives = { λ _ refusal. refusal ≡ make_out_of_memory };

    fn from(_refused: OutOfMemory) -> MakeRefusal {
        MakeRefusal::OutOfMemory
    }
}
