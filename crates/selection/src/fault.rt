//! What can be wrong with the tokens of a selection.

use thiserror::Error;

/// The first fault of a selection's tokens, from left to right. A place is that of a token's first octet, counted from 0.
#[derive(Clone, Copy, Debug, PartialEq, Eq, Error)]
pub enum SelFault {
    /// There is no token.
    #[error("there is no token")]
    Empty,
    /// 64 tokens are followed by more.
    #[error("at octet {at} more than 64 tokens")]
    Many {
        /// The place of the 65th.
        at: usize,
    },
    /// A token begins with an octet that is none's first.
    #[error("at octet {at} an unknown token")]
    BadOp {
        /// The token's place.
        at: usize,
    },
    /// The octets end within a comparison.
    #[error("at octet {at} a comparison that isn't whole")]
    Cut {
        /// The comparison's place.
        at: usize,
    },
    /// An operator has too few operands.
    #[error("at octet {at} an operator with too few operands")]
    Few {
        /// The operator's place.
        at: usize,
    },
    /// More than one operand is left at the end.
    #[error("{count} operands are left")]
    Left {
        /// How many are left.
        count: usize,
    },
}
