//! What says that a file is complete.

ghost use Rattle.std.specs.Prelude.{◌≡◌};

use px_base::FileNumber;
use std::marker::Model;

/// Says that the entry of a number is complete. It must be spent. Contracts see it as the number.
pub struct Receipt {
    number: FileNumber,
}

impl Model for Receipt {
    ghost use Rattle.std.specs.Prelude.{ℕ};

    ghost Value = { ℕ };

    ghost view = { λ a. a.number };
}

impl Receipt {
    /// The receipt of a file that was sealed.
    pub(crate) fn of(number: FileNumber) -> Receipt
        ensures { result ≡ number }
    {
        Receipt { number }
    }

    /// The number of the complete file. Takes no memory.
    pub fn number(&self) -> FileNumber
        ensures { result ≡ self.now }
    {
        self.number
    }

    /// Spends the receipt, and gives the number of the complete file. Takes no memory.
    pub fn spend(self) -> FileNumber
        ensures { result ≡ self }
    {
        let Receipt { number } = self;
        number
    }
}
