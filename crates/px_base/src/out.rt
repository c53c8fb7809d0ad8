//! Where the program shows its text.

ghost use Rattle.std.specs.Prelude.{ℕ, List, Option, OnOk, OnErr};
ghost use Rattle.px_base.specs.Outside.{Gains, GainsPrefix, HasCause};

use thiserror::Error;

/// Text could not be shown, and the count of faults rose.
#[derive(Clone, Copy, Debug, PartialEq, Eq, Error)]
#[error("the output is down")]
pub struct OutDown;

/// Where text is shown. It may tell what was shown so far, and counts its faults, up to 2^64 - 1.
pub trait Out {
    /// The octets shown so far, where they are told.
    ghost shown: { Self → Option (List ℕ) };

    /// How often showing octets failed.
    ghost faults: { Self → ℕ };

    /// Shows all of these octets; after a fault some prefix of them was shown.
    fn put(&mut self, bytes: &[u8]) -> Result<(), OutDown>
        ensures ok { OnOk result (Gains (shown self.old) (shown self.new) bytes.now) }
        ensures err { OnErr result (GainsPrefix (shown self.old) (shown self.new) bytes.now) }
        ensures faults { HasCause (faults self.old) (faults self.new) result };
}
