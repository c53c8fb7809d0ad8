//! What the check of a file finds.

ghost use Rattle.std.specs.Prelude.{◌≡◌};
ghost use Rattle.pfh_items.specs.Faults.{code_of};

use pfh_items::FileFault;
use thiserror::Error;

/// The first rule of file headers that a file breaks, by the code that a peer is told (FTL0 1990, error codes).
#[derive(Clone, Copy, Debug, PartialEq, Eq, Error)]
#[error("the file has fault {code}")]
pub struct HeaderFault {
    /// 7: it doesn't begin with AA 55. 14: its items don't reach an end item; or each mandatory item stands, and one
    /// twice or with another length, or file_size or body_offset is wrong. 6: a mandatory item is missing. 15: the
    /// header's checksum is wrong. 16: the body's checksum is wrong.
    pub code: u8,
}

impl From<FileFault> for HeaderFault {
    ghost from_gives = { λ fault made. made.code ≡ code_of fault };

    fn from(fault: FileFault) -> HeaderFault {
        HeaderFault { code: fault.code() }
    }
}
