//! What can be wrong with a file's header.

ghost use Rattle.std.specs.Prelude.{◌≡◌};
ghost use Rattle.pfh_items.specs.Faults.{code_of};

use thiserror::Error;

/// The rules of file headers, by what breaks them. A file's fault is the first rule in this order that it breaks.
#[derive(Clone, Copy, Debug, PartialEq, Eq, Error)]
pub enum FileFault {
    /// The file doesn't begin with AA 55.
    #[error("the file has no header")]
    NoHeader,
    /// The items don't reach an end item.
    #[error("the header has no end")]
    NoEndItem,
    /// A mandatory item is missing.
    #[error("a mandatory item is missing")]
    MissingItem,
    /// A mandatory item stands twice or has another length, file_size isn't the file's length, or body_offset isn't the
    /// header's length.
    #[error("a mandatory item stands twice, or has a wrong length or size")]
    BadHeader,
    /// header_checksum isn't the sum of the header's octets, its own two taken as zero, modulo 65,536.
    #[error("the header's checksum is wrong")]
    HeaderSum,
    /// body_checksum isn't the sum of the body's octets modulo 65,536.
    #[error("the body's checksum is wrong")]
    BodySum,
}

impl FileFault {
    /// The code by which a peer is told of the fault (FTL0 1990, error codes): 6, 7, 14, 15 or 16. Takes no memory.
    pub fn code(self) -> u8
        ensures { result ≡ code_of self }
    {
        match self {
            FileFault::NoHeader => 7,
            FileFault::NoEndItem | FileFault::BadHeader => 14,
            FileFault::MissingItem => 6,
            FileFault::HeaderSum => 15,
            FileFault::BodySum => 16,
        }
    }
}
