//! Why a file isn't sealed.

ghost use Rattle.std.specs.Prelude.{◌≡◌};
ghost use Rattle.file_store_blocks.specs.declared.check_fault.CheckFault.TheVariants.{Disk as CheckDisk};

use disk_model::DiskFault;
use thiserror::Error;

/// Why a file whose octets are held can't be sealed.
#[derive(Clone, Copy, Debug, PartialEq, Eq, Error)]
pub enum CheckFault {
    /// The file breaks a rule of headers.
    #[error("the file has fault {code}")]
    Header {
        /// The code of the first rule that it breaks: 6, 7, 14, 15 or 16.
        code: u8,
    },
    /// A read of the disk failed, and its count of faults rose.
    #[error("the disk failed")]
    Disk,
}

impl From<DiskFault> for CheckFault {
    ghost from_gives = { λ _ fault. fault ≡ CheckDisk };

    fn from(_fault: DiskFault) -> CheckFault {
        CheckFault::Disk
    }
}
