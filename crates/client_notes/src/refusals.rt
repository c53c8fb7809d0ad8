//! Why a call of the notes did not do what it was asked.

ghost use Rattle.std.specs.Prelude.{◌≡◌};
ghost use Rattle.client_notes.specs.declared.refusals.NotesRefusal.TheVariants.{Disk as disk_failed, OutOfMemory as no_memory};

use disk_model::DiskFault;
use px_base::OutOfMemory;
use thiserror::Error;

/// Why a task was not started, or octets were not noted. But for `Disk` neither the notes nor their disk was touched.
#[derive(Clone, Copy, Debug, PartialEq, Eq, Error)]
pub enum NotesRefusal {
    /// The last task of this server, caller and name is unfinished, and its file has another length or digest.
    #[error("the file changed: it had {length} octets")]
    Changed {
        /// The length that was noted, in octets.
        length: u32,
        /// The digest that was noted.
        digest: [u8; 32],
    },
    /// A fresh task is wanted, and 65,536 stand.
    #[error("65536 tasks stand")]
    Full,
    /// A write or a sync of the disk failed, and its count of write faults rose. The command may be noted or not.
    #[error("the disk failed")]
    Disk,
    /// These notes answered `Disk` before; they are to be recovered anew.
    #[error("the notes failed before")]
    Failed,
    /// No memory was left for what is to be noted.
    #[error("out of memory")]
    OutOfMemory,
}

impl From<OutOfMemory> for NotesRefusal {
    ghost from_gives = { λ _ refusal. refusal ≡ no_memory };

    fn from(_refused: OutOfMemory) -> NotesRefusal {
        NotesRefusal::OutOfMemory
    }
}

impl From<DiskFault> for NotesRefusal {
    ghost from_gives = { λ _ refusal. refusal ≡ disk_failed };

    fn from(_fault: DiskFault) -> NotesRefusal {
        NotesRefusal::Disk
    }
}
