//! Why what goes on over a disk halts.

ghost use Rattle.std.specs.Prelude.{◌≡◌};

use px_base::OutOfMemory;
use thiserror::Error;

/// Why a client's job, or a client, takes no further event over its disk. A session and a server take no memory while
/// they run, and halt by a [`DiskFault`](crate::DiskFault) alone; what a node drives answers the stop of its node.
#[derive(Clone, Copy, Debug, PartialEq, Eq, Error)]
pub enum Halt {
    /// The disk failed at a write or a sync, and its count of write faults rose. What was done on it before stays, and
    /// what failed may have been done.
    #[error("the disk failed")]
    Disk,
    /// There was no memory.
    #[error("out of memory")]
    OutOfMemory,
}

impl From<OutOfMemory> for Halt {
    ghost use Rattle.disk_model.specs.declared.halt.Halt.TheVariants as halt;

    ghost from_gives = { λ _ result. result ≡ halt.OutOfMemory };

    fn from(_refused: OutOfMemory) -> Halt {
        Halt::OutOfMemory
    }
}
