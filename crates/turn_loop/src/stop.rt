//! Why a node stops.

ghost use Rattle.std.specs.Prelude.{◌≡◌, None};
ghost use Rattle.turn_loop.specs.Course.{stop_at_put, stop_of};
ghost use Rattle.turn_loop.specs.Stops.{stop_of_fault};

use disk_model::{DiskFault, Halt};
use file_journal::StoreFault;
use px_base::AirDown;
use thiserror::Error;

/// Why a node stopped: its turns did, or what its disk keeps wasn't recovered, and none were taken.
#[derive(Clone, Copy, Debug, PartialEq, Eq, Error)]
pub enum NodeStop {
    /// A poll failed.
    #[error("hearing failed")]
    AirRead,
    /// A text could not be said whole.
    #[error("saying failed")]
    AirWrite,
    /// The disk failed: at the recovery, where a count of its faults rose; or at a write or a sync of the turns, where
    /// the count of those rose.
    #[error("the disk failed")]
    Disk,
    /// At the recovery alone: the disk has more than 16 octets, and they don't begin as a store's.
    #[error("no store: it begins with {found:?}")]
    NotAStore {
        /// The first eight octets.
        found: [u8; 8],
    },
    /// At the recovery alone: the store is damaged.
    #[error("the store is damaged at octet {at}")]
    Damaged {
        /// 8 for the block number, else the place of the gate before a record that is none.
        at: u64,
    },
    /// As many polls were made as may be.
    #[error("as many polls were made as may be")]
    Spent,
    /// There was no memory.
    #[error("out of memory")]
    OutOfMemory,
}

impl From<Halt> for NodeStop {
    ghost from_gives = { λ why result. result ≡ stop_of why };

    fn from(why: Halt) -> NodeStop {
        match why {
            Halt::Disk => NodeStop::Disk,
            Halt::OutOfMemory => NodeStop::OutOfMemory,
        }
    }
}

/// The disk failed at a write or a sync.
impl From<DiskFault> for NodeStop {
    ghost use Rattle.turn_loop.specs.declared.stop.NodeStop.TheVariants as stop;

    ghost from_gives = { λ _ result. result ≡ stop.Disk };

    fn from(_fault: DiskFault) -> NodeStop {
        NodeStop::Disk
    }
}

/// A put failed. (A poll that failed is told as it is met.)
impl From<AirDown> for NodeStop {
    ghost from_gives = { λ down result. result ≡ stop_at_put None };

    fn from(_down: AirDown) -> NodeStop {
        NodeStop::AirWrite
    }
}

/// The recovery was refused.
impl From<StoreFault> for NodeStop {
    ghost from_gives = { λ fault result. result ≡ stop_of_fault fault };

    fn from(fault: StoreFault) -> NodeStop {
        match fault {
            StoreFault::NotAStore { found } => NodeStop::NotAStore { found },
            StoreFault::Damaged { at } => NodeStop::Damaged { at },
            StoreFault::Disk => NodeStop::Disk,
            StoreFault::OutOfMemory => NodeStop::OutOfMemory,
        }
    }
}
