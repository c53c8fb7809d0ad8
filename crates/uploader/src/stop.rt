//! Why a client's command stopped.

ghost use Rattle.std.specs.Prelude.{◌≡◌};
ghost use Rattle.uploader.specs.Stops.{stop_of_fault, stop_of_load, stop_of_node};

use crate::FileSum;
use client_notes::StoreFault;
use px_base::ShelfRefusal;
use thiserror::Error;
use turn_loop::NodeStop;

/// Why a client's command stopped before it did what it says.
#[derive(Clone, Copy, Debug, PartialEq, Eq, Error)]
pub enum SendStop {
    /// The server refused the upload, the selection or the download.
    #[error("the server refused with code {code}")]
    Refused {
        /// The server's code (FTL0 1990, error codes).
        code: u8,
    },
    /// The file on the shelf, or the one that came, has a fault.
    #[error("the file has fault {code}")]
    BadFile {
        /// The code of its first fault: 6, 7, 14, 15 or 16.
        code: u8,
    },
    /// A poll failed before there was an outcome, and the air's count of those rose.
    #[error("hearing failed")]
    AirRead,
    /// A frame couldn't be said whole before there was an outcome, and the air's count of those rose.
    #[error("saying failed")]
    AirWrite,
    /// The disk of the notes failed, and a count of its faults rose. What the notes have is to be recovered anew.
    #[error("the disk failed")]
    Disk,
    /// The shelf has no such name.
    #[error("the shelf has no such name")]
    NoSuch,
    /// The last task of this server, caller and name is unfinished, and was begun with another file.
    #[error("the file changed")]
    Changed {
        /// The file of the task.
        kept: FileSum,
        /// The file on the shelf.
        given: FileSum,
    },
    /// The disk has more than 16 octets, and they don't begin as a client's notes.
    #[error("no notes: it begins with {found:?}")]
    NotAStore {
        /// The first eight octets.
        found: [u8; 8],
    },
    /// The notes are damaged.
    #[error("the notes are damaged at octet {at}")]
    Damaged {
        /// 8 for the block number, else the place of the gate before a record that is none.
        at: u64,
    },
    /// There was no memory.
    #[error("out of memory")]
    OutOfMemory,
    /// As many polls were made as may be, and there was no outcome.
    #[error("as many polls were made as may be")]
    Spent,
    /// A line couldn't be shown, and the output's count of faults rose.
    #[error("the output is down")]
    Out,
    /// The file couldn't be loaded or kept, and the shelf's count of faults rose.
    #[error("the shelf is down")]
    Shelf,
    /// The link to the server went down before there was an outcome, or the end of the air was read before.
    #[error("the link is down")]
    LinkDown,
    /// A packet came that has no row in the state, or is malformed; or the reply to it didn't fit the link.
    #[error("a strange packet of type {kind}")]
    Strange {
        /// Its type.
        kind: u8,
    },
    /// A fresh task is wanted, and 65,536 stand.
    #[error("65536 tasks stand")]
    NotesFull,
    /// The file on the shelf has more than 4,194,304 octets.
    #[error("the file is too long")]
    TooLong,
}

impl From<ShelfRefusal> for SendStop {
    ghost from_gives = { λ refusal result. result ≡ stop_of_load refusal };

    fn from(refusal: ShelfRefusal) -> SendStop {
        match refusal {
            ShelfRefusal::NoSuch => SendStop::NoSuch,
            ShelfRefusal::TooLong => SendStop::TooLong,
            ShelfRefusal::Fault => SendStop::Shelf,
            ShelfRefusal::OutOfMemory => SendStop::OutOfMemory,
        }
    }
}

impl From<StoreFault> for SendStop {
    ghost from_gives = { λ fault result. result ≡ stop_of_fault fault };

    fn from(fault: StoreFault) -> SendStop {
        match fault {
            StoreFault::NotAStore { found } => SendStop::NotAStore { found },
            StoreFault::Damaged { at } => SendStop::Damaged { at },
            StoreFault::Disk => SendStop::Disk,
            StoreFault::OutOfMemory => SendStop::OutOfMemory,
        }
    }
}

impl From<NodeStop> for SendStop {
    ghost from_gives = { λ stop result. result ≡ stop_of_node stop };

    fn from(stop: NodeStop) -> SendStop {
        match stop {
            NodeStop::AirRead => SendStop::AirRead,
            NodeStop::AirWrite => SendStop::AirWrite,
            NodeStop::Disk => SendStop::Disk,
            NodeStop::NotAStore { found } => SendStop::NotAStore { found },
            NodeStop::Damaged { at } => SendStop::Damaged { at },
            NodeStop::Spent => SendStop::Spent,
            NodeStop::OutOfMemory => SendStop::OutOfMemory,
        }
    }
}
