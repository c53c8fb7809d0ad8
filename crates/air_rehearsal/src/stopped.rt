//! Why a rehearsal isn't played to its end.

ghost use Rattle.std.specs.Prelude.{◌≡◌, ◌≤◌, length, ⊤};
ghost use Rattle.air_rehearsal.specs.Breaches.{breach_words, place_of_breach, stop_at};

use crate::rehearsing::RehearseStop;
use client_notes::StoreFault;
use pfh_writer::PutRefusal;
use px_base::OutOfMemory;
use std::alloc::{AllocError, AllocFailed};
use std::fmt;

/// What was found in a rehearsal that never should be: data that is lost, a call of a disk that failed though nothing
/// was armed, or a step of the rehearsal itself that isn't the world's.
#[derive(Clone, Copy, Debug, PartialEq, Eq)]
pub enum Breach {
    /// The content of the server's disk is no store.
    NoStore,
    /// The server's store is damaged.
    StoreDamaged {
        /// 8 for the block number, else the place of the gate, in octets.
        at: u64,
    },
    /// The disk failed while the server's store was recovered, and nothing was armed.
    StoreDisk,
    /// The content of a client's disk is no notes.
    NoNotes,
    /// A client's notes are damaged.
    NotesDamaged {
        /// 8 for the block number, else the place of the gate, in octets.
        at: u64,
    },
    /// The disk failed while a client's notes were recovered, and nothing was armed.
    NotesDisk,
    /// A call of the server's disk failed in an event, and nothing was armed.
    ServerDisk,
    /// A call of a client's disk failed in an event, and nothing was armed.
    ClientDisk,
    /// The octets of an acknowledged file aren't read from the server's disk at the end.
    FileUnread,
    /// The task of an upload isn't begun as a fresh one, or isn't the one that was unfinished.
    NoTask,
    /// The client of an event, its transmission or its disk isn't there.
    NoClient,
    /// A client may not do what an event asks of it.
    NotAllowed,
    /// A file isn't made, or a call isn't read, by this program's own rule.
    NotMade,
}

impl Breach {
    /// What was found, in plain words; its place comes after them, where it has one.
    pub fn words(&self) -> &'static str
        ensures words { result.now ≡ breach_words self.now }
        ensures few { length result.now ≤ 60 }
    {
        match self {
            Breach::NoStore => "the server's store isn't recovered: no store",
            Breach::StoreDamaged { .. } => "the server's store isn't recovered: damaged at",
            Breach::StoreDisk => "the server's store isn't recovered: its disk failed",
            Breach::NoNotes => "a client's notes aren't recovered: no notes",
            Breach::NotesDamaged { .. } => "a client's notes aren't recovered: damaged at",
            Breach::NotesDisk => "a client's notes aren't recovered: their disk failed",
            Breach::ServerDisk => "a call of the server's disk failed",
            Breach::ClientDisk => "a call of a client's disk failed",
            Breach::FileUnread => "a read of the server's disk failed",
            Breach::NoTask => "a task isn't found",
            Breach::NoClient => "a client or its disk isn't found",
            Breach::NotAllowed => "a client may not do what is asked",
            Breach::NotMade => "a file or a call isn't made",
        }
    }

    /// The place of the damage in octets, if it is damage.
    pub fn place(&self) -> Option<u64>
        ensures { result ≡ place_of_breach self.now }
    {
        match self {
            Breach::StoreDamaged { at } | Breach::NotesDamaged { at } => Some(*at),
            _ => None,
        }
    }
}

impl fmt::Display for Breach {
    fn fmt<W: fmt::Write>(&self, f: &mut fmt::Formatter<W>) -> fmt::Result {
        f.write_str(self.words())?;
        match self.place() {
            Some(at) => write!(f, " {at}"),
            None => Ok(()),
        }
    }
}

/// Why a call of the rehearsal failed.
#[derive(Clone, Copy, Debug, PartialEq, Eq)]
pub(crate) enum Stopped {
    /// No memory was left, here or for a disk in memory.
    OutOfMemory,
    /// This was found.
    Broken(Breach),
}

impl Stopped {
    /// The end of the rehearsal, in the event of this line.
    pub(crate) fn at(self, line: u64) -> RehearseStop
        ensures { result ≡ stop_at line self }
    {
        match self {
            Stopped::OutOfMemory => RehearseStop::OutOfMemory,
            Stopped::Broken(what) => RehearseStop::Broken { line, what },
        }
    }

    /// A recovery of the server's store was refused so.
    pub(crate) fn of_store(fault: StoreFault) -> Stopped {
        match fault {
            StoreFault::NotAStore { .. } => Stopped::Broken(Breach::NoStore),
            StoreFault::Damaged { at } => Stopped::Broken(Breach::StoreDamaged { at }),
            StoreFault::Disk => Stopped::Broken(Breach::StoreDisk),
            StoreFault::OutOfMemory => Stopped::OutOfMemory,
        }
    }

    /// A recovery of a client's notes was refused so.
    pub(crate) fn of_notes(fault: StoreFault) -> Stopped {
        match fault {
            StoreFault::NotAStore { .. } => Stopped::Broken(Breach::NoNotes),
            StoreFault::Damaged { at } => Stopped::Broken(Breach::NotesDamaged { at }),
            StoreFault::Disk => Stopped::Broken(Breach::NotesDisk),
            StoreFault::OutOfMemory => Stopped::OutOfMemory,
        }
    }
}

impl From<PutRefusal> for Stopped {
    ghost from_gives = { λ _ _. ⊤ };

    fn from(refusal: PutRefusal) -> Stopped {
        match refusal {
            PutRefusal::OutOfMemory => Stopped::OutOfMemory,
            _ => Stopped::Broken(Breach::NotMade),
        }
    }
}

impl From<OutOfMemory> for Stopped {
    ghost use Rattle.air_rehearsal.specs.declared.stopped.Stopped.TheVariants as stopped;

    ghost from_gives = { λ _ result. result ≡ stopped.OutOfMemory };

    fn from(_refused: OutOfMemory) -> Stopped {
        Stopped::OutOfMemory
    }
}

impl From<AllocError> for Stopped {
    ghost use Rattle.air_rehearsal.specs.declared.stopped.Stopped.TheVariants as stopped;

    ghost from_gives = { λ _ result. result ≡ stopped.OutOfMemory };

    fn from(_refused: AllocError) -> Stopped {
        Stopped::OutOfMemory
    }
}

impl<T: Drop> From<AllocFailed<T>> for Stopped {
    ghost use Rattle.air_rehearsal.specs.declared.stopped.Stopped.TheVariants as stopped;

    ghost from_gives = { λ _ result. result ≡ stopped.OutOfMemory };

    fn from(_refused: AllocFailed<T>) -> Stopped {
        Stopped::OutOfMemory
    }
}
