//! Why a text was not read.

ghost use Rattle.std.specs.Prelude.{◌≡◌};
ghost use Rattle.air_schedule.specs.Causes.{fault_of_hex};
ghost use Rattle.air_schedule.specs.declared.fault.LineFault.TheVariants.{OutOfMemory as line_memory};

use hex::FromHexError;
use px_base::OutOfMemory;
use std::alloc::{AllocError, AllocFailed};
use thiserror::Error;

/// Why a text was not read as a schedule.
#[derive(Clone, Copy, Debug, PartialEq, Eq, Error)]
pub enum ScheduleFault {
    /// The text is no schedule.
    #[error("line {line} is none that may stand there")]
    BadLine {
        /// The number of the first line that can't be a schedule's, from 1 on.
        line: u64,
    },
    /// No memory was left for the events.
    #[error("out of memory")]
    OutOfMemory,
}

/// Why a line was not read.
#[derive(Clone, Copy, Debug, PartialEq, Eq)]
pub(crate) enum LineFault {
    /// It is no line that may be there.
    NoLine,
    /// No memory was left for what it says.
    OutOfMemory,
}

impl LineFault {
    /// What this is of the whole text, if it came at the line of this number.
    pub(crate) fn at(self, line: u64) -> ScheduleFault
        ensures no_line { self ≡ LineFault.NoLine → result ≡ ScheduleFault.BadLine line }
        ensures memory { self ≡ LineFault.OutOfMemory → result ≡ ScheduleFault.OutOfMemory }
    {
        match self {
            LineFault::NoLine => ScheduleFault::BadLine { line },
            LineFault::OutOfMemory => ScheduleFault::OutOfMemory,
        }
    }
}

impl From<FromHexError> for LineFault {
    ghost from_gives = { λ refused fault. fault ≡ fault_of_hex refused };

    fn from(refused: FromHexError) -> LineFault {
        match refused {
            FromHexError::OutOfMemory => LineFault::OutOfMemory,
            _ => LineFault::NoLine,
        }
    }
}

impl From<OutOfMemory> for LineFault {
    ghost from_gives = { λ _ fault. fault ≡ line_memory };

    fn from(_refused: OutOfMemory) -> LineFault {
        LineFault::OutOfMemory
    }
}

impl<T: Drop> From<AllocFailed<T>> for LineFault {
    ghost from_gives = { λ _ fault. fault ≡ line_memory };

    fn from(_refused: AllocFailed<T>) -> LineFault {
        LineFault::OutOfMemory
    }
}
