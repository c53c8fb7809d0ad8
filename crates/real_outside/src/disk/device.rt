//! The device that a real disk uses.

ghost use Rattle.std.specs.Prelude.{◌≡◌, ◌∷◌, [], List, Option, length};
ghost use Rattle.px_base.specs.Outside.{Grows};
ghost use Rattle.real_outside.specs.declared.disk.device.DeviceCall.{DeviceCall};
ghost use Rattle.real_outside.specs.Files.{octets_read};
ghost use Rattle.real_outside.specs.Moves.{Moves};

use crate::system_error::SystemError;
use px_base::FileBytes;
use thiserror::Error;

/// A call of a device failed.
#[derive(Clone, Copy, Debug, PartialEq, Eq, Error)]
#[error("the device failed")]
pub struct DeviceDown {
    /// Why the system refused it.
    pub error: SystemError,
}

impl From<SystemError> for DeviceDown {
    ghost from_gives = { λ error down. down ≡ record { error = error } };

    /// The device failed, since the system refused the call.
    fn from(error: SystemError) -> DeviceDown
        ensures { result ≡ record { error = error } }
    {
        DeviceDown { error }
    }
}

/// A call that reached a device, with what it answered.
#[derive(Debug, Drop)]
pub enum DeviceCall {
    /// It was asked for its length.
    Len {
        answer: Result<u64, DeviceDown>,
    },
    /// It was asked for this number of octets from this place on, and gave these.
    Read {
        at: u64,
        count: usize,
        answer: Result<FileBytes, DeviceDown>,
    },
    /// It was given these octets to write at this place, and wrote this number of them.
    Write {
        at: u64,
        bytes: FileBytes,
        answer: Result<usize, DeviceDown>,
    },
    /// It was to keep all that was written, and its length.
    Sync {
        answer: Result<(), DeviceDown>,
    },
}

/// Octets at places, as a file has them. Reading and writing may be short, as those of a file are.
///
/// The calls that reached a device may be observable: those of the form in memory are, those of a real one aren't. What
/// a failed call did to the octets is open.
pub trait Device {
    /// The calls that reached it so far, if they can be observed.
    ghost calls: { Self → Option (List DeviceCall) };

    /// The number of octets.
    fn len(&mut self) -> Result<u64, DeviceDown>
        ensures { Grows (calls self.old) (calls self.new) (DeviceCall.Len result ∷ []) };

    /// Puts the first octets from this place on at the beginning of `room`, and says how many: at most as many as the
    /// room has, and none if the device ends at that place or before it.
    fn read(&mut self, at: u64, room: &mut [u8]) -> Result<usize, DeviceDown>
        ensures moves { Moves (calls self.old) (calls self.new)
            (DeviceCall.Read at (length room.old) (octets_read result room.new)) (length room.old) result };

    /// Writes the first of these octets at this place, and says how many.
    fn write(&mut self, at: u64, bytes: &[u8]) -> Result<usize, DeviceDown>
        ensures moves { Moves (calls self.old) (calls self.new) (DeviceCall.Write at bytes.now result)
            (length bytes.now) result };

    /// Keeps all that was written, and the length, through a loss of power.
    fn sync(&mut self) -> Result<(), DeviceDown>
        ensures { Grows (calls self.old) (calls self.new) (DeviceCall.Sync result ∷ []) };
}
