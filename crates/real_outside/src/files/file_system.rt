//! The files of the system, as they are asked for.

ghost use Rattle.std.specs.Prelude.{◌∷◌, [], ℕ, List, Option, length};
ghost use Rattle.px_base.specs.Outside.{Grows};
ghost use Rattle.real_outside.specs.Files.{file_answer, octets_read, path_answer, refusal};
ghost use Rattle.real_outside.specs.Moves.{Moves};
ghost use Rattle.real_outside.specs.declared.files.file_call.FileCall.{FileCall};

use super::file_call::Found;
use crate::system_error::SystemError;
use std::alloc::Global;
use std::io::Read;

/// The files of a system, with each call that reaches them. The calls may be observable: in the form in memory they
/// are, in the real one they aren't. A call that is refused says why.
pub trait FileSystem {
    /// A file that was opened for reading and writing. It is closed when it is dropped, and its lock is free again.
    type File: Drop;

    /// What was opened for reading alone.
    type Reader: Read + Drop;

    /// The calls that reached the files so far, if they can be observed.
    ghost calls: { Self → Option (List FileCall) };

    /// The number of a file.
    ghost number: { Self.File → ℕ };

    /// The place from which on no write to a file may begin: the limit on the sizes of files.
    fn limit(&mut self) -> u64
        ensures { Grows (calls self.old) (calls self.new) (FileCall.Limit result ∷ []) };

    /// Opens the file at this path for reading and writing, as it is; if nothing is there, it is made.
    fn open(&mut self, path: &str) -> Result<Self::File, SystemError>
        ensures { Grows (calls self.old) (calls self.new) (FileCall.Open path.now (file_answer number result) ∷ []) };

    /// Takes the lock of a file; if another opened file holds it, that is refused.
    fn lock(&mut self, file: &Self::File) -> Result<(), SystemError>
        ensures { Grows (calls self.old) (calls self.new) (FileCall.Lock (number file.now) result ∷ []) };

    /// The length of a file: the place of its end.
    fn length(&mut self, file: &Self::File) -> Result<u64, SystemError>
        ensures { Grows (calls self.old) (calls self.new) (FileCall.Length (number file.now) result ∷ []) };

    /// Puts the first octets of a file from this place on at the beginning of `room`, and says how many: at most as
    /// many as the room has, and none if the file ends at that place or before it.
    fn read_at(&mut self, file: &Self::File, at: u64, room: &mut [u8]) -> Result<usize, SystemError>
        ensures moves { Moves (calls self.old) (calls self.new)
            (FileCall.Read (number file.now) at (length room.old) (octets_read result room.new)) (length room.old)
            result };

    /// Writes the first of these octets to a file at this place, and says how many.
    fn write_at(&mut self, file: &Self::File, at: u64, bytes: &[u8]) -> Result<usize, SystemError>
        ensures moves { Moves (calls self.old) (calls self.new) (FileCall.Write (number file.now) at bytes.now result)
            (length bytes.now) result };

    /// Takes all octets of a file away.
    fn cut(&mut self, file: &Self::File) -> Result<(), SystemError>
        ensures { Grows (calls self.old) (calls self.new) (FileCall.Cut (number file.now) result ∷ []) };

    /// Sets the bits of a file that say who may read, write and run it.
    fn set_mode(&mut self, file: &Self::File, mode: u32) -> Result<(), SystemError>
        ensures { Grows (calls self.old) (calls self.new) (FileCall.SetMode (number file.now) mode result ∷ []) };

    /// Keeps the octets of a file, and its length, through a loss of power.
    fn sync(&mut self, file: &Self::File) -> Result<(), SystemError>
        ensures { Grows (calls self.old) (calls self.new) (FileCall.Sync (number file.now) result ∷ []) };

    /// Keeps the names in the folder at this path through a loss of power.
    fn sync_folder(&mut self, path: &str) -> Result<(), SystemError>
        ensures { Grows (calls self.old) (calls self.new) (FileCall.SyncFolder path.now result ∷ []) };

    /// What is at this path, at which a link is not followed.
    fn look(&mut self, path: &str) -> Result<Found, SystemError>
        ensures { Grows (calls self.old) (calls self.new) (FileCall.Look path.now result ∷ []) };

    /// The path to which this one leads, on which there is no link. Takes memory.
    fn resolve(&mut self, alloc: Global, path: &str) -> Result<String, SystemError>
        ensures { Grows (calls self.old) (calls self.new) (FileCall.Resolve path.now (path_answer result) ∷ []) };

    /// Moves what is at the first path to the other one, in place of what was there. Two files are open still, with
    /// their locks: the one that is moved, and the one that it replaces; if there is none, the first one twice.
    fn rename(
        &mut self,
        file: &Self::File,
        held: &Self::File,
        from: &str,
        to: &str,
    ) -> Result<(), SystemError>
        ensures { Grows (calls self.old) (calls self.new)
            (FileCall.Rename (number file.now) (number held.now) from.now to.now result ∷ []) };

    /// Takes the name at this path away.
    fn remove(&mut self, path: &str) -> Result<(), SystemError>
        ensures { Grows (calls self.old) (calls self.new) (FileCall.Remove path.now result ∷ []) };

    /// Writes all of these octets, one after the other, to what is at this path, as a pipe or a terminal takes them.
    fn pour(&mut self, path: &str, bytes: &[u8]) -> Result<(), SystemError>
        ensures { Grows (calls self.old) (calls self.new) (FileCall.Pour path.now bytes.now result ∷ []) };

    /// Opens what is at this path for reading alone.
    fn open_to_read(&mut self, path: &str) -> Result<Self::Reader, SystemError>
        ensures { Grows (calls self.old) (calls self.new) (FileCall.OpenToRead path.now (refusal result) ∷ []) };
}
