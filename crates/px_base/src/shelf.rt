//! The shelf: contents under names, as files in a folder.

ghost use Rattle.std.specs.Prelude.{◌≡◌, ℕ, Option, OnOk, OnErr};
ghost use Rattle.px_base.specs.Outside.{HasCause};
ghost use Rattle.px_base.specs.Shelves.{HasLoadCause, Holding, IsWithin, Keeps, KeepsOthers, Loads};

use crate::FileBytes;
use std::alloc::Global;
use thiserror::Error;

/// Why no content was loaded. What the shelf holds is as before.
#[derive(Clone, Copy, Debug, PartialEq, Eq, Error)]
pub enum ShelfRefusal {
    /// The shelf has no such name.
    #[error("the shelf has no such name")]
    NoSuch,
    /// The content is longer than what was asked for.
    #[error("the content is longer than asked for")]
    TooLong,
    /// The call failed, and the shelf's count of faults rose.
    #[error("the shelf is down")]
    Fault,
    /// There was no memory for the content.
    #[error("out of memory")]
    OutOfMemory,
}

/// Content could not be kept, and the shelf's count of faults rose.
#[derive(Clone, Copy, Debug, PartialEq, Eq, Error)]
#[error("the shelf is down")]
pub struct ShelfDown;

/// Contents under names.
///
/// A shelf may tell what it holds; the form in memory does, a real one doesn't. It counts its faults, up to
/// 2^64 - 1, and answers `Fault` or `ShelfDown` only where the count rose in that call.
pub trait Shelf {
    /// What is held under which names, where it is told.
    ghost held: { Self → Option Holding };

    /// How often a call failed.
    ghost faults: { Self → ℕ };

    /// The content of this name, of at most `most` octets. Takes memory. `NoSuch` exactly where the shelf has no such
    /// name, `TooLong` exactly where its content is longer, but for a fault and want of memory. What is held stays.
    fn load(&mut self, alloc: Global, name: &str, most: usize) -> Result<FileBytes, ShelfRefusal>
        ensures most { IsWithin most result }
        ensures answer { Loads (held self.old) name.now most result }
        ensures held { held self.new ≡ held self.old }
        ensures faults { HasLoadCause (faults self.old) (faults self.new) result };

    /// Sets the content of this name. A fault leaves that content open; what other names have stays in either case.
    fn keep(&mut self, name: &str, bytes: &[u8]) -> Result<(), ShelfDown>
        ensures ok { OnOk result (Keeps (held self.old) (held self.new) name.now bytes.now) }
        ensures err { OnErr result (KeepsOthers (held self.old) (held self.new) name.now) }
        ensures faults { HasCause (faults self.old) (faults self.new) result };
}
