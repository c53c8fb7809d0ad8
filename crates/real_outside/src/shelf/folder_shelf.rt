//! A shelf over files: what its calls ask of them.

ghost use Rattle.std.specs.Prelude.{◌≡◌, ◌↔◌, IsOk, None};
ghost use Rattle.px_base.specs.Shelves.{HasLoadCause, IsWithin};
ghost use Rattle.px_base.specs.CallRecords.{Asks};
ghost use Rattle.real_outside.specs.Counts.{Counts};
ghost use Rattle.real_outside.specs.Shelf.Folder.{AnswersOpened, counted_after_load};
ghost use Rattle.real_outside.specs.Shelf.Keeping.{Keeps, KeepsAs};
ghost use Rattle.real_outside.specs.declared.system_error.SystemError.{SystemError};

use super::keeping::keep_at;
use super::loading::load_opened;
use crate::files::{FileSystem, RealFiles};
use crate::system_error::SystemError;
use px_base::{FaultCount, FileBytes, Shelf, ShelfDown, ShelfRefusal};
use std::alloc::Global;
use std::fs::File;
use std::marker::Model;
use std::rt::Files;

/// A shelf over files. A file is opened at the call that asks for it, and closed at its end. What it holds can't be
/// observed; it counts its faults.
#[derive(Drop)]
pub struct FolderShelf<S> {
    files: S,
    alloc: Global,
    faults: FaultCount,
}

impl<S> Model for FolderShelf<S> {
    ghost use Rattle.real_outside.specs.Shelf.Folder.{Folder};

    ghost Value = { Folder S };

    ghost view = { λ a. record { files = a.files; faults = a.faults } };
}

impl<'a, R: Files<File = File> + AllocGlobal> FolderShelf<RealFiles<'a, R>> {
    /// A shelf over the real files.
    pub fn new(files: &'a R) -> FolderShelf<RealFiles<'a, R>>
        ensures { result.faults ≡ 0 }
    {
        FolderShelf::over(RealFiles::new(files), files.alloc())
    }
}

impl<S: FileSystem> FolderShelf<S> {
    /// A shelf over these files, which takes the memory of a path from here.
    pub fn over(files: S, alloc: Global) -> FolderShelf<S>
        ensures { result ≡ record { files = files; faults = 0 } }
    {
        FolderShelf {
            files,
            alloc,
            faults: FaultCount::new(),
        }
    }

    /// The files.
    pub fn files(&self) -> &S
        ensures { result.now ≡ self.now.files }
    {
        &self.files
    }
}

impl<S: FileSystem> Shelf for FolderShelf<S> {
    ghost held = { λ _. None };

    ghost faults = { λ a. a.faults };

    /// The octets of the file at this path: all that its reader has left. It reads at most one more than `most`. A path
    /// at which there is nothing is `NoSuch`; if opening or reading fails otherwise, unless it is out of memory, a
    /// fault is counted.
    fn load(&mut self, alloc: Global, name: &str, most: usize) -> Result<FileBytes, ShelfRefusal>
        ensures most { IsWithin most result }
        ensures faults { HasLoadCause self.old.faults self.new.faults result }
        ensures counted { self.new.faults ≡ counted_after_load result self.old.faults }
        ensures answer { AnswersOpened S.Reader.remaining (S.calls self.old.files) (S.calls self.new.files) name.now most
            result }
    {
        let answer = load_opened(self.files.open_to_read(name), alloc, most);
        if let Err(ShelfRefusal::Fault) = &answer {
            self.faults.count();
        }
        answer
    }

    /// Sets the octets of the file at this path. A regular file, and one that isn't there yet, is written next to it
    /// first, under its name with `.part` appended, and synced; then it replaces the old one, whose mode it has, and
    /// its folder is synced. So whatever fails, or whenever the power goes, there is the old file or the new one, and
    /// Ok says that the new one stays. A link is followed. The lock of a file that is replaced is asked for before: one
    /// that another holds, as a store that is in use, is a fault. What is no regular file, as a pipe or `/dev/stdout`,
    /// is written to in place.
    fn keep(&mut self, name: &str, bytes: &[u8]) -> Result<(), ShelfDown>
        ensures faults { Counts self.old.faults self.new.faults result }
        ensures keeps { Asks (S.calls self.old.files) (S.calls self.new.files) (KeepsAs name.now bytes.now result) }
    {
        let kept = keep_at(&mut self.files, self.alloc, name, bytes);
        self.faults.count_err(keep_answer(kept))
    }
}

/// Content is kept exactly if each step of that was done.
fn keep_answer(kept: Result<(), SystemError>) -> Result<(), ShelfDown>
    ensures { IsOk result ↔ IsOk kept }
{
    kept.map_err(|_| ShelfDown)
}
