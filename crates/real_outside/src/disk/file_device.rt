//! A file as a device: which calls of the files each call of the device makes.

ghost use Rattle.std.specs.Prelude.{◌≡◌, ◌||◌, None, length, false, IfErr, IfOk, IfSome, is_ok};
ghost use Rattle.px_base.specs.CallRecords.{Asks};
ghost use Rattle.real_outside.specs.Disk.FileDevices.{AfterOpening, AsksLength, KeepsFile, Reads, SyncsFile, SyncsWithEntry, TakesFile, Writes, system_answer_of};
ghost use Rattle.real_outside.specs.Files.{folder_of, octets_read};
ghost use Rattle.real_outside.specs.Moves.{Moves};
ghost use Rattle.real_outside.specs.declared.disk.device.DeviceCall.{DeviceCall};

use super::device::{Device, DeviceDown};
use crate::files::{FileSystem, folder_of as folder_of_path, open_locked, write_once};
use crate::system_error::SystemError;
use std::marker::Model;

/// A file as a device. It is opened for reading and writing at the first call, and made if it isn't there. From then on
/// it stays open, and is locked; a call at which another holds its lock fails, and the next one tries again. The first
/// sync also syncs the folder of its path, so that a file that was just made stays. Its calls can't be observed. Takes
/// no memory.
#[derive(Drop)]
pub struct FileDevice<'a, S: FileSystem> {
    files: S,
    path: &'a str,
    file: Option<S::File>,
    has_entry: bool,
}

impl<'a, S: FileSystem> Model for FileDevice<'a, S> {
    ghost use Rattle.real_outside.specs.Disk.FileDevices.{FileDeviceState};

    ghost Value = { FileDeviceState S S.File };

    ghost view = { λ a. record { files = a.files; path = a.path.now; file = a.file; has_entry = a.has_entry } };
}

impl<'a, S: FileSystem> FileDevice<'a, S> {
    /// The file of this path, which isn't opened yet.
    pub fn new(files: S, path: &'a str) -> FileDevice<'a, S>
        ensures { result ≡ record { files = files; path = path.now; file = None; has_entry = false } }
    {
        FileDevice {
            files,
            path,
            file: None,
            has_entry: false,
        }
    }

    /// The files.
    pub fn files(&self) -> &S
        ensures { result.now ≡ self.now.files }
    {
        &self.files
    }

    /// Takes the file, which it opens and locks if it isn't open yet.
    fn take_file(&mut self) -> Result<S::File, DeviceDown>
        ensures open { IfSome self.old.file (λ file. result ≡ Ok file) }
        ensures takes { Asks (S.calls self.old.files) (S.calls self.new.files)
            (TakesFile S.number self.old.path self.old.file result) }
        ensures rest { self.new ≡ record self.old { files = self.new.files; file = None } }
    {
        match self.file.take() {
            Some(file) => Ok(file),
            None => device_answer(open_locked(&mut self.files, self.path)),
        }
    }
}

impl<'a, S: FileSystem> Device for FileDevice<'a, S> {
    ghost calls = { λ _. None };

    /// The length of the file, found as the place of its end: so that of a whole device, which reports no length, is
    /// known too.
    fn len(&mut self) -> Result<u64, DeviceDown>
        ensures keeps { KeepsFile self.old self.new }
        ensures entry { self.new.has_entry ≡ self.old.has_entry }
        ensures asks { Asks (S.calls self.old.files) (S.calls self.new.files)
            (AfterOpening S.number self.old self.new result (AsksLength result)) }
    {
        let file = self.take_file()?;
        let length = self.files.length(&file);
        self.file = Some(file);
        device_answer(length)
    }

    /// Reads the file once, from this place on.
    fn read(&mut self, at: u64, room: &mut [u8]) -> Result<usize, DeviceDown>
        ensures moves { Moves None None (DeviceCall.Read at (length room.old) (octets_read result room.new))
            (length room.old) result }
        ensures keeps { KeepsFile self.old self.new }
        ensures entry { self.new.has_entry ≡ self.old.has_entry }
        ensures reads { Asks (S.calls self.old.files) (S.calls self.new.files)
            (AfterOpening S.number self.old self.new result (Reads at room.new result)) }
    {
        let file = self.take_file()?;
        let read = self.files.read_at(&file, at, room);
        self.file = Some(file);
        device_answer(read)
    }

    /// Writes to the file once, at this place, unless that is at the limit on the sizes of files or past it.
    fn write(&mut self, at: u64, bytes: &[u8]) -> Result<usize, DeviceDown>
        ensures moves { Moves None None (DeviceCall.Write at bytes.now result) (length bytes.now) result }
        ensures keeps { KeepsFile self.old self.new }
        ensures entry { self.new.has_entry ≡ self.old.has_entry }
        ensures writes { Asks (S.calls self.old.files) (S.calls self.new.files)
            (AfterOpening S.number self.old self.new result (Writes at bytes.now result)) }
    {
        let file = self.take_file()?;
        let written = write_once(&mut self.files, &file, at, bytes);
        self.file = Some(file);
        device_answer(written)
    }

    /// Syncs the file, and until that was done once its folder too.
    fn sync(&mut self) -> Result<(), DeviceDown>
        ensures keeps { KeepsFile self.old self.new }
        ensures entry { self.new.has_entry ≡ (self.old.has_entry || is_ok result) }
        ensures syncs { Asks (S.calls self.old.files) (S.calls self.new.files)
            (AfterOpening S.number self.old self.new result
            (SyncsFile self.old.has_entry (folder_of self.old.path) result)) }
    {
        let file = self.take_file()?;
        let synced = sync_with_entry(&mut self.files, &file, self.path, self.has_entry);
        self.file = Some(file);
        self.has_entry = self.has_entry || synced.is_ok();
        device_answer(synced)
    }
}

/// Syncs the file, and its folder unless that was done before.
fn sync_with_entry<S: FileSystem>(
    files: &mut S,
    file: &S::File,
    path: &str,
    has_entry: bool,
) -> Result<(), SystemError>
    ensures { Asks (S.calls files.old) (S.calls files.new)
        (SyncsWithEntry has_entry (folder_of path.now) result (S.number file.now)) }
{
    files.sync(file)?;
    if has_entry {
        return Ok(());
    }
    files.sync_folder(folder_of_path(path))
}

/// What a device answers if the system answers so.
fn device_answer<T: Drop>(answer: Result<T, SystemError>) -> Result<T, DeviceDown>
    ensures ok { IfOk answer (λ value. result ≡ Ok value) }
    ensures err { IfErr answer (λ error. result ≡ Err (record { error = error })) }
    ensures system { system_answer_of result ≡ answer }
{
    match answer {
        Ok(value) => Ok(value),
        Err(error) => Err(DeviceDown { error }),
    }
}
