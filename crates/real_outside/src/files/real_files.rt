//! The real files.

ghost use Rattle.std.specs.Prelude.{◌≡◌, None, true};
ghost use Rattle.std.specs.Fs.{new_options, with_create, with_read, with_write};
ghost use Rattle.real_outside.specs.Systems.{IsFound, answer_of_lock};

use super::file_call::Found;
use super::file_system::FileSystem;
use crate::system_error::{SystemError, noted, system_answer};
use std::alloc::Global;
use std::fs::{self, File, Metadata, OpenOptions, Permissions, TryLockError};
use std::io::{self, ErrorKind, Seek, SeekFrom};
use std::os::fd::AsRawFd;
use std::os::unix::fs::{FileExt, PermissionsExt};
use std::rt::Files;

/// The number under which the system has the limit on the sizes of files.
const LIMIT_ON_SIZES: i32 = 1;

/// The files of the system. None of their calls can be observed; they keep why the last one was refused that was. The
/// limit on the sizes of files is asked for once.
#[derive(Drop)]
pub struct RealFiles<'a, R> {
    files: &'a R,
    limit: u64,
    last_error: Option<SystemError>,
}

impl<'a, R: Files<File = File>> RealFiles<'a, R> {
    /// These files. Takes no memory.
    pub fn new(files: &'a R) -> RealFiles<'a, R> {
        RealFiles {
            files,
            limit: limit_on_sizes(),
            last_error: None,
        }
    }

    /// Why the last call was refused that was, if one was.
    pub fn last_error(&self) -> Option<SystemError>
        ensures { result ≡ self.now.last_error }
    {
        self.last_error
    }
}

impl<'a, R: Files<File = File>> FileSystem for RealFiles<'a, R> {
    type File = File;

    type Reader = File;

    ghost calls = { λ _. None };

    ghost number = { λ _. 0 };

    fn limit(&mut self) -> u64 {
        self.limit
    }

    fn open(&mut self, path: &str) -> Result<File, SystemError> {
        let answer = system_answer(for_both().open(self.files, path));
        noted(&mut self.last_error, answer)
    }

    fn lock(&mut self, file: &File) -> Result<(), SystemError> {
        let answer = lock_answer(file.try_lock());
        noted(&mut self.last_error, answer)
    }

    fn length(&mut self, file: &File) -> Result<u64, SystemError> {
        let mut file = file;
        let answer = system_answer(file.seek(SeekFrom::End(0)));
        noted(&mut self.last_error, answer)
    }

    fn read_at(&mut self, file: &File, at: u64, room: &mut [u8]) -> Result<usize, SystemError> {
        let answer = system_answer(file.read_at(room, at));
        noted(&mut self.last_error, answer)
    }

    fn write_at(&mut self, file: &File, at: u64, bytes: &[u8]) -> Result<usize, SystemError> {
        let answer = system_answer(file.write_at(bytes, at));
        noted(&mut self.last_error, answer)
    }

    fn cut(&mut self, file: &File) -> Result<(), SystemError> {
        let answer = system_answer(file.set_len(0));
        noted(&mut self.last_error, answer)
    }

    fn set_mode(&mut self, file: &File, mode: u32) -> Result<(), SystemError> {
        let answer = system_answer(file.set_permissions(Permissions::from_mode(mode)));
        noted(&mut self.last_error, answer)
    }

    fn sync(&mut self, file: &File) -> Result<(), SystemError> {
        let answer = sync_file(file);
        noted(&mut self.last_error, answer)
    }

    fn sync_folder(&mut self, path: &str) -> Result<(), SystemError> {
        let answer = system_answer(sync_folder(self.files, path));
        noted(&mut self.last_error, answer)
    }

    fn look(&mut self, path: &str) -> Result<Found, SystemError> {
        let answer = found_answer(fs::symlink_metadata(self.files, path));
        noted(&mut self.last_error, answer)
    }

    fn resolve(&mut self, alloc: Global, path: &str) -> Result<String, SystemError> {
        let path = system_answer(self.files.canonicalize(alloc, path));
        let path = noted(&mut self.last_error, path)?;
        Ok(path.into_string())
    }

    fn rename(
        &mut self,
        _file: &File,
        _held: &File,
        from: &str,
        to: &str,
    ) -> Result<(), SystemError> {
        let answer = system_answer(fs::rename(self.files, from, to));
        noted(&mut self.last_error, answer)
    }

    fn remove(&mut self, path: &str) -> Result<(), SystemError> {
        let answer = system_answer(fs::remove_file(self.files, path));
        noted(&mut self.last_error, answer)
    }

    fn pour(&mut self, path: &str, bytes: &[u8]) -> Result<(), SystemError> {
        let answer = system_answer(fs::write(self.files, path, bytes));
        noted(&mut self.last_error, answer)
    }

    fn open_to_read(&mut self, path: &str) -> Result<File, SystemError> {
        let answer = system_answer(File::open(self.files, path));
        noted(&mut self.last_error, answer)
    }
}

/// For reading and writing, and made if nothing is there.
fn for_both() -> OpenOptions
    ensures { result ≡ with_create (with_write (with_read new_options true) true) true }
{
    let mut options = OpenOptions::new();
    options.read(true).write(true).create(true);
    options
}

/// Syncs this file. If a signal interrupts the call, it is made again, as `File::sync_all` makes it.
fn sync_file(file: &File) -> Result<(), SystemError> {
    if libc::fsync(file.as_raw_fd()) >= 0 {
        return Ok(());
    }
    let error = io::Error::from_raw_os_error(os::errno());
    if error.kind() == ErrorKind::Interrupted {
        return system_answer(file.sync_all());
    }
    Err(SystemError::from(error))
}

/// Syncs this folder.
fn sync_folder<R: Files<File = File>>(files: &R, path: &str) -> io::Result<()> {
    File::open(files, path)?.sync_all()
}

/// What asking for a lock answers: one that another holds would have to be waited for.
fn lock_answer(locked: Result<(), TryLockError>) -> Result<(), SystemError>
    ensures { result ≡ answer_of_lock locked }
{
    match locked {
        Ok(()) => Ok(()),
        Err(TryLockError::WouldBlock) => Err(SystemError::from(ErrorKind::WouldBlock)),
        Err(TryLockError::Error(error)) => Err(SystemError::from(error)),
    }
}

/// What is at a path if the system answers so: nothing exactly if it says that nothing is there.
fn found_answer(found: io::Result<Metadata>) -> Result<Found, SystemError>
    ensures { IsFound found result }
{
    match system_answer(found) {
        Ok(found) if found.is_file() => Ok(Found::File {
            mode: found.permissions().mode(),
        }),
        Ok(found) if found.is_symlink() => Ok(Found::Link),
        Ok(_) => Ok(Found::Other),
        Err(error) if error.kind == ErrorKind::NotFound => Ok(Found::Nothing),
        Err(error) => Err(error),
    }
}

/// The limit on the sizes of files; the last number, if there is none, or it can't be asked for.
fn limit_on_sizes() -> u64 {
    let mut limits = libc::types::rlimit {
        rlim_cur: u64::MAX,
        rlim_max: u64::MAX,
    };
    if libc::getrlimit(LIMIT_ON_SIZES, &mut limits) < 0 {
        return u64::MAX;
    }
    limits.rlim_cur
}
