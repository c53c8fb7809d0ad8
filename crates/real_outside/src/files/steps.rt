//! What the disk and the shelf both ask of files.

ghost use Rattle.std.specs.Prelude.{◌≡◌, ◌≤◌, IfOk, length};
ghost use Rattle.px_base.specs.CallRecords.{Asks};
ghost use Rattle.real_outside.specs.Files.{OpensLocked, WritesOnce, file_answer};
ghost use Rattle.std.specs.Path.{path_bytes, path_parent};
ghost use Rattle.real_outside.specs.Files.{folder_of as folder_of_path};

use super::file_system::FileSystem;
use crate::system_error::SystemError;
use std::io::ErrorKind;
use std::path::Path;

/// Opens the file of this path as it is, makes it if nothing is there, and takes its lock. It fails if either is
/// refused.
pub(crate) fn open_locked<S: FileSystem>(files: &mut S, path: &str) -> Result<S::File, SystemError>
    ensures { Asks (S.calls files.old) (S.calls files.new) (OpensLocked path.now (file_answer S.number result)) }
{
    let file = files.open(path)?;
    match files.lock(&file) {
        Ok(()) => Ok(file),
        Err(error) => Err(error),
    }
}

/// Writes the first of these octets to a file at this place, and says how many. If that place is at the limit on the
/// sizes of files or past it, which would end the program, it fails with `FileTooLarge`, and nothing is written.
pub(crate) fn write_once<S: FileSystem>(
    files: &mut S,
    file: &S::File,
    at: u64,
    bytes: &[u8],
) -> Result<usize, SystemError>
    ensures count { IfOk result (λ count. count ≤ length bytes.now) }
    ensures writes { Asks (S.calls files.old) (S.calls files.new)
        (WritesOnce at bytes.now result (S.number file.now)) }
{
    if files.limit() <= at {
        return Err(SystemError::from(ErrorKind::FileTooLarge));
    }
    files.write_at(file, at, bytes)
}

/// The folder of this path: the path's parent, or the working folder if it has none.
pub(crate) fn folder_of(path: &str) -> &str
    ensures { result.now ≡ folder_of_path path.now }
{
    match Path::new(path).parent() {
        Some(folder) if !folder.as_str().is_empty() => folder.as_str(),
        _ => ".",
    }
}
