//! How a shelf over a folder keeps the octets of a file.

ghost use Rattle.std.specs.Prelude.{◌≡◌, ◌<◌, ◌≤◌, ◌++◌, codes, length, IfErr, IfOk, Some};
ghost use Rattle.std.specs.String.{string_bytes};
ghost use Rattle.px_base.specs.CallRecords.{Asks};
ghost use Rattle.real_outside.specs.Files.{file_answer};
ghost use Rattle.real_outside.specs.Shelf.Keeping.{ChecksPart, Fills, FillsAndMoves, FollowsLink, Keeps, KeepsAt};
ghost use Rattle.real_outside.specs.Shelf.Keeping.{KeepsFound, KeepsIn, KeepsLinked, KeepsUnresolved, MovesFilled};
ghost use Rattle.real_outside.specs.Shelf.Keeping.{OnLocked, OpensPart, Prepares, Replaces, WritesFrom, WritesNew};
ghost use Rattle.real_outside.specs.Shelf.Keeping.{WritesOver, WritesSome, WritesSynced, answer_of_part, out_of_memory};
ghost use Rattle.real_outside.specs.Shelf.Keeping.{is_of_system as is_name_of_system};

use crate::files::{FileSystem, Found, folder_of, open_locked, write_once};
use crate::system_error::SystemError;
use std::alloc::Global;
use std::io::ErrorKind;

/// Keeps these octets as those of the file that has this name.
pub(crate) fn keep_at<S: FileSystem>(
    files: &mut S,
    alloc: Global,
    name: &str,
    bytes: &[u8],
) -> Result<(), SystemError>
    ensures { Asks (S.calls files.old) (S.calls files.new) (Keeps name.now bytes.now result) }
{
    let found = files.look(name)?;
    keep_found(files, alloc, name, found, bytes)
}

/// Keeps them if this is at the name.
fn keep_found<S: FileSystem>(
    files: &mut S,
    alloc: Global,
    name: &str,
    found: Found,
    bytes: &[u8],
) -> Result<(), SystemError>
    ensures { Asks (S.calls files.old) (S.calls files.new) (KeepsFound name.now bytes.now found result) }
{
    match found {
        Found::Nothing => replace(files, alloc, name, None, bytes),
        Found::File { mode } => replace(files, alloc, name, Some(mode), bytes),
        Found::Link => follow(files, alloc, name, bytes),
        Found::Other => files.pour(name, bytes),
    }
}

/// Keeps them if a link is at the name.
fn follow<S: FileSystem>(
    files: &mut S,
    alloc: Global,
    name: &str,
    bytes: &[u8],
) -> Result<(), SystemError>
    ensures { Asks (S.calls files.old) (S.calls files.new) (FollowsLink name.now bytes.now result) }
{
    match files.resolve(alloc, name) {
        Ok(path) => keep_linked(files, alloc, name, path.as_str(), bytes),
        Err(error) => keep_unresolved(files, name, error, bytes),
    }
}

/// Keeps them if a link leads to no path for this reason: the file isn't there yet; or the link is one of the system's
/// own, and what it leads to has no path, as a pipe.
fn keep_unresolved<S: FileSystem>(
    files: &mut S,
    name: &str,
    error: SystemError,
    bytes: &[u8],
) -> Result<(), SystemError>
    ensures { Asks (S.calls files.old) (S.calls files.new) (KeepsUnresolved name.now bytes.now error result) }
{
    if error.kind != ErrorKind::NotFound {
        return Err(error);
    }
    if is_of_system(name) {
        return files.pour(name, bytes);
    }
    keep_in_place(files, name, bytes)
}

/// Keeps them if a link leads to this path.
fn keep_linked<S: FileSystem>(
    files: &mut S,
    alloc: Global,
    name: &str,
    path: &str,
    bytes: &[u8],
) -> Result<(), SystemError>
    ensures { Asks (S.calls files.old) (S.calls files.new) (KeepsLinked name.now path.now bytes.now result) }
{
    let found = files.look(path)?;
    keep_linked_at(files, alloc, name, path, found, bytes)
}

/// Keeps them if a link leads to this path, at which this is. If nothing is there any more, or a link by now, what the
/// name leads to has just changed, and it isn't written to.
fn keep_linked_at<S: FileSystem>(
    files: &mut S,
    alloc: Global,
    name: &str,
    path: &str,
    found: Found,
    bytes: &[u8],
) -> Result<(), SystemError>
    ensures { Asks (S.calls files.old) (S.calls files.new) (KeepsAt name.now path.now bytes.now found result) }
{
    match found {
        Found::File { mode } if !is_of_system(name) => {
            replace(files, alloc, path, Some(mode), bytes)
        }
        Found::File { .. } => keep_in_place(files, name, bytes),
        Found::Other => files.pour(name, bytes),
        Found::Nothing | Found::Link => Err(SystemError::from(ErrorKind::NotFound)),
    }
}

/// Whether the system makes up what has this name, as `/dev/stdout`.
fn is_of_system(name: &str) -> bool
    ensures { result ≡ is_name_of_system name.now }
{
    name.as_bytes().starts_with(b"/dev/") || name.as_bytes().starts_with(b"/proc/")
}

/// Writes the octets to a regular file in place, once its lock is taken.
fn keep_in_place<S: FileSystem>(files: &mut S, name: &str, bytes: &[u8]) -> Result<(), SystemError>
    ensures { Asks (S.calls files.old) (S.calls files.new) (KeepsIn name.now bytes.now result) }
{
    let file = open_locked(files, name)?;
    fill(files, &file, None, bytes)
}

/// Replaces the file at this path, which had this mode if it was there. Its lock is taken first, and held meanwhile.
fn replace<S: FileSystem>(
    files: &mut S,
    alloc: Global,
    path: &str,
    mode: Option<u32>,
    bytes: &[u8],
) -> Result<(), SystemError>
    ensures { Asks (S.calls files.old) (S.calls files.new) (Replaces path.now mode bytes.now result) }
{
    let part = part_of(alloc, path)?;
    match mode {
        None => write_new(files, path, part.as_str(), bytes),
        Some(mode) => replace_locked(files, path, part.as_str(), mode, bytes),
    }
}

/// Writes a file that isn't there yet: to the path `part` first, from which it is moved to `path`.
fn write_new<S: FileSystem>(
    files: &mut S,
    path: &str,
    part: &str,
    bytes: &[u8],
) -> Result<(), SystemError>
    ensures { Asks (S.calls files.old) (S.calls files.new) (WritesNew path.now part.now bytes.now result) }
{
    let file = open_part(files, part)?;
    move_filled(files, &file, &file, path, part, None, bytes)
}

/// Replaces the file at this path, which is there and has this mode, once its lock is taken.
fn replace_locked<S: FileSystem>(
    files: &mut S,
    path: &str,
    part: &str,
    mode: u32,
    bytes: &[u8],
) -> Result<(), SystemError>
    ensures { Asks (S.calls files.old) (S.calls files.new)
        (OnLocked path.now (λ done held. WritesOver path.now part.now mode held bytes.now done) result) }
{
    let held = open_locked(files, path)?;
    write_over(files, &held, path, part, mode, bytes)
}

/// Writes what is to replace this file, which is held: to the path `part` first, from which it is moved to `path`.
fn write_over<S: FileSystem>(
    files: &mut S,
    held: &S::File,
    path: &str,
    part: &str,
    mode: u32,
    bytes: &[u8],
) -> Result<(), SystemError>
    ensures { Asks (S.calls files.old) (S.calls files.new)
        (WritesOver path.now part.now mode (S.number held.now) bytes.now result) }
{
    let file = open_part(files, part)?;
    move_filled(files, &file, held, path, part, Some(mode), bytes)
}

/// The path to which the new content of this path is written first.
fn part_of(alloc: Global, path: &str) -> Result<String, SystemError>
    ensures ok { IfOk result (λ part. string_bytes part ≡ path.now ++ codes ".part") }
    ensures err { IfErr result (λ error. error ≡ out_of_memory) }
{
    let mut part = String::new(alloc);
    if part.push_str(path).is_err() || part.push_str(".part").is_err() {
        return Err(SystemError::from(ErrorKind::OutOfMemory));
    }
    Ok(part)
}

/// Opens the file at the path `part` and takes its lock, unless what is there is no regular file.
fn open_part<S: FileSystem>(files: &mut S, part: &str) -> Result<S::File, SystemError>
    ensures { Asks (S.calls files.old) (S.calls files.new) (OpensPart part.now (file_answer S.number result)) }
{
    check_part(files, part)?;
    open_locked(files, part)
}

/// Fails if something is at this path that is no regular file.
fn check_part<S: FileSystem>(files: &mut S, part: &str) -> Result<(), SystemError>
    ensures { Asks (S.calls files.old) (S.calls files.new) (ChecksPart part.now result) }
{
    part_answer(files.look(part))
}

/// Whether a file may be written first at a path at which this was found: a regular file there was left by an earlier
/// call.
fn part_answer(found: Result<Found, SystemError>) -> Result<(), SystemError>
    ensures { result ≡ answer_of_part found }
{
    match found {
        Ok(Found::Nothing | Found::File { .. }) => Ok(()),
        Ok(Found::Link | Found::Other) => Err(SystemError::from(ErrorKind::AlreadyExists)),
        Err(error) => Err(error),
    }
}

/// Fills the file at the path `part`, moves it to `path`, and syncs the folder. If the file can't be filled or moved,
/// it is taken away.
fn move_filled<S: FileSystem>(
    files: &mut S,
    file: &S::File,
    held: &S::File,
    path: &str,
    part: &str,
    mode: Option<u32>,
    bytes: &[u8],
) -> Result<(), SystemError>
    ensures { Asks (S.calls files.old) (S.calls files.new)
        (MovesFilled path.now part.now mode (S.number held.now) bytes.now result (S.number file.now)) }
{
    match fill_and_move(files, file, held, path, part, mode, bytes) {
        Ok(()) => files.sync_folder(folder_of(path)),
        Err(error) => {
            let _ = files.remove(part);
            Err(error)
        }
    }
}

/// Fills the file at the path `part`, and moves it to `path`.
fn fill_and_move<S: FileSystem>(
    files: &mut S,
    file: &S::File,
    held: &S::File,
    path: &str,
    part: &str,
    mode: Option<u32>,
    bytes: &[u8],
) -> Result<(), SystemError>
    ensures { Asks (S.calls files.old) (S.calls files.new)
        (FillsAndMoves path.now part.now mode (S.number held.now) bytes.now result (S.number file.now)) }
{
    fill(files, file, mode, bytes)?;
    files.rename(file, held, part, path)
}

/// Has the file hold these octets alone, and this mode if one is given, and syncs it.
fn fill<S: FileSystem>(
    files: &mut S,
    file: &S::File,
    mode: Option<u32>,
    bytes: &[u8],
) -> Result<(), SystemError>
    ensures { Asks (S.calls files.old) (S.calls files.new) (Fills mode bytes.now result (S.number file.now)) }
{
    prepare(files, file, mode)?;
    write_synced(files, file, bytes)
}

/// Takes the octets of the file away, and sets this mode if one is given.
fn prepare<S: FileSystem>(
    files: &mut S,
    file: &S::File,
    mode: Option<u32>,
) -> Result<(), SystemError>
    ensures { Asks (S.calls files.old) (S.calls files.new) (Prepares mode result (S.number file.now)) }
{
    files.cut(file)?;
    match mode {
        Some(mode) => files.set_mode(file, mode),
        None => Ok(()),
    }
}

/// Writes all of these octets to the file from its start, and syncs it.
fn write_synced<S: FileSystem>(
    files: &mut S,
    file: &S::File,
    bytes: &[u8],
) -> Result<(), SystemError>
    ensures { Asks (S.calls files.old) (S.calls files.new) (WritesSynced bytes.now result (S.number file.now)) }
{
    write_all(files, file, bytes)?;
    files.sync(file)
}

/// Writes all of these octets to the file from its start, write by write.
fn write_all<S: FileSystem>(files: &mut S, file: &S::File, bytes: &[u8]) -> Result<(), SystemError>
    ensures { Asks (S.calls files.old) (S.calls files.new) (WritesFrom 0 bytes.now result (S.number file.now)) }
{
    let mut written = 0;
    while written < bytes.len() {
        written += write_some(files, file, written as u64, &bytes[written..])?;
    }
    Ok(())
}

/// Writes at least the first one of these octets to the file at this place, and says how many.
fn write_some<S: FileSystem>(
    files: &mut S,
    file: &S::File,
    at: u64,
    bytes: &[u8],
) -> Result<usize, SystemError>
    ensures some { IfOk result (λ count. 0 < count) }
    ensures count { IfOk result (λ count. count ≤ length bytes.now) }
    ensures writes { Asks (S.calls files.old) (S.calls files.new)
        (WritesSome at bytes.now result (S.number file.now)) }
{
    match write_once(files, file, at, bytes) {
        Ok(0) => Err(SystemError::from(ErrorKind::WriteZero)),
        written => written,
    }
}
