//! The commands that show a text of a file on the shelf: `frames`, `pfh-show` and `pfh-check`.

ghost use Rattle.std.specs.Prelude.{◌≡◌, ◌≤◌, length};
ghost use Rattle.pacsat_cli.specs.Files.{FileShown, IsTextPut, OctetsShown, code_status, most_octets};
ghost use Rattle.pacsat_cli.specs.Run.{HasStatusCause, Stays};

use crate::status::status_of_load;
use crate::{RefusedBy, Status};
use command_words::FileCommand;
use header_tool::frames::show_frames;
use header_tool::{Shown, check_line, show};
use px_base::{Out, OutOfMemory, Shelf};
use std::alloc::Global;

/// The most octets of a file on the shelf that a command reads.
pub(crate) const MOST_OCTETS: usize = 4_194_304;

/// Shows the command's text of the file that the shelf has under this name. Takes memory for the file, and for
/// `pfh-show` and `pfh-check` for their text; takes time that grows with the file's length.
pub(crate) fn run_file<S: Shelf, O: Out>(
    alloc: Global,
    command: FileCommand,
    name: &str,
    shelf: &mut S,
    out: &mut O,
) -> Status
    ensures shown { FileShown O.shown O.faults command (S.held shelf.old) name.now out.old out.new result }
    ensures held { Stays S.held shelf.old shelf.new }
    ensures shelf { HasStatusCause Status.Shelf (S.faults shelf.old) (S.faults shelf.new) result }
{
    match shelf.load(alloc, name, MOST_OCTETS) {
        Ok(file) => show_octets(alloc, command, file.as_slice(), out),
        Err(refusal) => status_of_load(refusal),
    }
}

/// Shows the command's text of these octets.
fn show_octets<O: Out>(alloc: Global, command: FileCommand, octets: &[u8], out: &mut O) -> Status
    requires { length octets.now ≤ most_octets }
    ensures shown { OctetsShown O.shown O.faults command octets.now out.old out.new result }
    ensures no_shelf { result ≡ Status.Shelf → ⊥ }
{
    match command {
        FileCommand::Frames => match show_frames(octets, out) {
            Ok(()) => Status::Done,
            Err(_down) => Status::Out,
        },
        FileCommand::Show => put_shown(show(alloc, octets), out),
        FileCommand::Check => put_shown(check_line(alloc, octets), out),
    }
}

/// Puts a text of a file's header, and gives the status of the file's fault, if it has one.
fn put_shown<O: Out>(shown: Result<Shown, OutOfMemory>, out: &mut O) -> Status
    ensures { IsTextPut O.shown O.faults shown out.old out.new result }
{
    let Ok(shown) = shown else {
        return Status::OutOfMemory;
    };
    match out.put(shown.text.as_slice()) {
        Ok(()) => status_of_code(shown.code),
        Err(_down) => Status::Out,
    }
}

/// The status of a file whose fault has this code, 0 for none.
fn status_of_code(code: u8) -> Status
    ensures { result ≡ code_status code }
{
    if code == 0 {
        Status::Done
    } else {
        Status::Refused(RefusedBy::Shown)
    }
}
