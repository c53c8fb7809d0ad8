//! The commands that keep a file on the shelf which is made of another one: `pfh-make` and `pfh-body`.

ghost use Rattle.header_tool.specs.Made.{make_value};
ghost use Rattle.pacsat_cli.specs.Bodies.{BodyRan, OctetsBody};
ghost use Rattle.pacsat_cli.specs.Making.{FileKept, IsPossible, MakeRan, OctetsMade};
ghost use Rattle.pacsat_cli.specs.Run.{HasStatusCause};
ghost use Rattle.pacsat_cli.specs.Tasks.{MakingRan, MayMake};

use crate::files::MOST_OCTETS;
use crate::status::status_of_load;
use crate::{RefusedBy, Status};
use command_words::MakingRequest;
use header_tool::{MakeRefusal, MakeSpec, body_of, make};
use px_base::Shelf;
use std::alloc::Global;

/// Makes the file that is asked for, and keeps it. Takes memory for the one that it is made of, and `pfh-make` for the
/// one that is made.
pub(crate) fn run_making<S: Shelf>(
    alloc: Global,
    request: &MakingRequest<'_>,
    shelf: &mut S,
) -> Status
    requires { MayMake request.now }
    ensures made { MakingRan request.now (S.held shelf.old) (S.held shelf.new) result }
    ensures shelf { HasStatusCause Status.Shelf (S.faults shelf.old) (S.faults shelf.new) result }
{
    match request {
        MakingRequest::Make(make) => run_make(alloc, &make.header, make.body, make.kept, shelf),
        MakingRequest::Body(body) => run_body(alloc, body.name, body.kept, shelf),
    }
}

/// Makes a file of the body that the shelf has under one name, and keeps it under the other. Takes memory for both.
fn run_make<S: Shelf>(
    alloc: Global,
    spec: &MakeSpec<'_>,
    body: &str,
    name: &str,
    shelf: &mut S,
) -> Status
    requires { IsPossible (make_value spec.now) }
    ensures made { MakeRan (make_value spec.now) body.now name.now (S.held shelf.old) (S.held shelf.new) result }
    ensures shelf { HasStatusCause Status.Shelf (S.faults shelf.old) (S.faults shelf.new) result }
{
    match shelf.load(alloc, body, MOST_OCTETS) {
        Ok(octets) => make_of(alloc, spec, octets.as_slice(), name, shelf),
        Err(refusal) => status_of_load(refusal),
    }
}

/// Makes a file of this body, and keeps it under this name.
fn make_of<S: Shelf>(
    alloc: Global,
    spec: &MakeSpec<'_>,
    body: &[u8],
    name: &str,
    shelf: &mut S,
) -> Status
    requires { IsPossible (make_value spec.now) }
    ensures made { OctetsMade (make_value spec.now) body.now name.now (S.held shelf.old) (S.held shelf.new) result }
    ensures shelf { HasStatusCause Status.Shelf (S.faults shelf.old) (S.faults shelf.new) result }
{
    match make(alloc, spec, body) {
        Ok(file) => keep(name, file.as_slice(), shelf),
        Err(MakeRefusal::TooLong { .. }) => Status::TooLong,
        Err(MakeRefusal::OutOfMemory) => Status::OutOfMemory,
        Err(_) => unreachable!(),
    }
}

/// Keeps the body of the file that the shelf has under one name under the other. Takes memory for the file.
fn run_body<S: Shelf>(alloc: Global, name: &str, kept: &str, shelf: &mut S) -> Status
    ensures body { BodyRan name.now kept.now (S.held shelf.old) (S.held shelf.new) result }
    ensures shelf { HasStatusCause Status.Shelf (S.faults shelf.old) (S.faults shelf.new) result }
{
    match shelf.load(alloc, name, MOST_OCTETS) {
        Ok(file) => keep_body(file.as_slice(), kept, shelf),
        Err(refusal) => status_of_load(refusal),
    }
}

/// Keeps the body of this file under this name, or refuses the file by its first fault.
fn keep_body<S: Shelf>(file: &[u8], name: &str, shelf: &mut S) -> Status
    ensures body { OctetsBody file.now name.now (S.held shelf.old) (S.held shelf.new) result }
    ensures shelf { HasStatusCause Status.Shelf (S.faults shelf.old) (S.faults shelf.new) result }
{
    match body_of(file) {
        Ok(body) => keep(name, body, shelf),
        Err(fault) => Status::Refused(RefusedBy::Fault { code: fault.code }),
    }
}

/// Keeps a file under this name.
fn keep<S: Shelf>(name: &str, file: &[u8], shelf: &mut S) -> Status
    ensures kept { FileKept name.now file.now (S.held shelf.old) (S.held shelf.new) result }
    ensures shelf { HasStatusCause Status.Shelf (S.faults shelf.old) (S.faults shelf.new) result }
{
    match shelf.keep(name, file) {
        Ok(()) => Status::Done,
        Err(_down) => Status::Shelf,
    }
}
