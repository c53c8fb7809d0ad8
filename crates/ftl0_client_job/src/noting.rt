//! What a job notes, one command a call.

ghost use Rattle.std.specs.Prelude.{◌∷◌, [], IsErrOf};
ghost use Rattle.client_notes.specs.Command.{acked, forgot, got, numbered, refused};
ghost use Rattle.client_notes.specs.State.{IsReady};
ghost use Rattle.ftl0_client_job.specs.Noting.{HasNoted, IsAnswer, IsAnswerOf, IsOfNoting, MayNote, NotesAtOnce};
ghost use Rattle.ftl0_client_job.specs.Upload.{refusal_of};

use client_notes::{Notes, NotesRefusal, TaskNumber};
use disk_model::{Disk, Halt};
use file_journal::JournalFault;
use ftl0_packets::ErrorCode;
use px_base::{Call, FileNumber};

/// Notes the number of a task's file. Takes no memory.
pub(crate) fn note_number<D: Disk>(
    disk: &mut D,
    notes: &mut Notes,
    task: TaskNumber,
    number: FileNumber,
) -> Result<(), Halt>
    requires { MayNote D.Disk notes.old disk.old (numbered task number) }
    ensures { NotesAtOnce D.Disk notes.old notes.new disk.old disk.new (numbered task number ∷ []) result }
{
    answer_of(notes.numbered(disk, task, number))
}

/// Notes that a task's file was acknowledged. Takes no memory.
pub(crate) fn note_acked<D: Disk>(
    disk: &mut D,
    notes: &mut Notes,
    task: TaskNumber,
) -> Result<(), Halt>
    requires { MayNote D.Disk notes.old disk.old (acked task) }
    ensures { NotesAtOnce D.Disk notes.old notes.new disk.old disk.new (acked task ∷ []) result }
{
    answer_of(notes.acked(disk, task))
}

/// Notes that a task's file was refused with this code, except for a fault of the server's disk. Takes no memory.
pub(crate) fn note_refused<D: Disk>(
    disk: &mut D,
    notes: &mut Notes,
    task: TaskNumber,
    code: u8,
) -> Result<(), Halt>
    requires { MayNote D.Disk notes.old disk.old (refused task code) }
    ensures { NotesAtOnce D.Disk notes.old notes.new disk.old disk.new (refusal_of task code) result }
{
    if ErrorCode::ServerFsys.is(code) {
        return Ok(());
    }
    answer_of(notes.refused(disk, task, code))
}

/// Notes that what was got of a file is given up. Takes no memory.
pub(crate) fn note_forgot<D: Disk>(
    disk: &mut D,
    notes: &mut Notes,
    server: Call,
    number: FileNumber,
) -> Result<(), Halt>
    requires { IsReady D.Disk notes.old disk.old }
    ensures { HasNoted D.Disk notes.old notes.new disk.old disk.new (forgot server number ∷ []) result }
{
    answer_of(notes.forgot(disk, server, number))
}

/// Notes further octets of a file. Takes memory, before it touches the disk.
pub(crate) fn note_got<D: Disk>(
    disk: &mut D,
    notes: &mut Notes,
    server: Call,
    number: FileNumber,
    octets: &[u8],
) -> Result<(), Halt>
    requires { MayNote D.Disk notes.old disk.old (got server number octets.now) }
    ensures { HasNoted D.Disk notes.old notes.new disk.old disk.new (got server number octets.now ∷ []) result }
{
    answer_of_noting(notes.got(disk, server, number, octets))
}

/// The answer of notes that hadn't failed.
fn answer_of(answer: Result<(), JournalFault>) -> Result<(), Halt>
    requires { ¬ IsErrOf answer JournalFault.Failed }
    ensures { IsAnswer answer result }
{
    match answer {
        Ok(()) => Ok(()),
        Err(JournalFault::Disk) => Err(Halt::Disk),
        Err(JournalFault::Failed) => unreachable!(),
    }
}

/// The answer of notes that hadn't failed to octets that came.
fn answer_of_noting(answer: Result<(), NotesRefusal>) -> Result<(), Halt>
    requires { IsOfNoting answer }
    ensures { IsAnswerOf answer result }
{
    match answer {
        Ok(()) => Ok(()),
        Err(NotesRefusal::Disk) => Err(Halt::Disk),
        Err(NotesRefusal::OutOfMemory) => Err(Halt::OutOfMemory),
        Err(NotesRefusal::Failed | NotesRefusal::Full | NotesRefusal::Changed { .. }) => {
            unreachable!()
        }
    }
}
