//! What one client's tasks, attempts and files that it got have of the server's store.

ghost use Rattle.air_world.specs.Files.Laws.{BeginLaw, IsDirectoryOf, IsDownloadOf, IsOne, IsUploadOf, JobLaw};
ghost use Rattle.air_world.specs.Files.Laws.{JobTasksLaw};
ghost use Rattle.air_world.specs.Files.Laws.{SessionLaw, SessionLawOf, StayLaw};

use file_store_model::laws::follows_law;
use ftl0_client_job::laws::promises_law;
use ftl0_server::step_laws::caller_law;
use ftl0_session::downloads::laws::stays_law;
use ftl0_session::laws::{acknowledged_law, downloads_law, uploads_law};

/// What a client's tasks, attempts and files have of the store stays: if its links went on without a packet, in a store
/// that others' commands made, if its sessions are over or it starts again, and without an entry under way that no
/// session receives.
pub fn stay_law()
    ensures { StayLaw }
{
    follows_law();
    stays_law();
}

/// What begins has all that is true of a client: a client of which nothing was asked, an attempt, a session, a further
/// upload, and its task.
pub fn begin_law()
    ensures { BeginLaw }
{}

/// A session that receives a file keeps its client's facts, packet by packet and after each of a packet's commands:
/// UPLOAD_CMD that it refuses, or that begins a file or goes on with one; DATA; and DATA_END, by which the whole file
/// is kept.
pub fn session_of_upload_law()
    ensures { SessionLawOf IsUploadOf IsOne }
{
    uploads_law();
    acknowledged_law();
    caller_law();
    stays_law();
}

/// One thing that a session of a download does, a packet that it takes or that it queues, keeps the client's facts.
pub fn session_of_download_law()
    ensures { SessionLawOf IsDownloadOf IsOne }
{
    downloads_law();
}

/// So does one of a session that selects and lists.
pub fn session_of_list_law()
    ensures { SessionLawOf IsDirectoryOf IsOne }
{
    downloads_law();
}

/// Whatever a session does, one thing after another, keeps its client's facts: of an upload, a download or a list. None
/// of its commands gives a file up.
pub fn session_law()
    ensures { SessionLaw }
{
    session_of_upload_law();
    session_of_list_law();
    session_of_download_law();
}

/// Any entries of a job keep what is true of its client, also if its client starts again after some of its notes'
/// commands.
pub fn job_law()
    ensures { JobLaw }
{
    promises_law();
}

/// Entries of a job leave the client's tasks as tasks of its uploads, also if the client starts again after some of its
/// notes' commands: none of them begins a task.
pub fn job_tasks_law()
    ensures { JobTasksLaw }
{}
