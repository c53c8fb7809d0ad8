//! Laws of an attempt, each the contract of a function that does nothing.

ghost use Rattle.ftl0_client.specs.Attempt.Laws.{AckedLaw, CallingLaw, FetchedLaw, OutcomeLaw, QueuedLaw};
ghost use Rattle.ftl0_client.specs.Attempt.Laws.{QuietLaw, StandsLaw, StaysLaw};

/// At the end of an event at which the link is up nothing more is due, or fewer than 1,280 octets are free on it.
pub fn queued_law()
    ensures { QueuedLaw }
{}

/// Once the job has an outcome no frame and no tick changes it, and no command is noted.
pub fn stays_law()
    ensures { StaysLaw }
{}

/// What became of an attempt stays, whichever it is: an outcome of the job, or that the link went down before one.
pub fn outcome_law()
    ensures { OutcomeLaw }
{}

/// Once something became of an attempt, whichever it is, no frame has anything noted.
pub fn quiet_law()
    ensures { QuietLaw }
{}

/// What is true of an attempt is true after each frame and each tick: it is of the work that was asked, and its outcome
/// keeps what it promises.
pub fn stands_law()
    ensures calling { CallingLaw }
    ensures stays { StandsLaw }
{
    ftl0_client_job::laws::promises_law();
}

/// An upload reaches the outcome that its file was acknowledged only by a frame of which that is noted, in every image
/// from the end of the event on.
pub fn acked_law()
    ensures { AckedLaw }
{}

/// A download reaches the outcome that its file was fetched only by a frame after which the file's octets are noted,
/// and have no fault.
pub fn fetched_law()
    ensures { FetchedLaw }
{}
