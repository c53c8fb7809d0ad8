//! Laws of the rows of a session's table, and of what a server does at an event.

ghost use Rattle.ftl0_server.specs.Entries.{HearingLaw};
ghost use Rattle.ftl0_server.specs.StepLaws.Misses.{FrontOfEventLaw, MissesLaw};
ghost use Rattle.ftl0_server.specs.StepLaws.Places.{StepLaw};
ghost use Rattle.ftl0_server.specs.StepLaws.Rows.{CallerLaw, DueReadsLaw, ReadsLaw, ReceivesLaw};
ghost use Rattle.ftl0_server.specs.StepLaws.Steps.{OneStepLaw, SomeStepLaw};

use crate::connection::laws::queued_law;

/// Each frame except a SABM makes of a connection whose end is up what the session's packets make of it one after
/// another: each that is taken, with its row of the session's table, and then each that is due.
pub fn hearing_law()
    ensures { HearingLaw }
{}

/// With the same failures of the disk an event has at most one step: these commands, these frames, and the server after
/// it.
pub fn one_step_law()
    ensures { OneStepLaw }
{}

/// With any failures of the disk an event has a step, for a server that has nothing to send, whose links' ends are such
/// as frames and ticks bring about, and that queued all that is due as far as there was room; and it is such a server
/// after it.
pub fn some_step_law()
    ensures { SomeStepLaw }
{
    queued_law();
}

/// A step of a server is made place by place: what is sent is the DM to a station without a connection, if there is
/// one, and then what each place's end drains, in order. A frame changes its sender's place alone, or that of the
/// lowest empty place if it opens a connection; all others are as they were.
pub fn step_law()
    ensures { StepLaw }
{}

/// If a file that is received is the caller's, each command of a row of the session's table begins a file as the
/// caller, or is of an entry that is the caller's.
pub fn caller_law()
    ensures { CallerLaw }
{}

/// A file that is received stays the caller's: after each packet's row, over the store after the row's commands, once
/// what is due was queued, and so after a whole frame.
pub fn receives_law()
    ensures { ReceivesLaw }
{}

/// The row when a read of the disk fails is the row when none does, or replies DL_ERROR_RESP 3 and does nothing else,
/// or, at DATA_END of a whole file, is the row of one that can't be read. What is sent next is what it is when none
/// fails, or DL_ERROR_RESP 3 in its place.
pub fn reads_law()
    ensures rows { ReadsLaw }
    ensures due { DueReadsLaw }
{}

/// An event that reports no read of the disk that failed is what it is when no read fails, whichever writes and syncs
/// fail in it.
pub fn misses_law()
    ensures { MissesLaw }
{
    reads_law();
}

/// The commands that an event begins in which a write or a sync fails are the first of those that it does when none
/// does: so what such an event leaves of a store is the store after the first of the event's commands.
pub fn front_of_event_law()
    ensures { FrontOfEventLaw }
{}
