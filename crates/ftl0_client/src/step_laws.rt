//! Laws of a client's steps, over the definitions of `ftl0_client`: what is sent, what becomes of the job, and
//! which commands of the notes are begun.

ghost use Rattle.ftl0_client.specs.StepLaws.Steps.{StepLaw};
ghost use Rattle.ftl0_client.specs.StepLaws.Stops.{FrontOfEventLaw};
ghost use Rattle.ftl0_client.specs.Entries.{HearingLaw, TickingLaw};

/// A step of a client by its attempt: the frames are what the end of its link sends until nothing is to be sent, and
/// those of an asking are one SABM (AX.25 2.0, 2.4.3.1).
pub fn step_law()
    ensures { StepLaw }
{}

/// What a tick makes of an attempt is what the packets make that are queued at it.
pub fn ticking_law()
    ensures { TickingLaw }
{}

/// What a frame from the server makes of an attempt is what its packets make, each taken over the notes after those
/// before it, and then those that are queued (FTL0 1990).
pub fn hearing_law()
    ensures { HearingLaw }
{}

/// The commands of the notes that an event begins that stops at a packet, if the disk fails or there is no memory, are
/// the first of those that it has if nothing stops it.
pub fn front_of_event_law()
    ensures { FrontOfEventLaw }
{}
