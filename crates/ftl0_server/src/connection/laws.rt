//! Laws of a connection, each the contract of a function that does nothing.

ghost use Rattle.ftl0_server.specs.Connection.Laws.{QueuedLaw, TakingLaw};

/// If the packets before one were all taken, the session goes on, and no write or sync fails at that one, it is taken
/// over the store after their commands, and the commands of its row are done after theirs, whatever packets come after
/// it and whatever reads fail.
pub fn taking_law()
    ensures { TakingLaw }
{}

/// After an event at which the session goes on nothing more is due, or fewer than 1,280 octets are free on the link.
pub fn queued_law()
    ensures { QueuedLaw }
{}
