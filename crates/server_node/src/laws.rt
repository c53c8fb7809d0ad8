//! Laws of a session and of a server: of what they went over.

ghost use Rattle.ftl0_server.specs.Serving.{ServesLaw};
ghost use Rattle.ftl0_session.specs.RunLaws.{RunsLaw};

/// What a session went over: the store that it came to is the one after its commands, and so it was at each event.
pub fn runs_law()
    ensures { RunsLaw }
{}

/// What a server went over: the store that it came to is the one after its commands, and so it was at each event.
pub fn serves_law()
    ensures { ServesLaw }
{}
