//! One attempt of a client on the air: one SABM and all that follows. Its two sides, the server's session and the
//! client's job, with their ends of the link and with what each did, packet by packet; and what becomes of the attempts
//! of a client when a station made a step.

ghost use Rattle.air_world.specs.Attempts.Laws.{ClientLaw, CurrentLaw, FrontLaw, HeardFrontLaw, HeardLaw, LeftLaw};
ghost use Rattle.air_world.specs.Attempts.Laws.{ServerHearsLaw, ServerTicksLaw};

use ftl0_server::step_laws::{hearing_law, one_step_law, some_step_law};

/// What the server makes of a frame: the attempts of the client whose frame it is stay attempts, with what was sent and
/// taken at it, and those of all others stay as they are (AX.25 2.0, 2.4; FTL0 1990).
pub fn server_hears_law()
    ensures { ServerHearsLaw }
{
    hearing_law();
    some_step_law();
    one_step_law();
}

/// What a frame makes of store and lists: what the session makes of it that hears it; and nothing, if it is a SABM or
/// no session does.
pub fn heard_law()
    ensures { HeardLaw }
{
    hearing_law();
}

/// What the server makes of a tick: the attempts of each client stay attempts, of which the newest session goes on, or
/// is over.
pub fn server_ticks_law()
    ensures { ServerTicksLaw }
{
    some_step_law();
    one_step_law();
}

/// A frame that is no SABM and that a session hears is of the current attempt, and so is the session.
pub fn current_law()
    ensures { CurrentLaw }
{}

/// What a session takes by a frame are the next packets that its client said, whatever the session says to it (AX.25
/// 2.0, 2.4; FTL0 1990).
pub fn heard_front_law()
    ensures { HeardFrontLaw }
{
    hearing_law();
    some_step_law();
}

/// Attempts stay attempts if their sessions are over, and if a transmission is marked as delivered.
pub fn left_law()
    ensures { LeftLaw }
{}

/// The packets that one side of an attempt took are the first of those that the other one said (FTL0 1990).
pub fn front_law()
    ensures { FrontLaw }
{}

/// The attempts of a client go with it after each event that may reach it: an asking begins one, a frame and a tick
/// make the newest one go on, and a further SABM begins one with the same work (AX.25 2.0, 2.4.3.1; FTL0 1990).
pub fn client_law()
    ensures { ClientLaw }
{
    ftl0_client::step_laws::step_law();
    ftl0_client::step_laws::hearing_law();
    ftl0_client::step_laws::ticking_law();
    ftl0_client::attempt::laws::outcome_law();
    ftl0_client::laws::some_step_law();
    ftl0_client::laws::one_step_law();
}
