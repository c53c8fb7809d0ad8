//! Laws of the world, each the contract of a function that does nothing.

ghost use Rattle.air_world.specs.Laws.{CutsLaw, ExistenceLaw, NoCutsLaw, PartsLaw, PrefixesLaw, RemovalLaw, RunLaw};
ghost use Rattle.air_world.specs.Laws.{ScheduleLaw, SoundLaw, StoresLaw};
ghost use Rattle.air_world.specs.StationLaws.{StationLaws};

use crate::{attempts, files};
use file_store_model::laws::follows_law;
use ftl0_client::attempt::laws::stands_law;
use ftl0_client::laws as client;
use ftl0_session::downloads::laws::stays_law;
use pfh_items::laws::{fault_law, no_front_law};

/// What the crates below say of the events of both stations.
fn station_laws()
    ensures { StationLaws }
{
    attempts::server_hears_law();
    attempts::heard_law();
    attempts::heard_front_law();
    attempts::server_ticks_law();
    attempts::current_law();
    attempts::left_law();
    attempts::front_law();
    attempts::client_law();
    files::session_law();
    files::job_law();
    files::job_tasks_law();
    files::stay_law();
    files::begin_law();
    ftl0_server::step_laws::hearing_law();
    ftl0_client::step_laws::step_law();
    ftl0_client::step_laws::hearing_law();
    ftl0_client::step_laws::ticking_law();
    stands_law();
    client::some_step_law();
    ftl0_server::step_laws::some_step_law();
}

/// The first world of each schedule is sound, and each event that may come keeps a world sound: frames that are lost,
/// repeated and displaced, ticks, breaks, askings, and power cuts inside whatever of the event's commands, at either
/// end. No entry of the server's store is given up.
pub fn sound_law()
    ensures { SoundLaw }
{
    station_laws();
}

/// A sound world has all parts, and what is promised of uploads and downloads holds in it: each acknowledged file is
/// kept, no offer exceeds what is held, and each finished download has its file's octets.
pub fn parts_law()
    ensures { PartsLaw }
{
    fault_law();
    no_front_law();
}

/// An entry under way that no session receives may be given up: the world stays sound.
pub fn removal_law()
    ensures { RemovalLaw }
{
    follows_law();
    stays_law();
}

/// If an event may come in a sound world there is a step.
pub fn existence_law()
    ensures { ExistenceLaw }
{
    client::some_step_law();
    ftl0_server::step_laws::some_step_law();
}

/// What is promised is true also while the next event of a sound world is under way, in all that the power may leave:
/// of a server's event in the store after the first of its commands, for any number of them, and of a client's with its
/// notes after them.
pub fn prefixes_law()
    ensures { PrefixesLaw }
{
    station_laws();
    follows_law();
    fault_law();
    no_front_law();
}

/// The store of each next world follows from the one before, and so does what is there while an event is under way;
/// what is promised stays in a store that follows.
pub fn stores_law()
    ensures { StoresLaw }
{
    station_laws();
}

/// What is promised of uploads and downloads is true in each world of each lawful schedule, the first one too, and
/// while the event after it is under way, in all that the power may leave.
pub fn schedule_law()
    ensures { ScheduleLaw }
{
    sound_law();
    parts_law();
    prefixes_law();
}

/// So it does in each world of a lawful schedule without cuts.
pub fn no_cuts_law()
    ensures { NoCutsLaw }
{
    schedule_law();
}

/// A schedule whose events may come, each in its turn, has its worlds.
pub fn run_law()
    ensures { RunLaw }
{
    sound_law();
    existence_law();
}

/// At an event that is to be cut the first of the event's commands may be done, for any number of them.
pub fn cuts_law()
    ensures { CutsLaw }
{}
