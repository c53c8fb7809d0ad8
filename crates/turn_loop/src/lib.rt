//! The node: what drives a party over an air, a clock and a disk, turn by turn; and the events of a station, which
//! frames it hears in what an air brings, and when it ticks (KISS; AX.25 2.0). Servers and clients share it.
#![tactic(auto)]

mod driving;
mod finished;
pub mod laws;
mod on_air;
mod party;
mod station;
mod station_reader;
mod stop;
mod terms;
mod turns;

pub use driving::drive;
pub use finished::Finished;
pub use party::{MOST_SAID, Party};
pub use station::Station;
pub use station_reader::StationReader;
pub use stop::NodeStop;
pub use terms::TurnTerms;
pub use turns::take_turns;
