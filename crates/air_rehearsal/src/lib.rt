//! The rehearsal: the very server and clients over an air that loses, repeats and displaces frames, and over disks that
//! lose power. It plays a schedule, or one that it draws by a number, and counts what came of it.
#![tactic(auto)]

mod asking;
mod attempt;
mod cuts;
mod generator;
mod kept;
mod lane;
mod part;
mod party;
mod play;
mod rehearsing;
mod report;
mod serving;
mod stations;
mod stopped;

pub use generator::drive;
pub use rehearsing::{RehearseStop, rehearse};
pub use report::Report;
pub use stopped::Breach;
