//! The schedule of a rehearsal: the window of its links, the calls of its clients and its events, and the reading of
//! its text. docs/FORMATS.md has the text's lines.
#![tactic(auto)]

mod ask;
mod call_word;
mod event;
mod event_line;
mod fault;
pub mod laws;
mod number;
mod schedule;
mod split;
mod tokens;
mod window;

pub use event::Event;
pub use fault::ScheduleFault;
pub use schedule::Schedule;
