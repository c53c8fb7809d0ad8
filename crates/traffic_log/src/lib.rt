//! What passes over an air, shown as lines for people: who connects, what is sent and fetched, how far it is, and how
//! it ended. [`LoggedAir`] is the air that it wraps, whatever it shows: each call is one call of that air, with its
//! answer and its octets, and if a line can't be shown nothing else changes. The lines are shown, and not promised:
//! they are what a [`Watcher`] makes of the frames and packets that pass (KISS; AX.25 2.0; FTL0 1990).
#![tactic(auto)]

mod client_lines;
mod level;
mod lines;
mod link;
mod logged_air;
mod meaning;
mod packet_stream;
mod server_lines;
mod transfer;
mod watcher;

pub use level::Level;
pub use lines::Lines;
pub use logged_air::LoggedAir;
pub use meaning::meaning_of_code;
pub use watcher::Watcher;
