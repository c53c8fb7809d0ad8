//! The node of a server: what serves one session over FTL0 octets, or up to eight sessions on the air, over a clock and
//! the disk of its store.
#![tactic(auto)]

pub mod acknowledged;
mod ended;
pub mod laws;
mod on_air;
mod sessions;
mod terms;

pub use on_air::serve;
pub use sessions::session;
pub use terms::{Served, ServerTerms, SessionTerms};
pub use turn_loop::NodeStop;
