//! The client of a server of files on the air: what is asked of it, one after another, over its notes on a disk and one
//! link at a time ([`attempt`]; AX.25 2.0, 2.4; FTL0 1990). Frames and ticks go in, frames come out. It knows no modem
//! and no clock.
#![tactic(auto)]

pub mod attempt;
mod client;
pub mod laws;
pub mod step_laws;

pub use client::Client;
pub use ftl0_client_job::{Job, Outcome};
