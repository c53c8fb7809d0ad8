//! The server of FTL0 sessions on the air: up to eight callers' connections ([`connection`]), over one store of files
//! on a disk and the selections of all callers (AX.25 2.0, 2.4; FTL0 1990). Frames and ticks go in, frames come out.
//! It knows no modem and no clock.
#![tactic(auto)]

pub mod connection;
pub mod laws;
mod place;
mod places;
mod server;
pub mod step_laws;

pub use server::{PLACES, Server};
