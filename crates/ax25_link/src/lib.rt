//! A link between two stations in connected mode (AX.25 2.0, 2.4): frames and ticks go in, frames come out. It
//! knows no modem and no clock. Numbers of frames are counted modulo 8.
#![tactic(auto)]

pub mod laws;
mod link;
mod number;
mod outgoing;
mod refusal;
mod reply;
mod send_queue;
mod state;
mod taking;
mod timer;
mod window;

pub use link::Link;
pub use refusal::{Refusal, is_answered, is_call};
pub use state::{Heard, LinkState, Why, information};
pub use window::good_k;
