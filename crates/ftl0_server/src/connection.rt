//! A caller's connection: the server's end of the link, and the session over it (AX.25 2.0, 2.4; FTL0 1990). Frames and
//! ticks go in, frames come out, and the store's commands are on the disk before any of them does.

mod connection;
mod fate;
pub mod laws;

pub use connection::Connection;
pub use fate::Fate;
