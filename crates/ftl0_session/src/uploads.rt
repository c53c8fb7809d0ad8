//! The uploads of one caller's session with the server (FTL0 1990, uploading): the rows of the session's table for
//! DATA, DATA_END and UPLOAD_CMD, malformed or not, over a store of files on a disk. No other packet is taken.

mod asked;
pub mod laws;
mod phase;
mod session;

pub use phase::Phase;
pub use session::{Replies, Session};
