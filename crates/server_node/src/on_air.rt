//! The server on the air: a station that a node drives.

mod serving;
mod station;

pub use serving::serve;
