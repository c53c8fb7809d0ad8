//! One session over FTL0 octets without a link: a party that a node drives.

mod server;
mod serving;

pub use serving::session;
