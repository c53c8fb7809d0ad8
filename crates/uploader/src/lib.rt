//! The commands of a client of a server of files on the air: a file is sent, fetched, or the files of a selection are
//! listed (FTL0 1990), over the client's notes on a disk, an air and a clock.
#![tactic(auto)]

mod fetching;
mod line;
mod listing;
mod loading;
mod recovering;
mod sending;
mod stop;
mod sum;
mod terms;
mod turns;

pub use fetching::fetch;
pub use listing::list;
pub use sending::send;
pub use stop::SendStop;
pub use sum::FileSum;
pub use terms::{ClientTerms, Sent};
