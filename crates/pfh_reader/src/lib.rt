//! The check of a file by its PACSAT file header (PFH 1990): the first rule of headers that it breaks, or none.
//!
//! [`check`] is over a file that lies in memory, [`Checker`] over one that comes in pieces of any lengths.
#![tactic(auto)]

mod checker;
mod claims;
mod fault;
mod measures;
mod pieces;
mod whole_file;

pub use checker::Checker;
pub use fault::HeaderFault;
pub use pfh_items::{FileFault, Header, Sums};
pub use pieces::check_pieces;
pub use whole_file::check;
