//! What a store of files is: its entries, what it reports about each, the commands that change it, and what they keep.
//! A whole file is checked by its header before it is sealed, and kept with the server's stamp (PFH 1990).
//!
//! The store is a list of entries (`specs/Store.antt`), and each change of it one of the commands of
//! `specs/Command.antt`. How it is kept in memory and on a disk is crate `file_store_blocks`'.
#![tactic(auto)]

mod begin_bar;
mod header;
mod info;
pub mod laws;
mod limits;

pub use begin_bar::BeginBar;
pub use header::header_in;
pub use info::Info;
pub use limits::{LAST_NEXT, LONGEST_FILE, MOST_ENTRIES};
