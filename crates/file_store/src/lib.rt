//! The store of files on a disk that may lose power at any moment: partial and complete files, and the uploads under
//! way.
//!
//! The store is a list of entries, whose octets are in blocks of the disk (crate `file_store_blocks`), and each call
//! does some of its commands (crate `file_store_model`). Each command is a record of a journal (crate `file_journal`):
//! what it puts in a block and then its record are on the disk, synced, before the entries change in memory, and so
//! before the caller can say anything of it. A crash leaves the store after the first of the commands, none skipped.
//! The records are in one of two halves of the disk: if that half has no room for one more, those that rebuild the
//! store are written into the other one first, and so the disk never gets longer than its blocks and the two.
#![tactic(auto)]

mod change;
mod end;
mod file_store;
mod header;
pub mod laws;
mod limits;
mod open_upload;
mod put;
mod reading;
mod receipt;
mod refusals;

pub use file_journal::StoreFault;
pub use file_store::FileStore;
pub use file_store_model::{Info, LAST_NEXT, LONGEST_FILE, MOST_ENTRIES, header_in};
pub use limits::Limits;
pub use open_upload::OpenUpload;
pub use receipt::Receipt;
pub use refusals::{AppendRefusal, BeginRefusal, HeaderFault, ResumeRefusal, SealRefusal};
