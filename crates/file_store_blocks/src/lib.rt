//! The entries of a store of files whose octets are in blocks of a disk.
//!
//! What a store is, and what the commands do to it, is `file_store_model`'. Here is how it is kept on a disk: each
//! record of the journal says of which file it is and in which block further octets are, and the blocks hold the
//! octets.
#![tactic(auto)]

mod anew;
mod applied;
mod block_table;
mod check_fault;
mod command;
mod entries;
mod file_blocks;
mod file_check;
mod file_reading;
mod header_reading;
pub mod laws;
mod ledger;
mod limits;
mod piece_taker;
mod reader;
mod reading;
mod recorded;
mod sealed_file;
mod stamp;
mod stored_file;
mod writing;

pub use check_fault::CheckFault;
pub use command::PlacedCommand;
pub use entries::Entries;
pub use file_blocks::{FileBlocks, read_octets};
pub use file_check::CheckedHeader;
pub use file_reading::{check_file, read_stamped};
pub use header_reading::read_header;
pub use reader::BlockReader;
pub use sealed_file::SealedFile;
pub use stamp::Stamp;
