//! Which blocks of a store its files take.
//!
//! The octets of a store's files are in blocks of 512 octets on a disk. Each file has a run of blocks: the numbers of
//! the blocks that its octets are in, in their order. This is the table of these runs, in memory.

pub mod laws;
mod marks;
mod table;

pub use table::BlockTable;
