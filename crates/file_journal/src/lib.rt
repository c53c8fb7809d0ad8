//! A journal of records on a disk that may lose power at any moment.
//!
//! Octets 0 to 7 of the disk are the magic, 8 to 11 the block number, 12 to 14 zero, 15 the selector. In one layout the
//! records stand from octet 16 on; in the others blocks of 512 octets stand there, as many as the block number says,
//! and the records behind them. In the last one these have two halves of one length, of which the selector says the one
//! that has the records: where a record has no room in it, what is left of them is written anew into the other half,
//! and that is chosen by the selector once it is synced.
//!
//! Each record stands behind a gate of one octet: the kind in one octet, the content's length in two, the content, then
//! the next gate. A gate is open where it is 01, and a record counts where its gate is open. A gate stands closed on
//! the disk before anything is written behind it, and is opened by a write of its own after the record is synced: so no
//! checksum is needed, and a crash leaves the records from before an append, or these and the new one.
//!
//! Records are kept for what they make of a state: they are applied to a ledger in order, and one that the state before
//! it doesn't allow is damage at its gate. A kept state is a ledger with the journal of its records: it is recovered
//! from whatever stands on the disk, and each change of it is a record that is on the disk before memory has it.
#![tactic(auto)]

mod change;
mod content;
mod faults;
mod format;
mod found;
mod header;
mod journal;
mod kept;
pub mod laws;
mod layout;
mod ledger;
mod record;
mod rewriting;
mod write;

pub use change::{BlockPut, Change};
pub use content::RecordContent;
pub use faults::{ApplyFault, JournalFault, ReadFault, RecoverFault, StoreFault};
pub use found::{Found, Owed};
pub use journal::Journal;
pub use kept::Kept;
pub use layout::{Half, Layout};
pub use ledger::{Ledger, RecordPlace};
pub use rewriting::Records;
