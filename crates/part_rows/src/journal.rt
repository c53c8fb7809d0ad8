//! Rows of a journal. A row has, separated by `|`, a disk's octets, the numbers of its calls that fail, and how many
//! calls of `write_at` and `sync` pass, and after that `blocks`, if the octets of blocks come before the records, or
//! `halves`, if the records have two halves after these. The journal of a store of 8 blocks, or of 1 with its octets,
//! is recovered and read to its end; if there are blocks, `block` is written in block 0, and if there are no halves,
//! seven octets are read there from place 1 on; and a record of the kind 4 with the content 01000000 is put. If a half
//! has no room for it, two records are put instead of all before.
//!
//! Printed are how it ended: `Done`, with the room after the record, which is 2^62 octets if there are no halves;
//! `Refused` and why; `Failed`, why the octets or the records weren't put, and what a further put answers; or `Unread`.
//! After ` | read ` come the kind and the content of each record that was read, and the octets of the block, as far as
//! they are 700 octets, and after ` | ` the disk's octets, of which more than 32 alike are one in brackets, with its
//! count.

mod anew;
mod labelled;
mod put;

use crate::journal::labelled::Labelled;
use crate::journal::put::{Seen, put_under_label};
use crate::parts::runs_text;
use anyhow::{Result, ensure};
use disk_model::{CutDisk, FuseDisk, MemoryDisk};
use file_journal::Layout;
use px_base::FileBytes;
use row_words::{Player, read_numbers, read_octets, text_of, three_parts};
use std::alloc::Global;

/// Plays rows of journals, each on its own.
#[derive(Drop)]
pub struct JournalRows;

impl Player for JournalRows {
    fn play(&mut self, alloc: Global, row: &str) -> Result<String> {
        let (row, layout) = layout_of(row);
        let mut labelled = disk_of(alloc, row)?;
        let mut seen = Seen::new();
        let ended = put_under_label(&mut labelled, layout, &mut seen);
        let seen = runs_text(alloc, seen.as_slice())?;
        let octets = octets_of(alloc, &labelled)?;
        text_of(alloc, format_args!("{ended:?} | read {seen} | {octets}"))
    }
}

/// A row without its last word, if that is `blocks` or `halves`, and the layout of its store.
fn layout_of(row: &str) -> (&str, Layout) {
    match row.rsplit_once(' ') {
        Some((row, "blocks")) => (row, Layout::Blocks),
        Some((row, "halves")) => (row, Layout::Halves),
        _ => (row, Layout::Growing),
    }
}

/// The disk of a row, under a label.
fn disk_of(alloc: Global, row: &str) -> Result<Labelled<FuseDisk>> {
    let (octets, failing, calls) = three_parts(row, '|')?;
    let calls = calls.trim().parse::<u64>()?;
    let label = FileBytes::copy_of(alloc, b"label")?;
    let octets = read_octets(alloc, octets)?;
    let failing = read_numbers(alloc, failing)?;
    let disk = MemoryDisk::new(alloc, octets.as_slice(), failing.as_slice())?;
    let disk = FuseDisk::new(disk, calls);
    Ok(Labelled { disk, label })
}

/// The octets of a labelled disk.
fn octets_of(alloc: Global, labelled: &Labelled<FuseDisk>) -> Result<String> {
    let Labelled { disk, label } = labelled;
    ensure!(!disk.starved(), "a call found no memory");
    ensure!(label.as_slice() == b"label".as_slice(), "another label");
    runs_text(alloc, disk.bytes())
}
