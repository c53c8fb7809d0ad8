//! Rows of disks, each the words of its octets: a store of 8 blocks is recovered from them, and the files that it holds
//! are printed, or why the octets are none.

use anyhow::Result;
use disk_model::MemoryDisk;
use file_store::{FileStore, Limits};
use px_base::FileNumber;
use row_words::{Player, push_shown, read_octets, text_of};
use std::alloc::Global;

/// Plays rows of disks, each on its own.
#[derive(Drop)]
pub struct ImageRows;

impl Player for ImageRows {
    fn play(&mut self, alloc: Global, row: &str) -> Result<String> {
        recovered(alloc, row)
    }
}

/// Recovers a store from the octets of a row, and shows it, or why it isn't recovered. Takes memory.
fn recovered(alloc: Global, row: &str) -> Result<String> {
    let octets = read_octets(alloc, row)?;
    let mut disk = MemoryDisk::new(alloc, octets.as_slice(), &[])?;
    match FileStore::recover(alloc, &mut disk, Limits { blocks: 8 }) {
        Ok(store) => shown(alloc, &store),
        Err(fault) => text_of(alloc, fault),
    }
}

/// The first three entries of a store: the number, how many octets are held of how many, and whether the file is
/// complete. Takes memory.
fn shown(alloc: Global, store: &FileStore) -> Result<String> {
    let mut text = String::from_str(alloc, "store")?;
    for number in 1..4u32 {
        if let Some(info) = store.info(FileNumber::new(number)) {
            let end = if info.complete {
                "complete"
            } else {
                "under way"
            };
            let held = info.held;
            let length = info.length;
            let entry = format_args!("; {number}: {held} of {length}, {end}");
            push_shown(alloc, &mut text, entry)?;
        }
    }
    Ok(text)
}
