//! What the octets of a disk stand for.

use crate::client::asked::{About, Stations};
use anyhow::Result;
use client_notes::{Noted, Notes, StoreFault};
use disk_model::MemoryDisk;
use pfh_items::sum16;
use px_base::{Call, FileNumber};
use row_words::text_of;
use std::alloc::Global;

/// What octets stand for as a client's notes, as a recovery of a disk with them finds it, of what a command is about.
/// Takes memory.
pub fn standing_text(
    alloc: Global,
    octets: &[u8],
    stations: &Stations,
    about: &About<'_>,
) -> Result<String> {
    let mut disk = MemoryDisk::new(alloc, octets, &[])?;
    match Notes::recover(alloc, &mut disk) {
        Ok(notes) => notes_text(alloc, &notes, stations, about),
        Err(StoreFault::NotAStore { .. }) => text_of(alloc, "no notes"),
        Err(StoreFault::Damaged { at }) => text_of(alloc, format_args!("damaged {at}")),
        Err(fault) => Err(fault.into()),
    }
}

/// What notes have of what a command is about.
fn notes_text(
    alloc: Global,
    notes: &Notes,
    stations: &Stations,
    about: &About<'_>,
) -> Result<String> {
    match about {
        About::Sent { name } => noted_text(alloc, notes.noted(stations.server, stations.me, name)),
        About::Fetched { number, .. } => {
            got_text(alloc, notes, stations.server, FileNumber::new(*number))
        }
        About::Listed => text_of(alloc, "notes"),
    }
}

/// How many octets of the file with this number of a server are got, and their sum.
fn got_text(alloc: Global, notes: &Notes, server: Call, number: FileNumber) -> Result<String> {
    let len = notes.got_len(server, number);
    let mut room = Vec::new(alloc);
    room.resize(len as usize, 0)?;
    notes.read_got(server, number, 0, room.as_mut_slice());
    let sum = sum16(room.as_slice());
    text_of(alloc, format_args!("got {len} {sum:04x}"))
}

/// How a task stands.
fn noted_text(alloc: Global, noted: Option<Noted>) -> Result<String> {
    let Some(noted) = noted else {
        return text_of(alloc, "none");
    };
    match noted {
        Noted::Going { task, number } => text_of(
            alloc,
            format_args!("going {} {}", task.get(), number.get()),
        ),
        Noted::Acked { task, number } => text_of(
            alloc,
            format_args!("acked {} {}", task.get(), number.get()),
        ),
        Noted::Refused { task, code } => text_of(
            alloc,
            format_args!("refused {} {code}", task.get()),
        ),
    }
}
