//! Rows of refusals of a disk and of what uses one. A row has a refusal's type, its name, and the value that it
//! carries, if any. Its text is printed.

use anyhow::{Result, bail, ensure};
use client_notes::NotesRefusal;
use disk_model::DiskFault;
use file_journal::{JournalFault, ReadFault, RecoverFault, StoreFault};
use file_store::{BeginRefusal, HeaderFault, ResumeRefusal};
use row_words::{Player, kind_and_rest, text_of, two_parts};
use std::alloc::Global;

/// Plays rows of refusals, each on its own.
#[derive(Drop)]
pub struct RefusalRows;

impl Player for RefusalRows {
    fn play(&mut self, alloc: Global, row: &str) -> Result<String> {
        let (kind, refusal) = kind_and_rest(row);
        let (name, value) = kind_and_rest(refusal);
        match kind {
            "disk_model::DiskFault" => text_of(alloc, DiskFault),
            "file_journal::RecoverFault" => text_of(alloc, recover_fault(alloc, name, value)?),
            "file_journal::ReadFault" => text_of(alloc, read_fault(name, value)?),
            "file_journal::JournalFault" => text_of(alloc, journal_fault(name)?),
            "file_journal::StoreFault" | "file_store::StoreFault" => {
                text_of(alloc, store_fault(alloc, name, value)?)
            }
            "file_store::BeginRefusal" => text_of(alloc, begin_refusal(name, value)?),
            "file_store::ResumeRefusal" => text_of(alloc, resume_refusal(name)?),
            "file_store::HeaderFault" => text_of(alloc, header_fault(name)?),
            "client_notes::NotesRefusal" => text_of(alloc, notes_refusal(name, value)?),
            _ => bail!("no type of a refusal"),
        }
    }
}

/// Eight octets.
fn eight(alloc: Global, text: &str) -> Result<[u8; 8]> {
    let octets = hex::decode(alloc, text)?;
    ensure!(octets.len() == 8, "no eight octets");
    let mut found = [0; 8];
    found.copy_from_slice(octets.as_slice());
    Ok(found)
}

/// `NotAStore OCTETS`, `Damaged AT`, `Disk`
fn recover_fault(alloc: Global, name: &str, value: &str) -> Result<RecoverFault> {
    Ok(match name {
        "NotAStore" => RecoverFault::NotAStore {
            found: eight(alloc, value)?,
        },
        "Damaged" => RecoverFault::Damaged {
            at: value.parse::<u64>()?,
        },
        "Disk" => RecoverFault::Disk,
        _ => bail!("no refusal"),
    })
}

/// `Damaged AT`, `Disk`, `OutOfMemory`
fn read_fault(name: &str, value: &str) -> Result<ReadFault> {
    Ok(match name {
        "Damaged" => ReadFault::Damaged {
            at: value.parse::<u64>()?,
        },
        "Disk" => ReadFault::Disk,
        "OutOfMemory" => ReadFault::OutOfMemory,
        _ => bail!("no refusal"),
    })
}

/// `Disk`, `Failed`
fn journal_fault(name: &str) -> Result<JournalFault> {
    Ok(match name {
        "Disk" => JournalFault::Disk,
        "Failed" => JournalFault::Failed,
        _ => bail!("no refusal"),
    })
}

/// `NotAStore OCTETS`, `Damaged AT`, `Disk`, `OutOfMemory`
fn store_fault(alloc: Global, name: &str, value: &str) -> Result<StoreFault> {
    Ok(match name {
        "NotAStore" => StoreFault::NotAStore {
            found: eight(alloc, value)?,
        },
        "Damaged" => StoreFault::Damaged {
            at: value.parse::<u64>()?,
        },
        "Disk" => StoreFault::Disk,
        "OutOfMemory" => StoreFault::OutOfMemory,
        _ => bail!("no refusal"),
    })
}

/// `TooLong`, `TooMany`, `NumbersGone`, `NoRoom BLOCKS FREE`, `Failed`, `Disk`
fn begin_refusal(name: &str, value: &str) -> Result<BeginRefusal> {
    Ok(match name {
        "TooLong" => BeginRefusal::TooLong,
        "TooMany" => BeginRefusal::TooMany,
        "NumbersGone" => BeginRefusal::NumbersGone,
        "NoRoom" => {
            let (blocks, free) = two_parts(value, ' ')?;
            BeginRefusal::NoRoom {
                blocks: blocks.parse::<u32>()?,
                free: free.parse::<u32>()?,
            }
        }
        "Failed" => BeginRefusal::Failed,
        "Disk" => BeginRefusal::Disk,
        _ => bail!("no refusal"),
    })
}

/// `NoSuch`, `Bad`, `Complete`, `Failed`
fn resume_refusal(name: &str) -> Result<ResumeRefusal> {
    Ok(match name {
        "NoSuch" => ResumeRefusal::NoSuch,
        "Bad" => ResumeRefusal::Bad,
        "Complete" => ResumeRefusal::Complete,
        "Failed" => ResumeRefusal::Failed,
        _ => bail!("no refusal"),
    })
}

/// `Disk`, `NoHeader`
fn header_fault(name: &str) -> Result<HeaderFault> {
    Ok(match name {
        "Disk" => HeaderFault::Disk,
        "NoHeader" => HeaderFault::NoHeader,
        _ => bail!("no refusal"),
    })
}

/// `Changed LENGTH`, of a digest of zeros, `Full`, `Disk`, `Failed`, `OutOfMemory`
fn notes_refusal(name: &str, value: &str) -> Result<NotesRefusal> {
    Ok(match name {
        "Changed" => NotesRefusal::Changed {
            length: value.parse::<u32>()?,
            digest: [0; 32],
        },
        "Full" => NotesRefusal::Full,
        "Disk" => NotesRefusal::Disk,
        "Failed" => NotesRefusal::Failed,
        "OutOfMemory" => NotesRefusal::OutOfMemory,
        _ => bail!("no refusal"),
    })
}
