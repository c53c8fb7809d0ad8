//! Plays rows of the parts that `pacsat` is made of, family by family: a test, in data. Each line of standard input
//! names a family. Its rows are the lines of the file of that name with `.rows` appended, in `data`, which is in the
//! folder in which the program runs. For each family a heading is printed, and then for each row what its player gives;
//! an empty line and one that begins with `#` are printed as they are.
//!
//! A further family is a module with a struct that is a `Player`, and says above what its rows are; a line in `play`;
//! the file of its rows in `data`; its name in `stdin`; and what is expected, worked out by hand, at its place in
//! `stdout`.
#![tactic(auto)]

mod base;
mod cuts;
mod disk;
mod frames;
mod header;
mod image;
mod items;
mod journal;
mod kiss_text;
mod link;
mod notes;
mod packets;
mod parts;
mod pieces;
mod reader;
mod refusals;
mod schedule;
mod selections;
mod store;
mod words;
mod writer;

use anyhow::{Result, bail};
use row_words::play_family;
use std::io::{Input, Print};
use std::rt::Files;

fn main(rt: HostRuntime) -> Result<()> {
    for family in rt.lines(rt.alloc()) {
        play(&rt, family?.as_str())?;
    }
    Ok(())
}

/// Plays the family of this name.
fn play<R: AllocGlobal + Files + Print>(rt: &R, family: &str) -> Result<()> {
    match family {
        "base" => play_family(rt, family, &mut base::BaseRows),
        "cuts" => play_family(rt, family, &mut cuts::CutRows),
        "disk" => play_family(rt, family, &mut disk::DiskRows),
        "frames" => play_family(rt, family, &mut frames::FrameRows),
        "header" => play_family(rt, family, &mut header::HeaderRows),
        "image" => play_family(rt, family, &mut image::ImageRows),
        "items" => play_family(rt, family, &mut items::ItemRows),
        "journal" => play_family(rt, family, &mut journal::JournalRows),
        "kiss" => play_family(rt, family, &mut kiss_text::KissRows::new()),
        "link" => play_family(rt, family, &mut link::LinkRows),
        "notes" => play_family(rt, family, &mut notes::NotesRows),
        "packets" => play_family(rt, family, &mut packets::PacketRows),
        "reader" => play_family(rt, family, &mut reader::ReaderRows),
        "refusals" => play_family(rt, family, &mut refusals::RefusalRows),
        "schedule" => play_family(rt, family, &mut schedule::ScheduleRows),
        "selection" => play_family(rt, family, &mut selections::SelectionRows::new(rt.alloc())),
        "store" => play_family(rt, family, &mut store::StoreRows),
        "words" => play_family(rt, family, &mut words::WordRows),
        "writer" => play_family(rt, family, &mut writer::WriterRows),
        _ => bail!("no family {family}"),
    }
}
