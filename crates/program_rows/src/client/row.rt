//! One row: what is run, and what it tells.

use crate::client::asked::{About, Stations};
use crate::client::run::{Outside, Run};
use crate::client::standing::standing_text;
use anyhow::{Context, Result, bail};
use disk_model::MemoryDisk;
use pacsat_cli::Words;
use pfh_items::sum16;
use px_base::FileBytes;
use row_words::{Player, disk_after, octets_before, read_octets, read_words, text_of, written};
use std::alloc::Global;

/// The parts of a row.
#[derive(Clone, Copy)]
struct Row<'a> {
    words: &'a str,
    outside: Outside<'a>,
    content: &'a str,
    disk: &'a str,
    failing_disk: &'a str,
}

impl<'a> Row<'a> {
    /// Takes a row apart. Takes memory.
    fn read(alloc: Global, text: &'a str) -> Result<Row<'a>> {
        let parts = text.split(';').collect::<Vec<&str>>(alloc)?;
        let [
            words,
            failing_air,
            poll,
            turns,
            content,
            failing_shelf,
            failing_out,
            disk,
            failing_disk,
        ] = parts.as_slice()
        else {
            bail!("no row of nine parts");
        };
        Ok(Row {
            words,
            outside: Outside {
                failing_air,
                poll,
                turns,
                failing_shelf,
                failing_out,
            },
            content,
            disk,
            failing_disk,
        })
    }
}

/// Plays rows, each of which may begin on what the row before left on its disk and on its shelf.
#[derive(Drop)]
pub struct ClientRows {
    disk: Option<MemoryDisk>,
    kept: Option<FileBytes>,
}

impl Player for ClientRows {
    /// Plays a row, and keeps its disk and what its shelf has for the next one.
    fn play(&mut self, alloc: Global, row: &str) -> Result<String> {
        let row = Row::read(alloc, row)?;
        let words = read_words(alloc, row.words)?;
        let about = About::read(&words)?;
        let mut run = self.open(alloc, &row, &words, &about)?;
        let number = self.carry_out(alloc, &row, &mut run, &about)?;
        self.told_text(alloc, number, &run, &words, &about)
    }
}

impl ClientRows {
    /// Before the first row.
    pub fn new() -> ClientRows {
        ClientRows {
            disk: None,
            kept: None,
        }
    }

    /// The run of a row, over what its shelf has.
    fn open<'a>(
        &mut self,
        alloc: Global,
        row: &Row<'_>,
        words: &'a Words,
        about: &About<'_>,
    ) -> Result<Run<'a>> {
        let content = self.content(alloc, row.content)?;
        Run::open(alloc, words, &row.outside, about.name(), content)
    }

    /// What the shelf of a row has under its name.
    fn content(&mut self, alloc: Global, text: &str) -> Result<Option<FileBytes>> {
        match text {
            "none" => Ok(None),
            "=" => Ok(Some(self.kept.take().context("nothing on the shelf")?)),
            octets => Ok(Some(FileBytes::from_vec(read_octets(alloc, written(octets))?))),
        }
    }

    /// Carries out a run over the row's disk, and keeps the disk and what the shelf has: the status's number.
    fn carry_out(
        &mut self,
        alloc: Global,
        row: &Row<'_>,
        run: &mut Run<'_>,
        about: &About<'_>,
    ) -> Result<u8> {
        let octets = octets_before(alloc, row.disk, self.disk.take())?;
        let (number, disk) = disk_after(alloc, run, octets.as_slice(), row.failing_disk)?;
        self.disk = Some(disk);
        self.kept = run.kept(alloc, about.name())?;
        Ok(number)
    }

    /// What is printed behind a run of these words that ended with this status.
    fn told_text(
        &self,
        alloc: Global,
        number: u8,
        run: &Run<'_>,
        words: &Words,
        about: &About<'_>,
    ) -> Result<String> {
        let told = told_text(alloc, run, &self.kept)?;
        let left = self.left_text(alloc, words, about)?;
        let said = run.said_text(alloc)?;
        text_of(alloc, format_args!("{number};{told};{left};{said}"))
    }

    /// What the disk stands for behind a run of these words, and the length and the sum of its octets.
    fn left_text(&self, alloc: Global, words: &Words, about: &About<'_>) -> Result<String> {
        let disk = self.disk.as_ref().context("no disk")?;
        let stations = Stations::read(words)?;
        let standing = standing_text(alloc, disk.bytes(), &stations, about)?;
        let sum = sum_text(alloc, disk.bytes())?;
        text_of(alloc, format_args!("{standing};{sum}"))
    }
}

/// What was shown, how many polls were made, and what the shelf then has.
fn told_text(alloc: Global, run: &Run<'_>, kept: &Option<FileBytes>) -> Result<String> {
    let shown = run.shown_text(alloc)?;
    let kept = kept_text(alloc, kept)?;
    text_of(alloc, format_args!("{shown};{kept}"))
}

/// The length and the sum of what is on a shelf, if there is anything.
fn kept_text(alloc: Global, kept: &Option<FileBytes>) -> Result<String> {
    match kept {
        Some(content) => sum_text(alloc, content.as_slice()),
        None => text_of(alloc, "none"),
    }
}

/// The length and the sum of octets.
fn sum_text(alloc: Global, octets: &[u8]) -> Result<String> {
    let (len, sum) = (octets.len(), sum16(octets));
    text_of(alloc, format_args!("{len} {sum:04x}"))
}
